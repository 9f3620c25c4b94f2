//! A value of `traceparent`.

ghost use Rattle.std.specs.Prelude.{◌≡◌, ◌++◌, codes, length, true, option_map, IfOk};
ghost use Rattle.lra_traces.specs.Traceparents as spec;

use crate::reading::body_in;
use std::alloc::{AllocError, Global};
use std::marker::Model;
use std::str;

/// Value of `traceparent` in version 00: a trace, the span in it that asks, and flags. A contract sees its text.
#[derive(Debug, Drop)]
pub struct Traceparent {
    text: String,
}

impl Model for Traceparent {
    ghost use Rattle.std.specs.Prelude.{List, ℕ, IsTrue, string_bytes};
    ghost use Rattle.lra_traces.specs.Traceparents.{is_traceparent};

    ghost Value = { List ℕ };

    ghost view = { λ t. string_bytes t.text };

    ghost invariant = { λ t. IsTrue (is_traceparent (string_bytes t.text)) };
}

/// Writes IDs and flags in version 00.
fn spelled(alloc: Global, body: &str) -> Result<Traceparent, AllocError>
    requires body { spec.is_body body.now ≡ true }
    requires size { length body.now ≡ 53 }
    ensures { IfOk result (λ made. made ≡ codes "00" ++ body.now) }
{
    let mut text = String::from_str(alloc, "00")?;
    text.push_str(body)?;
    Ok(Traceparent { text })
}

/// Writes IDs and flags in version 00, if they are a text.
#[tactic(auto, using(crate::proofs::Texts::is_text, crate::proofs::Texts::is_no_text))]
fn spelled_text(alloc: Global, body: &[u8]) -> Result<Option<Traceparent>, AllocError>
    requires body { spec.is_body body.now ≡ true }
    requires size { length body.now ≡ 53 }
    ensures { IfOk result (λ made. option_map (λ own. own) made ≡ spec.spelled body.now) }
{
    match str::from_utf8(body) {
        Ok(text) => Ok(Some(spelled(alloc, text)?)),
        Err(_) => Ok(None),
    }
}

impl Traceparent {
    ghost use Rattle.std.specs.Prelude.{◌≡◌, option_map, IfOk, IsTrue};
    ghost use Rattle.lra_traces.specs.Traceparents.{is_traceparent, traceparent_of};

    /// Reads the value of a field, if it is valid. A value of a later version is read as far as version 00 goes.
    pub fn read(alloc: Global, value: &[u8]) -> Result<Option<Traceparent>, AllocError>
        ensures { IfOk result (λ read. option_map (λ own. own) read ≡ traceparent_of value.now) }
    {
        match body_in(value) {
            Some(body) => spelled_text(alloc, body),
            None => Ok(None),
        }
    }

    /// Returns the value as a field gives it.
    pub fn as_str(&self) -> &str
        ensures text { result.now ≡ self.now }
        ensures valid { IsTrue (is_traceparent result.now) }
    {
        self.text.as_str()
    }

    /// Copies the value.
    pub fn copy(&self, alloc: Global) -> Result<Traceparent, AllocError>
        ensures { IfOk result (λ copy. copy ≡ self.now) }
    {
        Ok(Traceparent {
            text: String::from_str(alloc, self.text.as_str())?,
        })
    }
}
