//! The rules that are in force, and the source that reports them.

ghost use Rattle.std.specs.Prelude.{◌≡◌, option_map};
ghost use Rattle.lra_admission.specs.Keys.{digests_of};
ghost use Rattle.lra_admission.specs.Admitting as spec;

use crate::keys::{Keys, secret_in};
use crate::names::{Name, is_own_host, is_own_origin};
use lra_front::ApiError;
use lra_wire::RequestFields;

/// Rules by which requests are let in.
#[derive(Clone, Copy)]
pub struct Admission<'a> {
    /// Keys of which each request has to give one, if keys are asked for.
    pub keys: Option<&'a Keys>,
    /// Names by which each request has to come, if there are any.
    pub names: &'a [Name],
}

/// Returns whether a request gives a key that is known.
fn has_key(keys: &Keys, authorization: &Option<Vec<u8>>) -> bool
    ensures { result ≡ spec.has_key (digests_of keys.now) (option_map (λ value. value.items) authorization.now) }
{
    match authorization {
        Some(value) => match secret_in(value.as_slice()) {
            Some(secret) => keys.admits(secret),
            None => false,
        },
        None => false,
    }
}

/// Returns whether keys are asked for, and a request gives none that is known.
fn lacks_key(keys: Option<&Keys>, authorization: &Option<Vec<u8>>) -> bool
    ensures { result ≡ spec.lacks_key (option_map (λ k. digests_of k.now) keys.entry)
        (option_map (λ value. value.items) authorization.now) }
{
    match keys {
        Some(keys) => !has_key(keys, authorization),
        None => false,
    }
}

/// Returns whether a request came by one of the names.
fn has_host(names: &[Name], host: &Option<Vec<u8>>) -> bool
    ensures { result ≡ spec.has_host names.now (option_map (λ value. value.items) host.now) }
{
    match host {
        Some(host) => is_own_host(names, host.as_slice()),
        None => false,
    }
}

/// Returns whether a request came from no page, or from a page at one of the names.
fn has_origin(names: &[Name], origin: &Option<Vec<u8>>) -> bool
    ensures { result ≡ spec.has_origin names.now (option_map (λ value. value.items) origin.now) }
{
    match origin {
        Some(origin) => is_own_origin(names, origin.as_slice()),
        None => true,
    }
}

impl Admission<'_> {
    ghost use Rattle.std.specs.Prelude.{◌≡◌};
    ghost use Rattle.lra_wire.specs.Request.{what_fields};
    ghost use Rattle.lra_admission.specs.Admitting.{rules_of, api_error_of};

    /// Returns why a request with these fields isn't let in, or nothing if it is.
    pub fn api_error(self, fields: &RequestFields) -> Option<ApiError>
        ensures { result ≡ api_error_of (rules_of self.entry) (what_fields fields.now) }
    {
        if lacks_key(self.keys, &fields.authorization) {
            return Some(ApiError::WrongKey);
        }
        if self.names.is_empty() {
            return None;
        }
        if !has_host(self.names, &fields.host) {
            return Some(ApiError::WrongHost);
        }
        if !has_origin(self.names, &fields.origin) {
            return Some(ApiError::WrongOrigin);
        }
        None
    }
}

/// Source that reports the rules in force.
pub trait KeySource {
    ghost use Rattle.std.specs.Prelude.{◌≡◌};
    ghost use Rattle.lra_admission.specs.Admitting.{Rules, rules_of};

    // The rules in force.
    ghost in_force: { Self → Rules };

    // What a check does: which rules were in force before it, and which are after it.
    ghost looks: { Rules → Rules → Type 0 };

    /// Checks at a moment, in milliseconds, whether other rules come into force.
    fn look(&mut self, moment: u64)
        ensures { looks (in_force self.old) (in_force self.new) };

    /// Returns the rules in force. This takes no time.
    fn admission(&self) -> Admission<'_>
        ensures { rules_of result ≡ in_force self.now };
}
