//! The fields of forms and of queries.

ghost use Rattle.std.specs.Prelude.{◌≡◌, IfOk, string_bytes, option_map};
ghost use Rattle.std.specs.Str.Lossy.{utf8_lossy};
ghost use Rattle.form_urlencoded.specs.Form.{decode};
ghost use Rattle.lra_operators.specs.Forms.{raw_value, form_value};

use lra_model::Memory;
use std::alloc::Global;

/// Returns the value of the first field of a form that has a name, as it stands in the form.
fn raw_value<'a>(form: &'a [u8], name: &str) -> Option<&'a [u8]>
    ensures { option_map (λ value. value.now) result ≡ raw_value name.now form.now }
{
    for (key, value) in form_urlencoded::raw_pairs(form) {
        if key == name.as_bytes() {
            return Some(value);
        }
    }
    None
}

/// Decodes a value of a form.
fn decoded(alloc: Global, value: &[u8]) -> Result<String, Memory>
    ensures { IfOk result (λ text. string_bytes text ≡ utf8_lossy (decode value.now)) }
{
    form_urlencoded::decode(alloc, value)?.into_owned(alloc)
}

/// Returns the first field of a form, or of a query, that has a name, decoded.
pub fn in_form(alloc: Global, form: &[u8], name: &str) -> Result<Option<String>, Memory>
    ensures { IfOk result (λ found. option_map string_bytes found ≡ form_value name.now form.now) }
{
    match raw_value(form, name) {
        Some(value) => Ok(Some(decoded(alloc, value)?)),
        None => Ok(None),
    }
}
