//! Fields that the request of a callback has besides its own.

ghost use Rattle.std.specs.Prelude.{◌≡◌, option_map};
ghost use Rattle.lra_courier.specs.Callbacks as spec;

use crate::token::Token;
use lra_traces::Traceparent;

/// Fields that the request of a callback has besides its own. They say nothing of its errand.
#[derive(Clone, Copy)]
pub struct ExtraFields<'a> {
    /// Token by which the member knows who calls.
    pub token: Option<&'a Token>,
    /// Trace of the request that ended the action (Trace Context, level 1).
    pub traceparent: Option<&'a Traceparent>,
}

impl<'a> ExtraFields<'a> {
    /// Returns no fields.
    pub fn none() -> ExtraFields<'a>
        ensures { spec.extra_of result ≡ spec.no_extra }
    {
        ExtraFields {
            token: None,
            traceparent: None,
        }
    }

    // Returns the credentials of the token, if there is one.
    pub(crate) fn credentials(&self) -> Option<&str>
        ensures { option_map (λ text. text.now) result ≡ (spec.extra_of self.now).token }
    {
        match self.token {
            Some(token) => Some(token.credentials()),
            None => None,
        }
    }

    // Returns the value of `traceparent`, if there is one.
    pub(crate) fn trace(&self) -> Option<&str>
        ensures { option_map (λ text. text.now) result ≡ (spec.extra_of self.now).traceparent }
    {
        if let Some(traceparent) = self.traceparent {
            Some(traceparent.as_str())
        } else {
            None
        }
    }
}
