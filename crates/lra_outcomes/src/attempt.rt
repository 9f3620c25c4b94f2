//! A callback of which the outcome is remembered.

ghost use Rattle.std.specs.Prelude.{◌≡◌, IfOk};
ghost use Rattle.lra_outcomes.specs.inner.Noted.{seen, seen_of};

use crate::reply::Reply;
use std::alloc::{AllocError, Global};

/// Last callback of a member, where it didn't advance the member.
#[derive(Drop)]
pub struct Attempt {
    /// Address that was asked.
    pub address: String,
    /// Outcome of the callback.
    pub reply: Reply,
    /// Moment of the outcome, in milliseconds since 1970 by the service's clock.
    pub moment: u64,
}

impl Attempt {
    /// Makes an attempt, with a copy of the address.
    pub(crate) fn new(
        alloc: Global,
        address: &str,
        reply: Reply,
        moment: u64,
    ) -> Result<Attempt, AllocError>
        ensures { IfOk result (λ made. seen_of made ≡ seen address.now reply moment) }
    {
        let address = String::from_str(alloc, address)?;
        Ok(Attempt {
            address,
            reply,
            moment,
        })
    }

    /// Copies the attempt.
    pub(crate) fn copy(&self, alloc: Global) -> Result<Attempt, AllocError>
        ensures { IfOk result (λ made. seen_of made ≡ seen_of self.now) }
    {
        Attempt::new(alloc, self.address.as_str(), self.reply, self.moment)
    }
}
