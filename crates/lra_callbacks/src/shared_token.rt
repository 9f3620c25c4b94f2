//! The token that callbacks give to members, as all callback workers share it.

ghost use Rattle.std.specs.Prelude.{◌≡◌, option_map};
ghost use Rattle.std.specs.Arc.{arc_value};
ghost use Rattle.lra_courier.specs.Callbacks.{extra_of};

use lra_courier::{ExtraFields, Token};
use lra_model::Memory;
use lra_traces::Traceparent;
use std::sync::atomic::{AtomicU64, Ordering};
use std::sync::{Arc, Mutex, Wait};

/// Token that callbacks give to members. Another may come into force at any time.
#[derive(Drop)]
pub struct SharedToken {
    token: Mutex<Arc<Token>>,
    /// Number that changes whenever another token comes into force.
    version: AtomicU64,
}

impl SharedToken {
    /// Shares a token.
    pub fn new(token: Arc<Token>) -> SharedToken {
        SharedToken {
            token: Mutex::new(token),
            version: AtomicU64::new(1),
        }
    }

    /// Puts another token in force, for callbacks that begin from now on.
    pub fn set<R: Wait>(&self, rt: &R, token: Arc<Token>) {
        *self.token.lock(rt) = token;
        self.version.fetch_add(1, Ordering::SeqCst);
    }

    /// Returns the number of the token in force, which is never 0.
    fn version(&self) -> u64 {
        self.version.load(Ordering::SeqCst)
    }

    /// Returns the token in force.
    fn token<R: Wait>(&self, rt: &R) -> Result<Arc<Token>, Memory> {
        Arc::try_clone(&self.token.lock(rt))
    }
}

/// Token that is in force at one callback worker, if callbacks give one.
#[derive(Drop)]
pub(crate) struct TokenCache<'a> {
    shared: Option<&'a SharedToken>,
    token: Option<Arc<Token>>,
    /// Number of the token, or 0 before there is one.
    version: u64,
}

impl<'a> TokenCache<'a> {
    /// Makes the cache of a worker, whose callbacks give the shared token if there is one.
    pub(crate) fn new(shared: Option<&'a SharedToken>) -> TokenCache<'a> {
        TokenCache {
            shared,
            token: None,
            version: 0,
        }
    }

    /// Takes over the token in force. Returns whether it could: it couldn't if memory is refused.
    pub(crate) fn renew<R: Wait>(&mut self, rt: &R) -> bool {
        let Some(shared) = self.shared else {
            return true;
        };
        let version = shared.version();
        if version == self.version {
            return true;
        }
        let Ok(token) = shared.token(rt) else {
            return false;
        };
        self.token = Some(token);
        self.version = version;
        true
    }

    /// Returns the extra fields of a callback with that trace that begins now.
    pub(crate) fn extra_fields<'b>(
        &'b self,
        traceparent: Option<&'b Traceparent>,
    ) -> ExtraFields<'b>
        ensures traceparent { (extra_of result).traceparent ≡ option_map (λ own. own.now) traceparent.entry }
        ensures token { (extra_of result).token ≡ option_map (λ token. arc_value token) self.now.token }
    {
        match &self.token {
            Some(token) => ExtraFields {
                token: Some(&**token),
                traceparent,
            },
            None => ExtraFields {
                token: None,
                traceparent,
            },
        }
    }
}
