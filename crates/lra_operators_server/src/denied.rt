//! Counts of requests that were denied before they were handled.

use lra_front::ApiError;
use lra_model::Memory;
use lra_overview::{Kind, describe, put, put_number};
use std::sync::atomic::{AtomicU64, Ordering};

/// Name of the measure.
const NAME: &str = "lra_requests_denied_total";

/// Numbers of requests that were denied, by the reason.
#[derive(Drop)]
pub(crate) struct Denied {
    key: AtomicU64,
    host: AtomicU64,
    origin: AtomicU64,
}

/// Adds the line of one reason to a page.
fn put_why(page: &mut Vec<u8>, why: &'static str, count: &AtomicU64) -> Result<(), Memory> {
    put(page, NAME)?;
    put(page, "{why=\"")?;
    put(page, why)?;
    put(page, "\"} ")?;
    put_number(page, count.load(Ordering::SeqCst))?;
    put(page, "\n")
}

impl Denied {
    /// Makes counts of 0.
    pub(crate) fn new() -> Denied {
        Denied {
            key: AtomicU64::new(0),
            host: AtomicU64::new(0),
            origin: AtomicU64::new(0),
        }
    }

    /// Counts a denied request. Counts only these three reasons; the others are counted with the answers.
    pub(crate) fn add(&self, api_error: ApiError) {
        let count = match api_error {
            ApiError::WrongKey => &self.key,
            ApiError::WrongHost => &self.host,
            ApiError::WrongOrigin => &self.origin,
            _ => return,
        };
        count.fetch_add(1, Ordering::SeqCst);
    }

    /// Adds the counts to a page, as a measure.
    pub(crate) fn put(&self, page: &mut Vec<u8>) -> Result<(), Memory> {
        describe(
            page,
            NAME,
            Kind::Counter,
            "Requests of services that were denied before they were looked at, by why.",
        )?;
        put_why(page, ApiError::WrongKey.name(), &self.key)?;
        put_why(page, ApiError::WrongHost.name(), &self.host)?;
        put_why(page, ApiError::WrongOrigin.name(), &self.origin)
    }
}
