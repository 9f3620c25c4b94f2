//! Notifiers of denied requests, and of keys that were read again.

use crate::fault::KeysFault;
use lra_front::ApiError;

/// Notifier of the requests that are denied here.
pub trait RefusalListener {
    /// Reports that a request was denied.
    fn denied(&self, api_error: ApiError);
}

/// Notifier of the outcome of reading a changed file of keys.
pub trait ReloadListener {
    /// Reports that keys were read and are in force now, or why the keys before them stay in force.
    fn renewed(&self, outcome: Result<(), KeysFault>);
}

/// Notifier that reports nothing.
#[derive(Clone, Copy)]
pub struct NullListener;

impl RefusalListener for NullListener {
    fn denied(&self, _api_error: ApiError) {}
}

impl ReloadListener for NullListener {
    fn renewed(&self, _outcome: Result<(), KeysFault>) {}
}
