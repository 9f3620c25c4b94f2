//! The traces, which several threads note and look up.

ghost use Rattle.std.specs.Prelude.{◌≡◌};
ghost use Rattle.lra_traces.specs.inner.Actions as spec;

use crate::trace_table::TraceTable;
use crate::traceparent::Traceparent;
use std::alloc::Global;
use std::sync::{Mutex, Wait};
use uuid::Uuid;

/// Number of characters of an identifier.
const ID_LENGTH: usize = 36;

/// Returns the number of the UUID that a text is.
fn number_in(text: &[u8]) -> Option<u128>
    ensures { result ≡ spec.number_in text.now }
{
    match Uuid::try_parse_ascii(text) {
        Ok(uuid) => Some(uuid.as_u128()),
        Err(_) => None,
    }
}

/// Returns the number of the UUID in the last 36 bytes of a URI, or in all its bytes if it has fewer.
fn action_in(uri: &[u8]) -> Option<u128>
    ensures { result ≡ spec.action_in uri.now }
{
    let before = uri.len().saturating_sub(ID_LENGTH);
    number_in(&uri[before..])
}

/// Traces of the requests that end actions, by action. Threads share them. At most 65,536 are kept, and none is on
/// disk.
#[derive(Drop)]
pub struct Traces {
    alloc: Global,
    trace_table: Mutex<TraceTable>,
}

impl Traces {
    /// Makes traces of which there are none.
    pub fn new(alloc: Global) -> Traces {
        Traces {
            alloc,
            trace_table: Mutex::new(TraceTable::new(alloc)),
        }
    }

    /// Reads the value of a request that is to end an action. Returns nothing if it isn't valid, the action has no
    /// identifier, or memory is refused.
    fn read(&self, id: &str, value: &[u8]) -> Option<(u128, Traceparent)> {
        let action = action_in(id.as_bytes())?;
        let traceparent = Traceparent::read(self.alloc, value).ok()??;
        Some((action, traceparent))
    }

    /// Notes the value of a request that is to end an action, unless the action has a trace.
    pub fn propose<R: Wait>(&self, rt: &R, id: &str, value: &[u8]) {
        if let Some((action, traceparent)) = self.read(id, value) {
            let mut trace_table = self.trace_table.lock(rt);
            if !trace_table.has(action) {
                trace_table.note(action, traceparent);
            }
        }
    }

    /// Notes the value of a request that has ended an action, in place of the one before.
    pub fn note<R: Wait>(&self, rt: &R, id: &str, value: &[u8]) {
        if let Some((action, traceparent)) = self.read(id, value) {
            self.trace_table.lock(rt).note(action, traceparent);
        }
    }

    /// Copies the trace that was noted last, of those of an action and of its parent. Returns nothing if memory is
    /// refused.
    pub fn find<R: Wait>(
        &self,
        rt: &R,
        action_uri: &str,
        parent_uri: Option<&str>,
    ) -> Option<Traceparent> {
        let action = action_in(action_uri.as_bytes())?;
        let parent = match parent_uri {
            Some(uri) => action_in(uri.as_bytes()),
            None => None,
        };
        self.trace_table
            .lock(rt)
            .find(self.alloc, action, parent)
            .unwrap_or(None)
    }
}
