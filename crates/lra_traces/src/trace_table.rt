//! The traces, by action.

ghost use Rattle.std.specs.Prelude.{◌≤◌};
ghost use Rattle.std.specs.HashMap.{hash_map_len};

use crate::traceparent::Traceparent;
use std::alloc::Global;
use std::collections::HashMap;

/// Trace of an action, and how many were noted before it.
#[derive(Debug, Drop)]
pub struct Noted {
    pub traceparent: Traceparent,
    pub number: u64,
}

/// Traces by the numbers of actions' UUIDs: at most 65,536, in two generations. Once the young one is full, it becomes
/// the old one, and what was that leaves.
#[derive(Drop)]
pub struct TraceTable {
    pub(crate) alloc: Global,
    pub(crate) young: HashMap<u128, Noted>,
    pub(crate) aged: HashMap<u128, Noted>,
    /// Number of traces that were noted.
    pub(crate) count: u64,
    ghost few: { hash_map_len young ≤ 32_768 },
    ghost few_aged: { hash_map_len aged ≤ 32_768 },
}
