//! The allocator and the routes of a thread.

use lra_front::Routes;
use std::alloc::Global;

/// Allocator and routes that a thread answers with.
#[derive(Drop)]
pub(crate) struct LoopContext {
    pub(crate) alloc: Global,
    pub(crate) routes: Routes,
}
