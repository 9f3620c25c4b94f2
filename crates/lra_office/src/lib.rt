//! One coordinator for many threads, its journal behind one lock.
#![tactic(auto)]

mod clerk;
mod commands;
mod counter;
mod desk;
mod enrolling;
mod fault;
mod laws;
mod locked_service;
mod office;
mod opening;
mod passing;
mod queries;
mod reopening;
mod shutting;
mod trying;
mod window;

pub use clerk::Clerk;
pub use desk::Desk;
pub use fault::{OfficeRefusal, ReopenFault, StartFault, TryRefusal};
pub use laws::{calls_are_stopped, journals_are_sound};
pub use locked_service::LockedService;
pub use office::{Office, OfficeOf};
pub use window::{WhichLock, Window};
