//! A ticket lock round a value with a history of entries. Callers hold it one after the other, in the order of the
//! tickets that they drew. Each is handed a value whose history begins with all that it had seen before and has nothing
//! more under its number, and gives one back whose history goes on with a block of its own entries.
//!
//! A caller has a `Pass`, which `take` or `try_take` turns into a `Held` and the value, and `give` back into a pass.
#![tactic(auto)]

mod end;
pub mod example;
mod give;
mod kept;
mod lock;
mod passes;
mod plays;
mod rule;
mod slot;
mod take;
mod view;

pub use kept::Kept;
pub use lock::{Held, Parts, Pass, TicketLock, TryFault, Worn};
pub use view::{Place, View};
