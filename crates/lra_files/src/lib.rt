//! Small files beside a journal: a reader of whole files, a check of their modes, and the reasons why the system gives
//! no file.
#![tactic(auto)]

mod faults;
mod small;

pub use faults::{FileFault, file_fault};
pub use small::{SmallFault, is_shared, read_whole};
