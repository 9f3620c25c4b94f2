//! The words after `lra serve`, and the file of settings that they may name. They give what is to be served, and the
//! settings.
#![tactic(auto)]

mod config;
mod fault;
mod line;
mod number;
mod options;
mod said;

pub use fault::{OptionsFault, wrong};
pub use options::{Options, read_options};
pub use said::{RawOptions, Word};
