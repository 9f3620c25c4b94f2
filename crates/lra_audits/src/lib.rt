//! The audit of a journal over any reader and writer: how an input is read, what is printed of its verdict, and the
//! errors of a run.
#![tactic(auto)]

mod audit;
mod errors;
mod fault;
mod input;
mod output;
mod program;
mod taking;

pub use audit::{audit_run, put_report, report_fault};
pub use errors::error_line;
pub use fault::RunFault;
pub use input::{LONGEST, audit_input, feed_input, give_pieces, next_piece, room};
pub use lra_verdict_lines::{line_of_fault, status};
pub use lra_words::{Usage, read_audit, tell_usage, words_of};
pub use output::put;
pub use program::{open_file, settle, tell};
pub use taking::Taker;
