//! The runs that read an input and report on it, over any reader and writer: an audit of a journal, a listing of its
//! actions and members, its upgrade, and what is sound of it; and what the words of a command line ask of these.
#![tactic(auto)]

mod dispatch;
mod errors;
mod input;
mod output;
mod program;
mod salvage;
mod show;
mod sources;
mod taking;
mod texts;
mod upgrade;
mod words;

pub use dispatch::run;
pub use errors::{hint_line, input_name};
pub use input::read_input;
pub use lra_audits::{
    LONGEST, RunFault, Usage, audit_run, error_line, next_piece, put, report_fault, settle, tell,
    tell_usage, words_of,
};
pub use output::put_line;
pub use program::{System, answer_question};
pub use salvage::{salvage_file, salvage_run};
pub use show::show_run;
pub use sources::Sources;
pub use texts::{HELP, VERSION};
pub use upgrade::{upgrade_file, upgrade_run, upgrade_twice};
pub use words::{Invocation, Question, read_question};
