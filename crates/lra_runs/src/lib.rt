//! Scripts of commands, played on a coordinator over any reader and writer, and the parser of the command line of
//! `lra`.
#![tactic(auto)]

mod answers;
mod play;
mod player;
mod requests;
mod task;

pub use play::{play_file, play_run};
pub use requests::{Request, RequestLine, read_request_line};
pub use task::{Task, read_task};
