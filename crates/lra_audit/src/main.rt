//! `lra_audit`: audits a journal of long running actions or a folder of them, lists its actions and members, upgrades
//! it, and salvages what is sound of it, without a coordinator.
#![tactic(auto)]

use lra_audits::{tell_usage, words_of};
use lra_folders::answer_question;
use lra_reports::read_question;
use std::process::ExitCode;

fn main(rt: HostRuntime) -> ExitCode {
    let status = match words_of(&rt) {
        Ok(words) => match read_question(&words) {
            Ok(question) => answer_question(&rt, question),
            Err(_) => tell_usage(&rt),
        },
        Err(status) => status,
    };
    ExitCode::from(status)
}
