//! `lra_verdict`: audits a journal of long running actions, from standard input or a file, and no more.
#![tactic(auto)]

use lra_audits::{audit_run, open_file, read_audit, settle, tell_usage, words_of};
use std::io;
use std::process::ExitCode;

fn main(rt: HostRuntime) -> ExitCode {
    let status = match words_of(&rt) {
        Ok(words) => match read_audit(&words) {
            Ok(None) => {
                let outcome = audit_run(rt.alloc(), rt.reader(), &mut io::writer(&rt));
                settle(&rt, outcome, "-")
            }
            Ok(Some(file)) => match open_file(&rt, file) {
                Ok(reader) => {
                    let outcome = audit_run(rt.alloc(), reader, &mut io::writer(&rt));
                    settle(&rt, outcome, file)
                }
                Err(fault) => settle(&rt, Err(fault), file),
            },
            Err(_) => tell_usage(&rt),
        },
        Err(status) => status,
    };
    ExitCode::from(status)
}
