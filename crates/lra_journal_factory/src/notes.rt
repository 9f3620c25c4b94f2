//! Notes of the members that operators have given up.

use lra_journal_folder::{GivenUp, given_up_line};
use std::alloc::Global;
use std::fs::File;
use std::io::Write;
use std::sync::{Mutex, Wait};

/// The file of a folder with the members that operators have given up.
#[derive(Drop)]
pub struct GivenUpNotes {
    file: Mutex<Option<File>>,
}

/// Appends a line to a file and syncs it. The line feed before it ends what an interrupted write left.
fn add_line(file: &mut File, line: &str) -> bool {
    let is_written = file.write_all(b"\n").is_ok() && file.write_all(line.as_bytes()).is_ok();
    is_written && file.sync_data().is_ok()
}

impl GivenUpNotes {
    /// Returns the notes in a file, if there is one.
    pub fn new(file: Option<File>) -> GivenUpNotes {
        GivenUpNotes {
            file: Mutex::new(file),
        }
    }

    /// Adds a member. Returns whether that is durable.
    pub fn add<R: Wait>(&self, rt: &R, alloc: Global, given: GivenUp) -> bool {
        let Ok(line) = given_up_line(alloc, given) else {
            return false;
        };
        match self.file.lock(rt).as_mut() {
            Some(file) => add_line(file, line.as_str()),
            None => false,
        }
    }
}
