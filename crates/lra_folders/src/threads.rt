//! Journals that are audited or listed side by side.

ghost use Rattle.std.specs.Prelude.{
  ◌≡◌,
  ◌<◌,
  ◌≤◌,
  List,
  ℕ,
  String,
  Some,
  IfOk,
  get_or,
  length,
  slice_index_or,
  string_bytes,
  vec_len,
};
ghost use Rattle.std.specs.Global.{Global};
ghost use Rattle.lra_folders.specs.Folders.{IsOpened};
ghost use Rattle.lra_folders.specs.inner.Told.{IsToldOf, AllTold};

use crate::deed::{Deed, Told, told_of};
use crate::journals::path_in;
use lra_auditor::Memory;
use lra_reports::Sources;
use std::alloc::{AllocError, Global};
use std::io::Read;
use std::marker::{Send, Sync};
use std::thread;
use std::thread::{Threads, available_parallelism};

/// The number of threads where the system doesn't say how many it runs side by side.
const THREADS: usize = 4;

/// Returns the number of journals that are audited or listed side by side.
pub fn width<R: Threads>(rt: &R) -> usize
    ensures { 0 < result }
{
    match available_parallelism(rt) {
        Ok(count) => count.get(),
        Err(_) => THREADS,
    }
}

/// Returns a journal's name, and its file, if it can be opened.
fn open_next<F: Read + Drop, S: Sources<File = F>>(
    alloc: Global,
    sources: &S,
    folder: &str,
    name: &str,
) -> Result<(String, Option<F>), Memory>
    ensures { IfOk result (λ job. IsOpened (S.named sources.now) F.remaining folder.now name.now job) }
{
    let path = path_in(alloc, folder, name)?;
    let own = String::from_str(alloc, name)?;
    Ok((own, sources.open(path.as_str()).ok()))
}

/// Opens the journals of these names in a folder, and returns the names and the files, for as many threads. The first
/// alone may have no file. The list ends before a later one that can't be opened: too many files may be open.
pub fn open_each<F: Read + Drop, S: Sources<File = F>>(
    alloc: Global,
    sources: &S,
    folder: &str,
    names: &[String],
) -> Result<Vec<(String, Option<F>)>, Memory>
    ensures some { IfOk result (λ jobs. 0 < length names.now → 0 < vec_len jobs) }
    ensures most { IfOk result (λ jobs. vec_len jobs ≤ length names.now) }
    ensures each { IfOk result (λ jobs. (i : ℕ) (w : String Global) (d : _) → i < vec_len jobs
        → IsOpened (S.named sources.now) F.remaining folder.now (string_bytes (get_or names.now i w))
        (slice_index_or jobs.items i d)) }
{
    let mut jobs = Vec::new(alloc);
    for name in names {
        let job = open_next(alloc, sources, folder, name.as_str())?;
        if job.1.is_none() && !jobs.is_empty() {
            return Ok(jobs);
        }
        jobs.push(job)?;
    }
    Ok(jobs)
}

/// Reads each journal, in a thread of its own where one can be started, and returns what is printed of each.
fn tell_jobs<R: Threads + Sync, F: Read + Send + Drop>(
    rt: &R,
    alloc: Global,
    deed: Deed,
    jobs: Vec<(String, Option<F>)>,
) -> Result<Vec<Told>, AllocError>
    ensures len { IfOk result (λ all. vec_len all ≡ vec_len jobs) }
    ensures each { IfOk result (λ all. (i : ℕ) (e : _) (d : _) → i < vec_len jobs
        → IsToldOf deed F.remaining (slice_index_or jobs.items i e) (slice_index_or all.items i d)) }
{
    thread::map_vec(
        rt,
        jobs,
        &|job: (String, Option<F>)| -> Told
            ensures { IsToldOf deed F.remaining job result }
        { told_of(alloc, deed, job.0, job.1) },
    )
}

/// Returns what is printed of each of these names in a folder, or of as many as can be open at once.
pub(crate) fn tell_names<R: Threads + Sync, F: Read + Send + Drop, S: Sources<File = F>>(
    rt: &R,
    alloc: Global,
    deed: Deed,
    sources: &S,
    folder: &str,
    names: &[String],
) -> Result<Vec<Told>, Memory>
    ensures some { IfOk result (λ all. 0 < length names.now → 0 < vec_len all) }
    ensures most { IfOk result (λ all. vec_len all ≤ length names.now) }
    ensures each { (bytes : List ℕ → List ℕ) → ((path : List ℕ) → S.named sources.now path ≡ Some (bytes path))
        → IfOk result (λ all. AllTold deed bytes folder.now names.now (vec_len all) all.items) }
{
    let jobs = open_each(alloc, sources, folder, names)?;
    tell_jobs(rt, alloc, deed, jobs)
}
