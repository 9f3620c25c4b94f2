//! One served journal of a folder.

ghost use Rattle.std.specs.Prelude.{◌≡◌, IfOk};

use lra_callbacks::{WorkerSlot, wake_workers};
use lra_commands::{Query, QueryResult, Refusal};
use lra_model::{Instance, Memory};
use lra_office::OfficeRefusal;
use lra_outcomes::Outcomes;
use lra_sessions::JournalSession;
use lra_storage::JournalFile;
use mio::Waker;
use std::alloc::Global;
use std::net::Net;
use std::sync::atomic::{AtomicBool, AtomicU64, Ordering};
use std::sync::{Arc, Mutex, Wait};

/// Sessions of a journal's coordinator that no thread has.
#[derive(Drop)]
struct Sessions<B> {
    /// Session from which others are forked. It is `None` once the coordinator has ended.
    first: Option<B>,
    /// Sessions whose clerks were enrolled ahead.
    ahead: Vec<B>,
}

/// One served journal of a folder, with the session `B` of its coordinator.
#[derive(Drop)]
pub struct ServedJournal<B> {
    pub instance: Instance,
    pub file: Arc<JournalFile>,
    /// Number of entries that the journal had when it was opened.
    entries: u64,
    /// Sessions from which each thread gets its own.
    sessions: Mutex<Sessions<B>>,
    /// Worker slot of the journal's callback worker.
    pub worker_slot: WorkerSlot,
    /// Wakers of the journal's callback worker.
    pub wakers: Arc<Vec<Waker>>,
    /// Outcomes of the last callbacks of the journal's members.
    pub outcomes: Outcomes,
    /// Number of bytes that the journal had at the last check for news.
    heard: AtomicU64,
    /// Mark that the journal is closed to new work.
    pub(crate) is_reserved: AtomicBool,
    /// Mark that the journal is archived.
    is_over: AtomicBool,
}

/// Returns the wakers of one worker, unless memory is refused.
fn wakers_of(alloc: Global, waker: Waker) -> Option<Arc<Vec<Waker>>> {
    let mut wakers = Vec::new(alloc);
    wakers.push(waker).ok()?;
    Arc::new(alloc, wakers).ok()
}

impl<B: JournalSession + Drop> ServedJournal<B> {
    /// Returns a journal with a clerk. It was opened with so many entries.
    pub fn new<R: Net>(
        rt: &R,
        alloc: Global,
        file: Arc<JournalFile>,
        entries: u64,
        session: B,
    ) -> Result<ServedJournal<B>, Memory>
        ensures file { IfOk result (λ journal. journal.file ≡ file) }
        ensures entries { IfOk result (λ journal. journal.entries ≡ entries) }
        ensures instance { IfOk result (λ journal. journal.instance ≡ (B.sight session).setting.instance) }
    {
        let instance = session.instance();
        let Some((worker_slot, waker)) = WorkerSlot::new(rt) else {
            drop(file);
            drop(session);
            return Err(Memory);
        };
        let Some(wakers) = wakers_of(alloc, waker) else {
            drop(file);
            drop(session);
            drop(worker_slot);
            return Err(Memory);
        };
        Ok(ServedJournal {
            instance,
            file,
            entries,
            sessions: Mutex::new(Sessions {
                first: Some(session),
                ahead: Vec::new(alloc),
            }),
            worker_slot,
            wakers,
            outcomes: Outcomes::new(alloc),
            heard: AtomicU64::new(0),
            is_reserved: AtomicBool::new(false),
            is_over: AtomicBool::new(false),
        })
    }

    /// Enrols so many clerks of the journal's coordinator ahead. If all are enrolled, as many threads get a session
    /// later, whether or not anything can be written by then. Otherwise returns why one isn't.
    pub fn enrol_ahead<R: Wait>(
        &self,
        rt: &R,
        count: u32,
        moment: u64,
    ) -> Result<(), OfficeRefusal> {
        let mut sessions = self.sessions.lock(rt);
        if sessions.ahead.reserve(count as usize).is_err() {
            return Err(OfficeRefusal::Refused(Refusal::Memory));
        }
        for _clerk in 0..count {
            let Some(first) = &mut sessions.first else {
                return Err(OfficeRefusal::Refused(Refusal::Stopped));
            };
            match first.fork(moment) {
                Ok(session) => {
                    if sessions.ahead.push(session).is_err() {
                        return Err(OfficeRefusal::Refused(Refusal::Memory));
                    }
                }
                Err(refusal) => return Err(refusal),
            }
        }
        Ok(())
    }

    /// Returns a session with a clerk of its own: one that was enrolled ahead, if any is left, or else one that is
    /// enrolled now, if it can be.
    pub fn fork<R: Wait>(&self, rt: &R, moment: u64) -> Option<B> {
        let mut sessions = self.sessions.lock(rt);
        match sessions.ahead.pop() {
            Some(session) => Some(session),
            None => match sessions.first.as_mut()?.fork(moment) {
                Ok(session) => Some(session),
                Err(_) => None,
            },
        }
    }

    /// Takes back a session that its thread can't use yet, so that the thread's next try enrols no further clerk. Where
    /// memory is refused, ends the session.
    pub fn take_back<R: Wait>(&self, rt: &R, session: B) {
        let _ = self.sessions.lock(rt).ahead.push(session);
    }

    /// Returns the coordinator's reply to a query of its history, if it has one.
    pub fn query<R: Wait>(&self, rt: &R, query: Query) -> Option<QueryResult> {
        self.sessions.lock(rt).first.as_mut()?.query(query)
    }

    /// Ends the journal's coordinator, if no thread has a clerk of it any more. Returns whether it has ended. No order
    /// reaches it then. The sessions that were enrolled ahead are dropped.
    pub fn close<R: Wait>(&self, rt: &R) -> bool {
        let mut sessions = self.sessions.lock(rt);
        sessions.ahead.clear();
        let Some(session) = sessions.first.take() else {
            return true;
        };
        match session.close() {
            Ok(()) => true,
            Err(session) => {
                sessions.first = Some(session);
                false
            }
        }
    }
}

impl<B: Drop> ServedJournal<B> {
    /// Returns how many bytes the journal has.
    pub fn bytes(&self) -> u64 {
        self.file.bytes()
    }

    /// Returns how many entries the journal has.
    pub fn count_entries(&self) -> u64 {
        self.entries.saturating_add(self.file.entries())
    }

    /// Wakes the journal's callback worker.
    pub fn wake_workers(&self) {
        wake_workers(self.wakers.as_slice());
    }

    /// Returns whether the journal has grown since the last call, or has callbacks under way.
    pub fn has_news(&self) -> bool {
        let bytes = self.bytes();
        self.heard.swap(bytes, Ordering::SeqCst) != bytes || self.under_way() > 0
    }

    /// Ends the journal's callback worker, since the journal is archived.
    pub fn finish(&self) {
        self.is_over.store(true, Ordering::SeqCst);
        self.wake_workers();
    }

    pub fn is_over(&self) -> bool {
        self.is_over.load(Ordering::SeqCst)
    }

    /// Returns how many callbacks are under way.
    pub fn under_way(&self) -> u64 {
        self.worker_slot.under_way.load(Ordering::SeqCst)
    }
}
