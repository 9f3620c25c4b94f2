//! Journal registry.

ghost use Rattle.std.specs.Prelude.{◌≡◌};
ghost use Rattle.lra_registry.specs.inner.Following as spec;

use crate::journal::ServedJournal;
use lra_model::{Instance, Memory};
use std::alloc::{AllocError, Global};
use std::sync::atomic::{AtomicBool, AtomicU64, Ordering};
use std::sync::{Arc, Mutex, Wait};

/// Journal set that the rotation has published.
#[derive(Drop)]
pub struct PublishedSet<B> {
    /// Version of the set, which changes whenever a journal joins or leaves.
    pub version: u64,
    /// Served journals, the newest last.
    pub served: Vec<Arc<ServedJournal<B>>>,
    /// Instances of the journals that have left and aren't archived yet.
    pub retiring: Vec<Instance>,
}

/// Registry of the served journals, as the rotation has published them last.
#[derive(Drop)]
pub struct JournalRegistry<B> {
    alloc: Global,
    published: Mutex<PublishedSet<B>>,
    /// Version that was published last.
    version: AtomicU64,
    /// Number of journals that have left and aren't archived yet.
    retiring: AtomicU64,
    /// Mark that a journal is closed to new work.
    has_reserved: AtomicBool,
    /// Mark that new work that names no journal is refused.
    refuses_new: AtomicBool,
    /// Mark that it is refused because the service drains.
    is_draining: bool,
    /// Version that each connection worker follows, or one of the constants below.
    followed: Vec<AtomicU64>,
    /// Number of connection workers that can't follow the last change, and the number of times that one couldn't.
    lagging: AtomicU64,
    falls: AtomicU64,
}

/// Version that no set has: that of a thread that hasn't followed any yet.
pub const NO_VERSION: u64 = u64::MAX - 1;

/// Version of a connection worker that has ended, and holds no session any more. No set has it.
const ENDED: u64 = u64::MAX;

/// Version that a connection worker follows, if it follows one.
#[derive(Clone, Copy, PartialEq, Eq)]
pub enum Following {
    /// It hasn't followed any version yet.
    Nothing,
    /// It has a session of each journal in the set of that version.
    Version(u64),
    /// It has ended, and holds no session any more.
    Ended,
}

/// Returns what a connection worker follows, by the version that is recorded of it.
fn following_at(version: u64) -> Following
    ensures { result ≡ spec.following_at version }
{
    if version == NO_VERSION {
        Following::Nothing
    } else if version == ENDED {
        Following::Ended
    } else {
        Following::Version(version)
    }
}

/// Returns the versions that connection workers follow at first.
fn none_followed(alloc: Global, workers: u32) -> Result<Vec<AtomicU64>, AllocError> {
    let mut followed = Vec::new(alloc);
    for _worker in 0..workers {
        followed.push(AtomicU64::new(NO_VERSION))?;
    }
    Ok(followed)
}

impl<B: Drop> JournalRegistry<B> {
    /// Returns a registry without journals, for so many connection workers. If it drains, new work that names no
    /// journal is refused.
    pub fn new(
        alloc: Global,
        workers: u32,
        is_draining: bool,
    ) -> Result<JournalRegistry<B>, AllocError> {
        Ok(JournalRegistry {
            alloc,
            published: Mutex::new(PublishedSet {
                version: NO_VERSION,
                served: Vec::new(alloc),
                retiring: Vec::new(alloc),
            }),
            version: AtomicU64::new(NO_VERSION),
            retiring: AtomicU64::new(0),
            has_reserved: AtomicBool::new(false),
            refuses_new: AtomicBool::new(is_draining),
            is_draining,
            followed: none_followed(alloc, workers)?,
            lagging: AtomicU64::new(0),
            falls: AtomicU64::new(0),
        })
    }

    /// Returns whether new work that names no journal is refused because the service drains.
    pub fn is_draining(&self) -> bool {
        self.is_draining
    }

    /// Returns the version that was published last.
    pub fn version(&self) -> u64 {
        self.version.load(Ordering::SeqCst)
    }

    /// Replaces the journals by those of another set, or of the same, and records whether new work that names no
    /// journal is refused.
    pub fn publish<R: Wait>(&self, rt: &R, set: PublishedSet<B>, refuses_new: bool) {
        let has_reserved = set.served.iter().any(|journal| journal.is_reserved());
        let (version, retiring) = (set.version, set.retiring.len() as u64);
        let mut published = self.published.lock(rt);
        self.has_reserved.store(has_reserved, Ordering::SeqCst);
        self.refuses_new.store(refuses_new, Ordering::SeqCst);
        self.retiring.store(retiring, Ordering::SeqCst);
        *published = set;
        self.version.store(version, Ordering::SeqCst);
    }

    /// Returns whether a journal may be closed to new work, or new work that names no journal is refused.
    pub fn has_reserved(&self) -> bool {
        self.has_reserved.load(Ordering::SeqCst) || self.refuses_new.load(Ordering::SeqCst)
    }

    /// Returns whether the journal of an instance is closed to new work.
    pub fn is_reserved<R: Wait>(&self, rt: &R, instance: Instance) -> bool {
        let published = self.published.lock(rt);
        published.served.iter().any(|journal| journal.instance.number() == instance.number()
            && journal.is_reserved())
    }

    /// Returns the newest journal's instance, if new work that names no journal is refused.
    pub fn reserved_newest<R: Wait>(&self, rt: &R) -> Option<Instance> {
        if !self.refuses_new.load(Ordering::SeqCst) {
            return None;
        }
        let published = self.published.lock(rt);
        match published.served.last() {
            Some(newest) => Some(newest.instance),
            None => None,
        }
    }

    /// Returns whether the journals of a version may lack that of an instance. They may while it isn't archived yet, or
    /// if there is another version now.
    pub fn lacks<R: Wait>(&self, rt: &R, instance: Instance, version: u64) -> bool {
        let published = self.published.lock(rt);
        published.version != version
            || published
                .retiring
                .iter()
                .any(|other| other.number() == instance.number())
    }

    /// Returns whether the journals of a version may lack any journal.
    pub fn lacks_any(&self, version: u64) -> bool {
        self.retiring.load(Ordering::SeqCst) > 0 || self.version() != version
    }

    /// Records that a connection worker has a session of each journal in the set of a version, and of no other.
    pub fn follow(&self, worker: u32, version: u64) {
        if let Some(followed) = self.followed.get(worker as usize) {
            followed.store(version, Ordering::SeqCst);
        }
    }

    /// Records that a connection worker has ended, and holds no session any more.
    pub fn end(&self, worker: u32) {
        self.follow(worker, ENDED);
    }

    /// Returns how many connection workers there are.
    pub fn workers(&self) -> usize {
        self.followed.len()
    }

    /// Returns what is known of a connection worker.
    pub fn following(&self, worker: usize) -> Following {
        match self.followed.get(worker) {
            Some(followed) => following_at(followed.load(Ordering::SeqCst)),
            None => Following::Nothing,
        }
    }

    /// Records that a connection worker can't follow a change.
    pub fn fall_behind(&self) {
        self.lagging.fetch_add(1, Ordering::SeqCst);
        self.falls.fetch_add(1, Ordering::SeqCst);
    }

    /// Records that a connection worker follows the changes again.
    pub fn catch_up(&self) {
        self.lagging.fetch_sub(1, Ordering::SeqCst);
    }

    /// Returns whether a connection worker can't follow a change now.
    pub fn lags(&self) -> bool {
        self.lagging.load(Ordering::SeqCst) > 0
    }

    /// Returns the number of times that a connection worker couldn't follow a change.
    pub fn falls(&self) -> u64 {
        self.falls.load(Ordering::SeqCst)
    }

    /// Returns the version that was published last, and its journals, the newest last.
    pub fn all<R: Wait>(&self, rt: &R) -> Result<(u64, Vec<Arc<ServedJournal<B>>>), Memory> {
        let mut all = Vec::new(self.alloc);
        let published = self.published.lock(rt);
        for journal in &published.served {
            all.push(Arc::try_clone(journal)?)?;
        }
        Ok((published.version, all))
    }

    /// Wakes the callback worker of each journal that has grown since the last check, or has callbacks under way.
    pub fn wake<R: Wait>(&self, rt: &R) {
        let published = self.published.lock(rt);
        for journal in &published.served {
            if journal.has_news() {
                journal.wake_workers();
            }
        }
    }

    /// Wakes all callback workers.
    pub fn wake_workers<R: Wait>(&self, rt: &R) {
        let published = self.published.lock(rt);
        for journal in &published.served {
            journal.wake_workers();
        }
    }
}
