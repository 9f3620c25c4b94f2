//! The keys of a file that may change while a service runs.

ghost use Rattle.std.specs.Prelude.{◌≡◌, ◌+◌, ◌-◌, ◌^◌, IfOk, min, string_bytes};

use crate::fault::KeysFault;
use crate::file::{FileStamp, KeyFiles};
use crate::keys::Keys;
use crate::told::ReloadListener;
use lra_model::Memory;
use std::alloc::Global;
use std::sync::atomic::{AtomicU64, Ordering};
use std::sync::{Arc, Mutex, Wait};

/// Least number of milliseconds from one check of the file to the next.
const PAUSE: u64 = 1_000;

/// Returns the moment from which on the file is checked again, after a check at a moment.
fn next_look(moment: u64) -> u64
    ensures { result ≡ min (moment + 1_000) (2 ^ 64 - 1) }
{
    moment.saturating_add(PAUSE)
}

/// Keys that are in force.
#[derive(Drop)]
struct Kept {
    keys: Arc<Keys>,
    /// Fingerprint of the file whose keys, or whose fault, are known.
    seen: Option<FileStamp>,
}

/// Keys of a file, which all connection workers share: they are read again once the file changes.
#[derive(Drop)]
pub struct KeyStore {
    alloc: Global,
    path: String,
    kept: Mutex<Kept>,
    /// Number that changes whenever other keys come into force.
    version: AtomicU64,
    /// Moment from which on the file is checked again.
    next: AtomicU64,
}

/// Makes keys shared.
fn shared(alloc: Global, keys: Keys) -> Result<Arc<Keys>, KeysFault> {
    match Arc::new(alloc, keys) {
        Ok(keys) => Ok(keys),
        Err(refused) => {
            drop(refused);
            Err(KeysFault::Memory)
        }
    }
}

/// Reads the keys of the file of a name, if its fingerprint shows that there is such a file.
fn read_at<R: KeyFiles>(
    rt: &R,
    alloc: Global,
    path: &str,
    seen: &Option<FileStamp>,
) -> Result<Arc<Keys>, KeysFault> {
    if seen.is_none() {
        return Err(KeysFault::File);
    }
    shared(alloc, rt.read_keys(alloc, path)?)
}

impl Kept {
    /// Records what was read of a file that has changed. If memory was refused, the file is read once more at the next
    /// check.
    fn take(
        &mut self,
        seen: Option<FileStamp>,
        read: Result<Arc<Keys>, KeysFault>,
    ) -> Result<(), KeysFault> {
        match read {
            Ok(keys) => {
                self.seen = seen;
                self.keys = keys;
                Ok(())
            }
            Err(KeysFault::Memory) => Err(KeysFault::Memory),
            Err(fault) => {
                self.seen = seen;
                Err(fault)
            }
        }
    }
}

impl KeyStore {
    /// Reads the keys of the file of a name, which nobody but its owner may read or write.
    pub fn open<R: KeyFiles>(rt: &R, alloc: Global, path: &str) -> Result<KeyStore, KeysFault>
        ensures { IfOk result (λ key_store. string_bytes key_store.path ≡ path.now) }
    {
        let path = String::from_str(alloc, path)?;
        let seen = rt.stamp(path.as_str());
        let keys = read_at(rt, alloc, path.as_str(), &seen)?;
        Ok(KeyStore {
            alloc,
            path,
            kept: Mutex::new(Kept { keys, seen }),
            version: AtomicU64::new(1),
            next: AtomicU64::new(0),
        })
    }

    /// Returns the name of the file.
    pub fn path(&self) -> &str
        ensures { result.now ≡ string_bytes self.now.path }
    {
        self.path.as_str()
    }

    /// Returns a number that changes whenever other keys come into force.
    pub(crate) fn version(&self) -> u64 {
        self.version.load(Ordering::SeqCst)
    }

    /// Returns the keys that are in force.
    pub(crate) fn keys<R: Wait>(&self, rt: &R) -> Result<Arc<Keys>, Memory> {
        Arc::try_clone(&self.kept.lock(rt).keys)
    }

    /// Reads the file again if it has changed since it was read last, and returns the outcome of that. Returns nothing
    /// if it hasn't changed, or another thread checks it.
    fn renew<R: KeyFiles>(&self, rt: &R, moment: u64) -> Option<Result<(), KeysFault>> {
        let mut kept = self.kept.try_lock()?;
        self.next.store(next_look(moment), Ordering::SeqCst);
        let path = self.path.as_str();
        let seen = rt.stamp(path);
        if seen == kept.seen {
            return None;
        }
        Some(kept.take(seen, read_at(rt, self.alloc, path, &seen)))
    }

    /// Checks the file at a moment, in milliseconds, unless it was checked less than a second before, and reads it
    /// again if it has changed. If the keys are wrong then, or others may read the file, the present keys stay in
    /// force. While one thread checks the file, the others go on.
    pub(crate) fn look<R: KeyFiles, H: ReloadListener>(&self, rt: &R, moment: u64, notifier: &H) {
        if moment < self.next.load(Ordering::SeqCst) {
            return;
        }
        let Some(outcome) = self.renew(rt, moment) else {
            return;
        };
        if outcome.is_ok() {
            self.version.fetch_add(1, Ordering::SeqCst);
        }
        notifier.renewed(outcome);
    }
}
