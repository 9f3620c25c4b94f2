//! The source of the rules in force while a service runs.

ghost use Rattle.std.specs.Prelude.{◌≡◌, IfOk, is_some, option_map};
ghost use Rattle.std.specs.Arc.{arc_value};

use crate::file::KeyFiles;
use crate::key_store::KeyStore;
use crate::keys::Keys;
use crate::latest::{Admission, KeySource};
use crate::names::Name;
use crate::told::ReloadListener;
use lra_model::Memory;
use std::sync::{Arc, Wait};

/// Keys of a key file that are in force at one connection worker.
#[derive(Drop)]
struct Held<'a> {
    key_store: &'a KeyStore,
    keys: Arc<Keys>,
    version: u64,
}

impl<'a> Held<'a> {
    fn new<R: Wait>(rt: &R, key_store: &'a KeyStore) -> Result<Held<'a>, Memory> {
        let version = key_store.version();
        let keys = key_store.keys(rt)?;
        Ok(Held {
            key_store,
            keys,
            version,
        })
    }
}

impl Held<'_> {
    /// Takes over the keys of the key file if they have changed. If memory is refused, the next call tries again.
    fn take<R: Wait>(&mut self, rt: &R) {
        let version = self.key_store.version();
        if version == self.version {
            return;
        }
        if let Ok(keys) = self.key_store.keys(rt) {
            self.keys = keys;
            self.version = version;
        }
    }
}

/// Source of the rules in force, for one handler: the keys of a key file as they were at most a second before, if there
/// is one, and names that stay.
#[derive(Drop)]
pub struct KeyCache<'a, R, H> {
    rt: &'a R,
    notifier: &'a H,
    held: Option<Held<'a>>,
    names: &'a [Name],
}

impl<'a, R: Wait, H> KeyCache<'a, R, H> {
    /// Makes a source with the keys of a key file, if there is one, and with names. The notifier reports the outcome
    /// whenever the keys are read again.
    pub fn new(
        rt: &'a R,
        notifier: &'a H,
        key_store: Option<&'a KeyStore>,
        names: &'a [Name],
    ) -> Result<KeyCache<'a, R, H>, Memory>
        ensures keys { IfOk result (λ key_cache. is_some key_cache.held ≡ is_some key_store.entry) }
        ensures names { IfOk result (λ key_cache. key_cache.names.now ≡ names.now) }
    {
        let held = match key_store {
            Some(key_store) => Some(Held::new(rt, key_store)?),
            None => None,
        };
        Ok(KeyCache {
            rt,
            notifier,
            held,
            names,
        })
    }
}

impl<R: KeyFiles + Wait, H: ReloadListener> KeySource for KeyCache<'_, R, H> {
    ghost use Rattle.std.specs.Prelude.{option_map};
    ghost use Rattle.std.specs.Arc.{arc_value};
    ghost use Rattle.lra_admission.specs.Keys.{digests_of};
    ghost use Rattle.lra_admission.specs.Serving.{RenewsKeys};

    ghost in_force = { λ p. record {
      keys = option_map (λ held. digests_of (arc_value held.keys)) p.held;
      names =
          p.names.now;
    } };

    ghost looks = { RenewsKeys };

    fn look(&mut self, moment: u64) {
        if let Some(held) = &mut self.held {
            held.key_store.look(self.rt, moment, self.notifier);
            held.take(self.rt);
        }
    }

    fn admission(&self) -> Admission<'_> {
        let keys = match &self.held {
            Some(held) => Some(&*held.keys),
            None => None,
        };
        Admission {
            keys,
            names: self.names,
        }
    }
}
