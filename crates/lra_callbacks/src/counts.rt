//! Numbers of callbacks that go out at once, in all and to each host and port.

ghost use Rattle.std.specs.Prelude.{◌≡◌, ◌+◌, ◌-◌, ◌≤◌, ◌<◌, ◌↔◌, ℕ, List, IsTrue, IsFalse, if◌then◌else◌};
ghost use Rattle.lra_callbacks.specs.inner.Quota.{AllStay, HasRoom, IsWithin, OthersStay, at};

use std::alloc::Global;
use std::collections::BTreeMap;

/// Numbers of callbacks that go out at once, which never pass their bounds.
#[derive(Drop)]
pub(crate) struct Counts {
    alloc: Global,
    /// Number of callbacks that go out.
    taken: u32,
    /// Largest number of callbacks that may go out.
    most: u32,
    /// Largest number of them to one host and port.
    each: u32,
    /// Numbers of them to each host and port.
    by_host: BTreeMap<String, u32>,
    ghost in_all: { taken ≤ most },
    ghost at_each: { IsWithin by_host each },
}

/// Returns the number of callbacks to a host and port.
fn count_at(by_host: &BTreeMap<String, u32>, socket: &str) -> u32
    ensures { result ≡ at by_host.now socket.now }
{
    match by_host.get(socket) {
        Some(count) => *count,
        None => 0,
    }
}

/// Stores the number of callbacks to a host and port. Returns whether it did: if memory is refused, all numbers stay as
/// they are.
#[tactic(auto, using(std::proofs::lemmas::Map::Text::text_keys))]
fn put(by_host: &mut BTreeMap<String, u32>, alloc: Global, socket: &str, count: u32) -> bool
    ensures noted { IsTrue result → at by_host.new socket.now ≡ count }
    ensures others { IsTrue result → OthersStay by_host.old by_host.new socket.now }
    ensures refused { IsFalse result → AllStay by_host.old by_host.new }
{
    let Ok(key) = String::from_str(alloc, socket) else {
        return false;
    };
    by_host.insert(key, count).is_ok()
}

/// Forgets a host and port.
#[tactic(auto, using(std::proofs::lemmas::Map::Text::text_keys))]
fn remove(by_host: &mut BTreeMap<String, u32>, socket: &str)
    ensures none { at by_host.new socket.now ≡ 0 }
    ensures others { OthersStay by_host.old by_host.new socket.now }
{
    by_host.remove(socket);
}

/// Counts one callback less to a host and port that have any.
#[tactic(auto, using(std::proofs::lemmas::Map::Text::text_keys))]
fn subtract(by_host: &mut BTreeMap<String, u32>, socket: &str)
    ensures one_less { at by_host.new socket.now ≡ at by_host.old socket.now - 1 }
    ensures others { OthersStay by_host.old by_host.new socket.now }
{
    let count = count_at(by_host, socket);
    if count <= 1 {
        remove(by_host, socket);
        return;
    }
    if let Some(place) = by_host.get_mut(socket) {
        *place = count - 1;
    }
}

impl Counts {
    /// Makes counts of no callbacks, with these bounds.
    pub(crate) fn new(alloc: Global, most: u32, each: u32) -> Counts
        ensures none { (result.taken ≡ 0) × ((socket : List ℕ) → at result.by_host socket ≡ 0) }
        ensures bounds { (result.most ≡ most) × (result.each ≡ each) }
    {
        Counts {
            alloc,
            taken: 0,
            most,
            each,
            by_host: BTreeMap::new(alloc),
        }
    }

    /// Returns whether as many go out as may.
    pub(crate) fn are_met(&self) -> bool
        ensures { IsFalse result ↔ (self.now.taken < self.now.most) }
    {
        self.taken >= self.most
    }

    /// Returns whether one more callback may go to a host and port.
    pub(crate) fn have_room(&self, socket: &str) -> bool
        ensures { IsTrue result ↔ HasRoom self.now.taken self.now.most self.now.by_host self.now.each socket.now }
    {
        self.taken < self.most && count_at(&self.by_host, socket) < self.each
    }

    /// Counts one more callback to a host and port if it may go. Returns whether it did: it doesn't if memory is
    /// refused.
    pub(crate) fn enter(&mut self, socket: &str) -> bool
        ensures room { IsTrue result
            → HasRoom self.old.taken self.old.most self.old.by_host self.old.each socket.now }
        ensures taken { self.new.taken ≡ (if result then self.old.taken + 1 else self.old.taken) }
        ensures host { IsTrue result → at self.new.by_host socket.now ≡ at self.old.by_host socket.now + 1 }
        ensures others { IsTrue result → OthersStay self.old.by_host self.new.by_host socket.now }
        ensures refused { IsFalse result → AllStay self.old.by_host self.new.by_host }
        ensures bounds { (self.new.most ≡ self.old.most) × (self.new.each ≡ self.old.each) }
    {
        if !self.have_room(socket) {
            return false;
        }
        let count = count_at(&self.by_host, socket);
        let is_noted = put(&mut self.by_host, self.alloc, socket, count + 1);
        if is_noted {
            self.taken += 1;
        }
        is_noted
    }

    /// Counts one callback less to a host and port.
    pub(crate) fn leave(&mut self, socket: &str)
        ensures taken { self.new.taken ≡ self.old.taken - 1 }
        ensures host { at self.new.by_host socket.now ≡ at self.old.by_host socket.now - 1 }
        ensures others { OthersStay self.old.by_host self.new.by_host socket.now }
        ensures bounds { (self.new.most ≡ self.old.most) × (self.new.each ≡ self.old.each) }
    {
        subtract(&mut self.by_host, socket);
        self.taken = self.taken.saturating_sub(1);
    }
}
