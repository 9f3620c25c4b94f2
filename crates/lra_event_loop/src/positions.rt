//! Positions that the waiting replies of a client rest on.

ghost use Rattle.std.specs.Prelude.{◌≡◌, ◌≤◌, ◌⊎◌, None, ℕ, IfOk, IsFalse, IsTrue, OnErr};
ghost use Rattle.lra_event_loop.specs.Waiting.{IsDurable, Reaches, WaitFor};
ghost use Rattle.lra_event_loop.specs.inner.Noting.{Adds, Notes, Settles};

use lra_durable::{SyncFault, SyncGroup};
use lra_model::Instance;
use lra_steps::Answered;
use std::sync::Wait;

/// Length of the journal of an instance.
#[derive(Clone, Copy, PartialEq, Eq)]
pub struct Position {
    pub instance: Instance,
    pub length: u64,
}

/// Positions that have to be durable before a client's replies leave: in two journals at most, and the greatest of
/// each.
#[derive(Clone, Copy, PartialEq, Eq)]
pub struct Positions {
    first: Option<Position>,
    other: Option<Position>,
}

impl Position {
    /// Returns the position in the same journal with the greater of both lengths.
    fn up_to(self, length: u64) -> Position
        ensures instance { result.instance ≡ self.instance }
        ensures least { (self.length ≤ result.length) × (length ≤ result.length) }
    {
        Position {
            instance: self.instance,
            length: self.length.max(length),
        }
    }
}

impl Positions {
    /// Returns no positions: no reply waits for a journal.
    pub fn none() -> Positions
        ensures { (result.first ≡ None) × (result.other ≡ None) }
    {
        Positions {
            first: None,
            other: None,
        }
    }

    /// Returns whether no position in a further journal may be noted.
    pub(crate) fn are_full(&self) -> bool
        ensures { IsFalse result → self.now.other ≡ None }
    {
        self.other.is_some()
    }

    /// Returns these positions with another one.
    #[tactic(auto, using(crate::proofs::Noted::adds_first, crate::proofs::Noted::adds_same, crate::proofs::Noted::adds_other))]
    fn with(self, position: Position) -> Positions
        requires { self.other ≡ None }
        ensures { Adds self result position }
    {
        let Some(first) = self.first else {
            return Positions {
                first: Some(position),
                other: None,
            };
        };
        if first.instance.number() == position.instance.number() {
            return Positions {
                first: Some(first.up_to(position.length)),
                other: None,
            };
        }
        Positions {
            first: Some(first),
            other: Some(position),
        }
    }

    /// Returns these positions with that of an answer, if it has one.
    #[tactic(auto, using(crate::proofs::Noted::notes_some, crate::proofs::Noted::notes_none))]
    pub(crate) fn with_answer(self, answered: Answered) -> Positions
        requires { self.other ≡ None }
        ensures { Notes self result answered }
    {
        match answered.position {
            Some(length) => self.with(Position {
                instance: answered.instance,
                length,
            }),
            None => self,
        }
    }

    /// Forgets the positions that are durable. Returns whether all are. It waits for no sync.
    pub(crate) fn settle<R: Wait, G: SyncGroup>(
        &mut self,
        rt: &R,
        group: &G,
    ) -> Result<bool, SyncFault>
        ensures settles { Settles G.keeps self.old self.new }
        ensures all { IfOk result (λ all. IsTrue all → (self.new.first ≡ None) × (self.new.other ≡ None)) }
        ensures failed { OnErr result (IsTrue G.failed) }
    {
        let first = forget_durable(&mut self.first, rt, group)?;
        let other = forget_durable(&mut self.other, rt, group)?;
        Ok(first && other)
    }

    /// Syncs the journals up to these positions.
    pub(crate) fn sync<R: Wait, G: SyncGroup>(&self, rt: &R, group: &G) -> Result<(), SyncFault>
        ensures { OnErr result (IsTrue G.failed) }
    {
        sync_one(self.first, rt, group)?;
        sync_one(self.other, rt, group)
    }
}

/// Forgets a position that is durable. Returns whether there is none then.
fn forget_durable<R: Wait, G: SyncGroup>(
    place: &mut Option<Position>,
    rt: &R,
    group: &G,
) -> Result<bool, SyncFault>
    ensures settles { (instance n : ℕ) → Reaches place.old instance n
        → IsDurable G.keeps instance n ⊎ Reaches place.new instance n }
    ensures none { IfOk result (λ none. IsTrue none → place.new ≡ None) }
    ensures failed { OnErr result (IsTrue G.failed) }
{
    let Some(position) = *place else {
        return Ok(true);
    };
    match group.kept(rt, position.instance, position.length)? {
        Some(_) => {
            *place = None;
            Ok(true)
        }
        None => Ok(false),
    }
}

/// Syncs a journal up to a position, if there is one.
fn sync_one<R: Wait, G: SyncGroup>(
    place: Option<Position>,
    rt: &R,
    group: &G,
) -> Result<(), SyncFault>
    ensures { OnErr result (IsTrue G.failed) }
{
    if let Some(position) = place {
        let _ = group.keep(rt, position.instance, position.length)?;
    }
    Ok(())
}
