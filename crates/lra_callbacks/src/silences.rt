//! Members that were silent, and since when.

ghost use Rattle.std.specs.Prelude.{◌≡◌, ◌≢◌, ℕ, None, nat_eq};
ghost use Rattle.std.specs.HashMap.{get};
ghost use Rattle.lra_model.specs.Wants as wants;
ghost use Rattle.lra_callbacks.specs.inner.SilentMembers.{again, is_again, Notes};

use lra_core::Errand;
use lra_model::{AskKind, Direction, Outcome};
use std::alloc::Global;
use std::collections::HashMap;

/// Silence of a member that was asked in a stage, and the moment until which its callback waited for it, in
/// milliseconds.
#[derive(Clone, Copy, PartialEq, Eq)]
pub(crate) struct SilentMember {
    stage: AskKind,
    moment: u64,
}

/// Returns the stage that an errand's ask belongs to.
fn stage_of(errand: &Errand) -> AskKind
    ensures { result ≡ wants.stage_of errand.now.kind errand.now.direction }
{
    match errand.direction() {
        Direction::Completion => AskKind::Complete,
        Direction::Compensation => AskKind::Compensate,
        Direction::Neither => errand.kind(),
    }
}

/// Returns whether an ask of that stage repeats one to which the member was silent.
fn is_again(silence: &SilentMember, stage: AskKind) -> bool
    ensures { result ≡ is_again silence.now stage }
{
    silence.stage == stage
}

/// Members that were silent when they were asked last, by number.
#[derive(Drop)]
pub(crate) struct SilentMembers {
    by_member: HashMap<u64, SilentMember>,
}

impl SilentMembers {
    /// Makes an empty set: no member was silent.
    pub(crate) fn new(alloc: Global) -> SilentMembers
        ensures { (member : ℕ) → get nat_eq result.by_member member ≡ None }
    {
        SilentMembers {
            by_member: HashMap::new(alloc),
        }
    }

    /// Returns the moment from which an errand's member may be asked, with so many milliseconds between two asks in one
    /// stage. Returns `None` if the member wasn't silent in that stage: it may be asked at any time.
    pub(crate) fn until(&self, errand: &Errand, pause: u64) -> Option<u64>
        ensures { result ≡ again (get nat_eq self.now.by_member errand.now.member)
            (wants.stage_of errand.now.kind errand.now.direction) pause }
    {
        match self.by_member.get(&errand.member()) {
            Some(silence) if is_again(silence, stage_of(errand)) => {
                Some(silence.moment.saturating_add(pause))
            }
            _ => None,
        }
    }

    /// Notes the outcome of an errand at a moment. If memory is refused, the member counts as one that wasn't silent.
    pub(crate) fn note(&mut self, errand: &Errand, outcome: Outcome, moment: u64)
        ensures own { Notes errand.now outcome moment (get nat_eq self.new.by_member errand.now.member) }
        ensures others { (other : ℕ) → other ≢ errand.now.member → get nat_eq self.new.by_member other
            ≡ get nat_eq self.old.by_member other }
    {
        let member = errand.member();
        if !matches!(outcome, Outcome::Silent) {
            self.by_member.remove(&member);
            return;
        }
        let stage = stage_of(errand);
        if self
            .by_member
            .insert(member, SilentMember { stage, moment })
            .is_err()
        {
            self.by_member.remove(&member);
        }
    }
}
