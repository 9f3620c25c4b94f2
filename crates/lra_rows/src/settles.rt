//! The deeds that settle next.

use crate::lists::at;
use crate::rows::Rows;
use lra_model::{Cause, Deed};
use lra_states::{ActionState, MemberState, is_settled, right_end};

impl Rows {
    ghost use Rattle.std.specs.Prelude.{◌≡◌};
    ghost use Rattle.lra_model.specs.Tests as tests;
    ghost use Rattle.lra_model.specs.History.{History};
    ghost use Rattle.lra_model.specs.Settling.{may_be_skipped, by_parent};
    ghost use Rattle.lra_laws.specs.Settles.{may_skip_by, turn_by, end_by};
    ghost use Rattle.lra_laws.specs.Snapshots.{StandsFor};
    ghost use Rattle.lra_rows.specs.Found.{found_end};
    ghost use Rattle.lra_laws.specs.inner.RowFacts.{action_by, facts_by, member_by};

    fn may_skip(&self, row: &MemberState) -> bool
        ensures { result ≡ tests.may_skip (facts_by self.now.snapshot.state)
            (member_by self.now.snapshot.state row.now) }
    {
        self.is_closing(row.action)
            && row.status.is_untouched()
            && !row.addresses.complete
            && row.addresses.compensate
    }

    fn held_skip(&self, member: u64) -> bool
        ensures { result ≡ may_skip_by self.now.snapshot.state member }
    {
        match at(&self.members, member) {
            Some(row) => self.may_skip(&row),
            None => false,
        }
    }

    /// Returns whether a member may be completed without being asked.
    pub fn may_be_skipped(&self, member: u64) -> bool
        ensures state { result ≡ may_skip_by self.now.snapshot.state member }
        ensures history { (J : History) → StandsFor self.now.snapshot J → result ≡ may_be_skipped J member }
    {
        self.held_skip(member)
    }

    fn may_close_with_parent(&self, row: &ActionState) -> bool
        ensures { result ≡ tests.may_close_with_parent (facts_by self.now.snapshot.state)
            (action_by self.now.snapshot.state row.now) }
    {
        match row.parent {
            Some(parent) => row.status.is_active() && self.is_closing(parent),
            None => false,
        }
    }

    fn may_cancel_with_parent(&self, row: &ActionState) -> bool
        ensures { result ≡ tests.may_cancel_with_parent (facts_by self.now.snapshot.state)
            (action_by self.now.snapshot.state row.now) }
    {
        match row.parent {
            Some(parent) => row.status.is_cancellable() && self.is_cancelling(parent),
            None => false,
        }
    }

    fn held_turn(&self, action: u64) -> Option<Deed>
        ensures { result ≡ turn_by self.now.snapshot.state action }
    {
        let row = at(&self.actions, action)?;
        if self.may_close_with_parent(&row) {
            return Some(Deed::Close {
                action,
                cause: Cause::Parent,
            });
        }
        if self.may_cancel_with_parent(&row) {
            return Some(Deed::Cancel {
                action,
                cause: Cause::Parent,
            });
        }
        None
    }

    /// Returns what an action's parent does to it, where it does anything: it closes it, or cancels it.
    pub fn by_parent(&self, action: u64) -> Option<Deed>
        ensures state { result ≡ turn_by self.now.snapshot.state action }
        ensures history { (J : History) → StandsFor self.now.snapshot J → result ≡ by_parent J action }
    {
        self.held_turn(action)
    }

    fn held_end(&self, action: u64) -> Option<Deed>
        ensures { result ≡ end_by self.now.snapshot.state action }
    {
        let row = at(&self.actions, action)?;
        if is_settled(&row) {
            Some(Deed::End {
                action,
                status: right_end(&row),
            })
        } else {
            None
        }
    }

    /// Returns the end of an action, where it may end.
    pub fn end(&self, action: u64) -> Option<Deed>
        ensures state { result ≡ end_by self.now.snapshot.state action }
        ensures history { (J : History) → StandsFor self.now.snapshot J → result ≡ found_end J action }
    {
        self.held_end(action)
    }
}
