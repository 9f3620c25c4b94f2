//! The kind of ask that a member wants next.

ghost use Rattle.std.specs.Prelude.{◌≡◌};
ghost use Rattle.lra_model.specs.Tests as tests;

use crate::lists::at;
use crate::rows::Rows;
use lra_model::AskKind;
use lra_states::{ActionState, MemberState, was_accepted};

impl Rows {
    ghost use Rattle.std.specs.Prelude.{◌≡◌};
    ghost use Rattle.lra_model.specs.declared.asks.AskKind.TheVariants as ask;
    ghost use Rattle.lra_model.specs.Words as words;
    ghost use Rattle.lra_model.specs.Tests as tests;
    ghost use Rattle.lra_model.specs.Wants as wants;
    ghost use Rattle.lra_laws.specs.inner.RowFacts.{action_by, is_standing, facts_by, member_by};

    pub(crate) fn is_closing(&self, action: u64) -> bool
        ensures { result ≡ tests.status_is words.is_closing (facts_by self.now.snapshot.state) action }
    {
        match at(&self.actions, action) {
            Some(row) => row.status.is_closing(),
            None => false,
        }
    }

    pub(crate) fn is_cancelling(&self, action: u64) -> bool
        ensures { result ≡ tests.status_is words.is_cancelling (facts_by self.now.snapshot.state) action }
    {
        match at(&self.actions, action) {
            Some(row) => row.status.is_cancelling(),
            None => false,
        }
    }

    fn top_has_ended(&self, row: &ActionState) -> bool
        ensures { result ≡ (action_by self.now.snapshot.state row.now).top_has_ended }
    {
        match at(&self.actions, row.top) {
            Some(top) => top.status.has_ended(),
            None => false,
        }
    }

    fn wants_completion(&self, row: &MemberState) -> Option<AskKind>
        ensures { result ≡ wants.wants_completion (facts_by self.now.snapshot.state)
            (member_by self.now.snapshot.state row.now) }
    {
        let is_time = self.is_closing(row.action)
            && (row.status.is_untouched() || row.status.is_completing());
        if !(is_time && row.addresses.complete) {
            return None;
        }
        if was_accepted(row.completion) && row.addresses.status {
            Some(AskKind::Status)
        } else {
            Some(AskKind::Complete)
        }
    }

    fn wants_compensation(&self, row: &MemberState) -> Option<AskKind>
        ensures { result ≡ wants.wants_compensation (facts_by self.now.snapshot.state)
            (member_by self.now.snapshot.state row.now) }
    {
        let is_time = self.is_cancelling(row.action)
            && (row.status.is_untouched()
                || row.status.is_completed()
                || row.status.is_compensating());
        if !(is_time && row.addresses.compensate) {
            return None;
        }
        if row.status.is_compensating() && was_accepted(row.compensation) && row.addresses.status {
            Some(AskKind::Status)
        } else {
            Some(AskKind::Compensate)
        }
    }

    fn is_time_to_forget(&self, row: &MemberState) -> bool
        ensures { result ≡ tests.is_time_for ask.Forget (facts_by self.now.snapshot.state)
            (member_by self.now.snapshot.state row.now) }
    {
        let Some(action) = at(&self.actions, row.action) else {
            return false;
        };
        self.top_has_ended(&action)
            && (row.status.has_failed() || (row.status.is_completed() && action.parent.is_some()))
            && !row.has_forgotten
    }

    fn is_time_to_tell(&self, row: &MemberState) -> bool
        ensures { result ≡ tests.is_time_for ask.After (facts_by self.now.snapshot.state)
            (member_by self.now.snapshot.state row.now) }
    {
        let Some(action) = at(&self.actions, row.action) else {
            return false;
        };
        self.top_has_ended(&action) && !row.was_told
    }

    fn is_asked(&self, row: &MemberState) -> bool
        ensures { result ≡ is_standing self.now.snapshot.state.void row.now }
    {
        match row.asked.get() {
            Some(asked) => self.void < asked.number,
            None => false,
        }
    }

    /// Returns what the member of a row wants to be asked next.
    pub(crate) fn want(&self, row: &MemberState) -> Option<AskKind>
        ensures { result ≡ wants.wanted (facts_by self.now.snapshot.state) (member_by self.now.snapshot.state row.now) }
    {
        if self.is_asked(row) || row.status.has_gone() {
            return None;
        }
        if let Some(kind) = self.wants_completion(row) {
            return Some(kind);
        }
        if let Some(kind) = self.wants_compensation(row) {
            return Some(kind);
        }
        if self.is_time_to_forget(row) && row.addresses.forget {
            return Some(AskKind::Forget);
        }
        if self.is_time_to_tell(row) && row.addresses.after {
            return Some(AskKind::After);
        }
        None
    }
}
