//! The tests of the rules, over the rows.

ghost use Rattle.std.specs.Prelude.{◌≡◌, ◌==◌, ◌+◌, ◌^◌, ◌<◌, ◌&&◌, ◌||◌, is_some, is_none, IfOk, not, nat_le, true};
ghost use Rattle.std.specs.Option.{option_map_or, option_copied};
ghost use Rattle.lra_model.specs.declared.entry.Deed.{Deed};
ghost use Rattle.lra_model.specs.Addresses as texts;
ghost use Rattle.lra_model.specs.Words as words;
ghost use Rattle.lra_model.specs.Tests as tests;
ghost use Rattle.lra_model.specs.Rules as rules;
ghost use Rattle.lra_entries.specs.Borrowed.{deed_seen};
ghost use Rattle.lra_addresses.specs.Addresses.{is_address};
ghost use Rattle.lra_laws.specs.Rows.{State};
ghost use Rattle.lra_laws.specs.inner.RowFacts.{action_by, member_by, facts_by, is_standing};
ghost use Rattle.lra_laws.specs.Rows.{row_at};

use crate::plain::is_plain_address;
use crate::rows::RowsRef;
use lra_addresses::is_address_text;
use lra_entries::{DeedRef, UrisRef};
use lra_model::{ActionStatus, AskKind, Cause, Memory, Outcome, Version};
use lra_states::{ActionState, Limit, MemberState, Presence, is_settled, right_end, was_accepted};
use std::alloc::Global;

/// Returns whether a number is the next one of its kind, after so many.
pub(crate) fn is_next(number: u64, count: u64) -> bool
    ensures { result ≡ (number == count + 1) }
{
    match number.checked_sub(1) {
        Some(before) => before == count,
        None => false,
    }
}

/// Returns whether a version of the journal has the deed.
pub(crate) fn has_deed(version: Version, deed: &DeedRef<'_>) -> bool
    ensures { result ≡ rules.has_deed version (deed_seen deed.now) }
{
    match deed {
        DeedRef::Renew { .. } => matches!(version, Version::Two),
        _ => true,
    }
}

/// Returns whether a limit that begins at a moment ends at one that a journal can have.
pub(crate) fn is_moment(moment: u64, limit: u64) -> bool
    ensures { result ≡ tests.is_moment (moment + limit) }
{
    moment.checked_add(limit).is_some()
}

fn limit_has_passed(moment: u64, limit: Limit) -> bool
    ensures { result ≡ (not (limit.length_of == 0) && nat_le (limit.since + limit.length_of) moment) }
{
    match limit.since.checked_add(limit.length) {
        Some(end) => limit.length != 0 && end <= moment,
        None => false,
    }
}

fn has_address(kind: AskKind, addresses: &Presence) -> bool
    ensures { result ≡ tests.has_address kind (addresses.now) }
{
    match kind {
        AskKind::Complete => addresses.complete,
        AskKind::Compensate => addresses.compensate,
        AskKind::Status => addresses.status,
        AskKind::Forget => addresses.forget,
        AskKind::After => addresses.after,
    }
}

fn is_absent_or_address(alloc: Global, text: Option<&str>) -> Result<bool, Memory>
    ensures { IfOk result (λ own. own ≡ option_map_or is_address (option_copied text.entry) true) }
{
    match text {
        Some(text) if is_plain_address(text.as_bytes()) => Ok(true),
        Some(text) => is_address_text(alloc, text.as_bytes()),
        None => Ok(true),
    }
}

fn has_compensate_or_after_alone(uris: &UrisRef<'_>) -> bool
    ensures { result ≡ (is_some uris.now.compensate || (is_some uris.now.after && is_none uris.now.complete
        && is_none uris.now.status && is_none uris.now.forget)) }
{
    uris.compensate.is_some()
        || (uris.after.is_some()
            && uris.complete.is_none()
            && uris.status.is_none()
            && uris.forget.is_none())
}

/// Returns whether a member may have these addresses.
pub(crate) fn addresses_fit(alloc: Global, uris: &UrisRef<'_>) -> Result<bool, Memory>
    ensures { IfOk result (λ fit. fit ≡ tests.addresses_fit is_address uris.now) }
{
    Ok(
        has_compensate_or_after_alone(uris)
            && is_absent_or_address(alloc, uris.compensate)?
            && is_absent_or_address(alloc, uris.complete)?
            && is_absent_or_address(alloc, uris.status)?
            && is_absent_or_address(alloc, uris.forget)?
            && is_absent_or_address(alloc, uris.after)?,
    )
}

impl RowsRef<'_> {
    pub(crate) fn is_clerk(&self, number: u64) -> bool
        ensures { result ≡ (facts_by self.now).is_clerk number }
    {
        0 < number && number <= self.clerks
    }

    pub(crate) fn clerk_fits(&self, by: u32, deed: &DeedRef<'_>) -> bool
        ensures { result ≡ rules.clerk_fits (facts_by self.now) by (deed_seen deed.now) }
    {
        match deed {
            DeedRef::Enrol => is_next(u64::from(by), self.clerks),
            _ => self.is_clerk(u64::from(by)),
        }
    }

    pub(crate) fn is_action(&self, number: u64) -> bool
        ensures { result ≡ rules.is_action (facts_by self.now) number }
    {
        self.action(number).is_some()
    }

    pub(crate) fn is_active_action(&self, number: u64) -> bool
        ensures { result ≡ tests.status_is words.is_active (facts_by self.now) number }
    {
        match self.action(number) {
            Some(row) => row.status.is_active(),
            None => false,
        }
    }

    fn is_closing_action(&self, number: u64) -> bool
        ensures { result ≡ tests.status_is words.is_closing (facts_by self.now) number }
    {
        match self.action(number) {
            Some(row) => row.status.is_closing(),
            None => false,
        }
    }

    fn is_cancelling_action(&self, number: u64) -> bool
        ensures { result ≡ tests.status_is words.is_cancelling (facts_by self.now) number }
    {
        match self.action(number) {
            Some(row) => row.status.is_cancelling(),
            None => false,
        }
    }

    pub(crate) fn is_member(&self, number: u64) -> bool
        ensures { result ≡ rules.is_member (facts_by self.now) number }
    {
        self.member(number).is_some()
    }

    pub(crate) fn is_here(&self, number: u64) -> bool
        ensures { result ≡ rules.is_here (facts_by self.now) number }
    {
        match self.member(number) {
            Some(row) => !row.status.has_gone(),
            None => false,
        }
    }

    /// Returns whether the member's action is Active.
    pub(crate) fn is_in_active_action(&self, number: u64) -> bool
        ensures { result ≡ tests.at_member (λ x. tests.status_is words.is_active (facts_by self.now) x.action)
            (facts_by self.now) number }
    {
        match self.member(number) {
            Some(row) => self.is_active_action(row.action),
            None => false,
        }
    }

    fn parent_is_closing(&self, row: &ActionState) -> bool
        ensures { result ≡ tests.parent_is words.is_closing (facts_by self.now) (action_by self.now row.now) }
    {
        match row.parent {
            Some(parent) => self.is_closing_action(parent),
            None => false,
        }
    }

    fn parent_is_cancelling(&self, row: &ActionState) -> bool
        ensures { result ≡ tests.parent_is words.is_cancelling (facts_by self.now) (action_by self.now row.now) }
    {
        match row.parent {
            Some(parent) => self.is_cancelling_action(parent),
            None => false,
        }
    }

    fn parent_is_active(&self, row: &ActionState) -> bool
        ensures { result ≡ tests.parent_is words.is_active (facts_by self.now) (action_by self.now row.now) }
    {
        match row.parent {
            Some(parent) => self.is_active_action(parent),
            None => false,
        }
    }

    /// Returns whether the action may be closed by that cause.
    pub(crate) fn may_close(&self, number: u64, cause: Cause) -> bool
        ensures { result ≡ tests.at_action (tests.may_close cause (facts_by self.now)) (facts_by self.now) number }
    {
        let Some(row) = self.action(number) else {
            return false;
        };
        match cause {
            Cause::Client => row.status.is_active(),
            Cause::Parent => row.status.is_active() && self.parent_is_closing(&row),
            Cause::Limit => false,
        }
    }

    fn may_take_back(&self, version: Version, row: &ActionState) -> bool
        ensures { result ≡ tests.may_take_back version (facts_by self.now) (action_by self.now row.now) }
    {
        match version {
            Version::One => false,
            Version::Two => row.status.is_closed() && self.parent_is_active(row),
        }
    }

    /// Returns whether the action may be cancelled by that cause at that moment.
    pub(crate) fn may_cancel(
        &self,
        version: Version,
        moment: u64,
        number: u64,
        cause: Cause,
    ) -> bool
        ensures { result ≡ tests.at_action (tests.may_cancel version moment cause (facts_by self.now))
            (facts_by self.now) number }
    {
        let Some(row) = self.action(number) else {
            return false;
        };
        match cause {
            Cause::Client => row.status.is_active() || self.may_take_back(version, &row),
            Cause::Parent => row.status.is_cancellable() && self.parent_is_cancelling(&row),
            Cause::Limit => row.status.is_active() && limit_has_passed(moment, row.limit),
        }
    }

    /// Returns whether the member may be completed without being asked.
    pub(crate) fn may_skip(&self, number: u64) -> bool
        ensures { result ≡ tests.at_member (tests.may_skip (facts_by self.now)) (facts_by self.now) number }
    {
        match self.member(number) {
            Some(row) => {
                self.is_closing_action(row.action)
                    && row.status.is_untouched()
                    && !row.addresses.complete
                    && row.addresses.compensate
            }
            None => false,
        }
    }

    fn top_has_ended(&self, row: &ActionState) -> bool
        ensures { result ≡ (action_by self.now row.now).top_has_ended }
    {
        match self.action(row.top) {
            Some(top) => top.status.has_ended(),
            None => false,
        }
    }

    fn is_time_for_forget(&self, row: &MemberState) -> bool
        ensures { result ≡ tests.is_time_for AskKind.Forget (facts_by self.now) (member_by self.now row.now) }
    {
        let Some(action) = self.action(row.action) else {
            return false;
        };
        self.top_has_ended(&action)
            && (row.status.has_failed() || (row.status.is_completed() && action.parent.is_some()))
            && !row.has_forgotten
    }

    fn is_time_for_after(&self, row: &MemberState) -> bool
        ensures { result ≡ tests.is_time_for AskKind.After (facts_by self.now) (member_by self.now row.now) }
    {
        let Some(action) = self.action(row.action) else {
            return false;
        };
        self.top_has_ended(&action) && !row.was_told
    }

    fn is_time_for(&self, kind: AskKind, row: &MemberState) -> bool
        ensures { result ≡ tests.is_time_for kind (facts_by self.now) (member_by self.now row.now) }
    {
        match kind {
            AskKind::Complete => {
                self.is_closing_action(row.action)
                    && (row.status.is_untouched() || row.status.is_completing())
            }
            AskKind::Compensate => {
                self.is_cancelling_action(row.action)
                    && (row.status.is_untouched()
                        || row.status.is_completed()
                        || row.status.is_compensating())
            }
            AskKind::Status => {
                (row.status.is_completing() && was_accepted(row.completion))
                    || (row.status.is_compensating() && was_accepted(row.compensation))
            }
            AskKind::Forget => self.is_time_for_forget(row),
            AskKind::After => self.is_time_for_after(row),
        }
    }

    fn is_asked(&self, row: &MemberState) -> bool
        ensures { result ≡ is_standing self.now.void row.now }
    {
        match row.asked.get() {
            Some(asked) => self.void < asked.number,
            None => false,
        }
    }

    /// Returns whether an ask of that kind may be made of the member now.
    pub(crate) fn may_ask(&self, number: u64, kind: AskKind) -> bool
        ensures { result ≡ tests.at_member (tests.may_ask kind (facts_by self.now)) (facts_by self.now) number }
    {
        match self.member(number) {
            Some(row) => {
                !self.is_asked(&row)
                    && has_address(kind, &row.addresses)
                    && self.is_time_for(kind, &row)
            }
            None => false,
        }
    }

    /// Returns whether the member may report that outcome.
    pub(crate) fn may_report(&self, number: u64, outcome: Outcome) -> bool
        ensures { result ≡ tests.at_member (tests.may_report outcome) (facts_by self.now) number }
    {
        match self.member(number) {
            Some(row) => {
                (row.status.is_completing() || row.status.is_compensating())
                    && outcome.is_decisive()
            }
            None => false,
        }
    }

    /// Returns whether the action may end: it is Closing or Cancelling, and nothing below it is left to wait for.
    pub(crate) fn is_settled(&self, number: u64) -> bool
        ensures { result ≡ tests.at_action (λ x. x.settled) (facts_by self.now) number }
    {
        match self.action(number) {
            Some(row) => is_settled(&row),
            None => false,
        }
    }

    /// Returns whether that is the status with which the action ends now.
    pub(crate) fn ends_as(&self, number: u64, status: ActionStatus) -> bool
        ensures { result ≡ tests.at_action (λ x. words.same_status status x.right_end) (facts_by self.now) number }
    {
        match self.action(number) {
            Some(row) => status.is_same(right_end(&row)),
            None => false,
        }
    }
}
