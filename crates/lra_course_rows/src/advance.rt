//! The state after one more entry.

ghost use Rattle.std.specs.Prelude.{
  ◌≡◌,
  true,
  ◌+◌,
  ◌<◌,
  ◌^◌,
  ◌++◌,
  ◌∷◌,
  [],
  ℕ,
  length,
  Some,
  None,
  OnOk,
  OnErr,
  nat_eq,
  ◌==◌,
  cond,
};
ghost use Rattle.std.specs.Option.{option_map_or};
ghost use Rattle.std.specs.HashMap.{get};
ghost use Rattle.lra_model.specs.declared.entry.Deed.TheVariants as deeds;
ghost use Rattle.lra_model.specs.Addresses.{presence_of};
ghost use Rattle.lra_entries.specs.Borrowed.{entry_seen, deed_seen};
ghost use Rattle.lra_laws.specs.Rows as rows;
ghost use Rattle.lra_laws.specs.Rows.{State, change_row, change_member, change_status, after_deed};
ghost use Rattle.lra_course_rows.specs.Start.{after_entry};
ghost use Rattle.lra_laws.specs.Rows.{row_at};
ghost use Rattle.lra_states.specs.inner.Changes.{AllCanCount, with_row, TakesNextNumber};

use crate::state::{Rows, action_at, set_action, set_member};
use lra_entries::{DeedRef, EntryRef, UrisRef};
use lra_model::{ActionStatus, AskKind, MemberStatus, Memory, Outcome};
use lra_states::{
    ActionState, MemberState, Presence, new_action, renewed, turned, with_ask, with_child,
    with_member, with_new_child, with_new_member, with_reply, with_report, with_skip, with_status,
};
use std::collections::HashMap;

/// Returns whether a member counts in its action as before.
fn counts_same(before: &MemberState, now: &MemberState) -> bool
    ensures { result ≡ true → (before.now.status ≡ now.now.status) × (before.now.addresses.compensate
        ≡ now.now.addresses.compensate) }
{
    before.status == now.status && before.addresses.compensate == now.addresses.compensate
}

/// Updates the counts of a member's action after the member's row changed.
fn count_member(actions: &mut Vec<ActionState>, before: &MemberState, now: &MemberState)
    requires { AllCanCount actions.old.items }
    ensures { actions.new.items ≡ change_row (rows.with_member before.now now.now) before.now.action actions.old.items }
{
    if counts_same(before, now) {
        return;
    }
    if let Some(row) = action_at(actions, before.action) {
        set_action(actions, before.action, with_member(before, now, &row));
    }
}

/// Counts a new member in an action, if the action is there.
fn count_new_member(actions: &mut Vec<ActionState>, number: u64, now: &MemberState)
    requires { AllCanCount actions.old.items }
    ensures { actions.new.items ≡ change_row (rows.with_new_member now.now) number actions.old.items }
{
    if let Some(row) = action_at(actions, number) {
        set_action(actions, number, with_new_member(now, &row));
    }
}

/// Updates the counts of an action after one of its nested actions changed its status.
fn count_child(actions: &mut Vec<ActionState>, number: u64, before: ActionStatus, now: ActionStatus)
    requires { AllCanCount actions.old.items }
    ensures { actions.new.items ≡ change_row (rows.with_child before now) number actions.old.items }
{
    if let Some(row) = action_at(actions, number) {
        set_action(actions, number, with_child(before, now, &row));
    }
}

/// Adds the row of a new action, and counts it in its parent if it has one.
fn push_action(
    actions: &mut Vec<ActionState>,
    parent: Option<u64>,
    row: ActionState,
) -> Result<(), Memory>
    requires { AllCanCount actions.old.items }
    ensures ok { OnOk result
        (actions.new.items ≡ option_map_or (λ b. change_row rows.with_new_child b actions.old.items) parent
        actions.old.items ++ row ∷ []) }
    ensures err { OnErr result (actions.new.items ≡ actions.old.items) }
{
    let Some(number) = parent else {
        actions.push(row)?;
        return Ok(());
    };
    let Some(holder) = action_at(actions, number) else {
        actions.push(row)?;
        return Ok(());
    };
    actions.push(row)?;
    set_action(actions, number, with_new_child(&holder));
    Ok(())
}

/// Returns which of the five addresses are there.
fn presence_of(uris: &UrisRef<'_>) -> Presence
    ensures { result ≡ presence_of uris.now }
{
    Presence {
        compensate: uris.compensate.is_some(),
        complete: uris.complete.is_some(),
        status: uris.status.is_some(),
        forget: uris.forget.is_some(),
        after: uris.after.is_some(),
    }
}

/// Returns the row of a member that has just joined.
fn new_member(action: u64, uris: &UrisRef<'_>) -> MemberState
    ensures { result ≡ rows.new_member action uris.now }
{
    lra_states::new_member(action, presence_of(uris))
}

/// Puts a member's new ask into the index, in place of its old one.
fn index_ask(
    holders: &mut HashMap<u64, u64>,
    number: u64,
    member: u64,
    before: &MemberState,
) -> Result<(), Memory>
    ensures ok { OnOk result ((q : ℕ) → get nat_eq holders.new q ≡ cond (rows.stands_as q before.now) None
        (cond (number == q) (Some member) (get nat_eq holders.old q))) }
    ensures err { OnErr result ((q : ℕ) → get nat_eq holders.new q ≡ get nat_eq holders.old q) }
{
    holders.insert(number, member)?;
    if let Some(asked) = before.asked.get() {
        let _ = holders.remove(&asked.number);
    }
    Ok(())
}

impl Rows {
    /// Replaces a member's row, and updates the counts of its action.
    fn replace_member(&mut self, number: u64, before: &MemberState, now: MemberState)
        requires counts { AllCanCount self.old.actions }
        requires there { row_at self.old.members number ≡ Some before.now }
        requires asked { now.asked ≡ before.now.asked }
        ensures { self.new ≡ record self.old {
          members = with_row number now self.old.members;
          actions = change_row (rows.with_member before.now now) before.now.action self.old.actions;
        } }
    {
        count_member(&mut self.actions, before, &now);
        set_member(&mut self.members, number, now);
    }

    fn leave(&mut self, number: u64)
        requires { AllCanCount self.old.actions }
        ensures { self.new ≡ change_member (λ r. record r { status = MemberStatus.Left }) number self.old }
    {
        if let Some(before) = self.member(number) {
            self.replace_member(number, &before, with_status(MemberStatus::Left, &before));
        }
    }

    fn skip(&mut self, number: u64)
        requires { AllCanCount self.old.actions }
        ensures { self.new ≡ change_member rows.with_skip number self.old }
    {
        if let Some(before) = self.member(number) {
            self.replace_member(number, &before, with_skip(&before));
        }
    }

    fn report(&mut self, number: u64, outcome: Outcome)
        requires { AllCanCount self.old.actions }
        ensures { self.new ≡ change_member (rows.with_report outcome) number self.old }
    {
        if let Some(before) = self.member(number) {
            self.replace_member(number, &before, with_report(outcome, &before));
        }
    }

    fn ask(&mut self, number: u64, member: u64, kind: AskKind) -> Result<(), Memory>
        requires counts { AllCanCount self.old.actions }
        requires next { number ≡ self.old.asks + 1 }
        ensures ok { OnOk result (self.new ≡ change_member (rows.with_ask number kind) member
            (record self.old { asks = self.old.asks + 1 })) }
        ensures err { OnErr result (self.new.actions ≡ self.old.actions) }
    {
        let Some(before) = self.member(member) else {
            self.asks = number;
            return Ok(());
        };
        let now = with_ask(number, kind, &before);
        index_ask(&mut self.holders, number, member, &before)?;
        count_member(&mut self.actions, &before, &now);
        set_member(&mut self.members, member, now);
        self.asks = number;
        Ok(())
    }

    fn reply(&mut self, number: u64, outcome: Outcome)
        requires { AllCanCount self.old.actions }
        ensures { self.new ≡ change_member (rows.with_reply outcome) (rows.place_of number self.old.members) self.old }
    {
        let Some(member) = self.holders.get(&number).copied() else {
            return;
        };
        let Some(before) = self.member(member) else {
            return;
        };
        let now = with_reply(outcome, &before);
        let _ = self.holders.remove(&number);
        count_member(&mut self.actions, &before, &now);
        set_member(&mut self.members, member, now);
    }

    fn start(
        &mut self,
        moment: u64,
        action: u64,
        parent: Option<u64>,
        limit: u64,
    ) -> Result<(), Memory>
        requires { AllCanCount self.old.actions }
        ensures ok { OnOk result (self.new ≡ after_deed moment (deeds.Start action parent limit) self.old) }
        ensures err { OnErr result (self.new.actions ≡ self.old.actions) }
    {
        let row = new_action(parent, self.new_top(action, parent), limit, moment);
        push_action(&mut self.actions, parent, row)?;
        Ok(())
    }

    fn join(
        &mut self,
        moment: u64,
        member: u64,
        action: u64,
        uris: &UrisRef<'_>,
    ) -> Result<(), Memory>
        requires { AllCanCount self.old.actions }
        ensures ok { OnOk result (self.new ≡ after_deed moment (deeds.Join member action uris.now) self.old) }
        ensures err { OnErr result (self.new.actions ≡ self.old.actions) }
    {
        let row = new_member(action, uris);
        self.members.push(row)?;
        count_new_member(&mut self.actions, action, &row);
        Ok(())
    }

    fn set_status(&mut self, action: u64, status: ActionStatus)
        requires { AllCanCount self.old.actions }
        ensures { self.new ≡ change_status status action self.old }
    {
        if let Some(row) = self.action(action) {
            set_action(&mut self.actions, action, turned(status, &row));
            if let Some(parent) = row.parent {
                count_child(&mut self.actions, parent, row.status, status);
            }
        }
    }

    fn renew(&mut self, moment: u64, action: u64, limit: u64)
        ensures { self.new ≡ after_deed moment (deeds.Renew action limit) self.old }
    {
        if let Some(row) = self.action(action) {
            set_action(&mut self.actions, action, renewed(limit, moment, &row));
        }
    }

    /// Applies one more entry, which breaks no rule. After `Memory` the actions' rows are as before, and nothing is
    /// known of the rest.
    pub fn advance(&mut self, entry: &EntryRef<'_>) -> Result<(), Memory>
        requires counts { AllCanCount self.old.actions }
        requires next { TakesNextNumber self.old (deed_seen entry.now.deed) entry.now.by }
        ensures ok { OnOk result (self.new ≡ after_entry (entry_seen entry.now) self.old) }
        ensures err { OnErr result (self.new.actions ≡ self.old.actions) }
    {
        let moment = entry.moment;
        self.moment = moment;
        match &entry.deed {
            DeedRef::Enrol => self.clerks = u64::from(entry.by),
            DeedRef::Start {
                action,
                parent,
                limit,
            } => return self.start(moment, *action, *parent, *limit),
            DeedRef::Join {
                member,
                action,
                uris,
            } => return self.join(moment, *member, *action, uris),
            DeedRef::Leave { member } => self.leave(*member),
            DeedRef::Close { action, .. } => self.set_status(*action, ActionStatus::Closing),
            DeedRef::Cancel { action, .. } => self.set_status(*action, ActionStatus::Cancelling),
            DeedRef::Skip { member } => self.skip(*member),
            DeedRef::Ask { ask, member, kind } => return self.ask(*ask, *member, *kind),
            DeedRef::Reply { ask, outcome } => self.reply(*ask, *outcome),
            DeedRef::Report { member, outcome } => self.report(*member, *outcome),
            DeedRef::End { action, status } => self.set_status(*action, *status),
            DeedRef::Restart => self.void = self.asks,
            DeedRef::Renew { action, limit } => self.renew(moment, *action, *limit),
        }
        Ok(())
    }
}
