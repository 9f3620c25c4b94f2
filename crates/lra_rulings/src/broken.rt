//! The first rule that an entry breaks.

ghost use Rattle.std.specs.Prelude.{◌≡◌, ℕ, ◌∷◌, [], IfOk};
ghost use Rattle.lra_model.specs.declared.version.Version.{Version};
ghost use Rattle.lra_model.specs.declared.entry.Deed.TheVariants as deeds;
ghost use Rattle.lra_model.specs.Rules as rules;
ghost use Rattle.lra_entries.specs.Borrowed.{entry_seen, deed_seen};
ghost use Rattle.lra_addresses.specs.Addresses.{is_address};
ghost use Rattle.lra_laws.specs.Rows.{State};
ghost use Rattle.lra_laws.specs.inner.RowFacts.{facts_by};
ghost use Rattle.lra_rulings.specs.Replies.{TellsReply};

use crate::lawful::{addresses_fit, has_deed, is_moment, is_next};
use crate::rows::RowsRef;
use lra_entries::{DeedRef, EntryRef, UrisRef};
use lra_model::{Memory, Rule, Version};
use std::alloc::Global;

/// Returns the first of the rules that isn't kept, if any.
fn first_broken(verdicts: &[(Rule, bool)]) -> Option<Rule>
    ensures { result ≡ rules.first_broken verdicts.now }
{
    for (rule, kept) in verdicts {
        if !*kept {
            return Some(*rule);
        }
    }
    None
}

impl RowsRef<'_> {
    fn broken_by_start(
        &self,
        moment: u64,
        action: u64,
        parent: Option<u64>,
        limit: u64,
    ) -> Option<Rule>
        ensures { (v : Version) → result ≡ rules.first_broken (rules.deed_rules v is_address (facts_by self.now) moment
            (deeds.Start action parent limit)) }
    {
        let (is_there, is_active) = match parent {
            Some(parent) => (self.is_action(parent), self.is_active_action(parent)),
            None => (true, true),
        };
        first_broken(&[
            (Rule::Number, is_next(action, self.count_actions())),
            (Rule::Action, is_there),
            (Rule::Active, is_active),
            (Rule::Limit, is_moment(moment, limit)),
        ])
    }

    fn broken_by_join(
        &self,
        alloc: Global,
        member: u64,
        action: u64,
        uris: &UrisRef<'_>,
    ) -> Result<Option<Rule>, Memory>
        ensures { (v : Version) (m : ℕ) → IfOk result (λ broken. broken
            ≡ rules.first_broken (rules.deed_rules v is_address (facts_by self.now) m
            (deeds.Join member action uris.now))) }
    {
        let broken = first_broken(&[
            (Rule::Number, is_next(member, self.count_members())),
            (Rule::Action, self.is_action(action)),
            (Rule::Active, self.is_active_action(action)),
        ]);
        match broken {
            Some(rule) => Ok(Some(rule)),
            None => Ok(first_broken(&[(Rule::Addresses, addresses_fit(alloc, uris)?)])),
        }
    }

    /// Returns the first of three rules that isn't kept: the member is there, it hasn't left, and the rule given.
    fn broken_by_member(&self, member: u64, rule: Rule, kept: bool) -> Option<Rule>
        ensures { result ≡ rules.first_broken ((Rule.Member, rules.is_member (facts_by self.now) member)
            ∷ (Rule.Left, rules.is_here (facts_by self.now) member) ∷ (rule, kept) ∷ []) }
    {
        first_broken(&[
            (Rule::Member, self.is_member(member)),
            (Rule::Left, self.is_here(member)),
            (rule, kept),
        ])
    }

    /// Returns the first of two rules that isn't kept: the action is there, and the cause lets it close or cancel.
    fn broken_by_decision(&self, action: u64, allowed: bool) -> Option<Rule>
        ensures { result ≡ rules.first_broken ((Rule.Action, rules.is_action (facts_by self.now) action)
            ∷ (Rule.Cause, allowed) ∷ []) }
    {
        first_broken(&[
            (Rule::Action, self.is_action(action)),
            (Rule::Cause, allowed),
        ])
    }

    fn broken_by_deed(
        &self,
        alloc: Global,
        version: Version,
        moment: u64,
        deed: &DeedRef<'_>,
        may_reply: bool,
    ) -> Result<Option<Rule>, Memory>
        requires { TellsReply (facts_by self.now) (deed_seen deed.now) may_reply }
        ensures { IfOk result
            (λ broken. broken ≡ rules.first_broken (rules.deed_rules version is_address (facts_by self.now) moment
            (deed_seen deed.now))) }
    {
        Ok(match deed {
            DeedRef::Enrol | DeedRef::Restart => None,
            DeedRef::Start {
                action,
                parent,
                limit,
            } => self.broken_by_start(moment, *action, *parent, *limit),
            DeedRef::Join {
                member,
                action,
                uris,
            } => self.broken_by_join(alloc, *member, *action, uris)?,
            DeedRef::Leave { member } => {
                self.broken_by_member(*member, Rule::Active, self.is_in_active_action(*member))
            }
            DeedRef::Close { action, cause } => {
                self.broken_by_decision(*action, self.may_close(*action, *cause))
            }
            DeedRef::Cancel { action, cause } => self.broken_by_decision(
                *action,
                self.may_cancel(version, moment, *action, *cause),
            ),
            DeedRef::Skip { member } => {
                self.broken_by_member(*member, Rule::Skip, self.may_skip(*member))
            }
            DeedRef::Ask { ask, member, kind } => first_broken(&[
                (Rule::Number, is_next(*ask, self.asks)),
                (Rule::Member, self.is_member(*member)),
                (Rule::Left, self.is_here(*member)),
                (Rule::Ask, self.may_ask(*member, *kind)),
            ]),
            DeedRef::Reply { .. } => first_broken(&[(Rule::Reply, may_reply)]),
            DeedRef::Report { member, outcome } => {
                self.broken_by_member(*member, Rule::Report, self.may_report(*member, *outcome))
            }
            DeedRef::End { action, status } => first_broken(&[
                (Rule::Action, self.is_action(*action)),
                (Rule::Unsettled, self.is_settled(*action)),
                (Rule::Ending, self.ends_as(*action, *status)),
            ]),
            DeedRef::Renew { action, limit } => first_broken(&[
                (Rule::Action, self.is_action(*action)),
                (Rule::Active, self.is_active_action(*action)),
                (Rule::Limit, is_moment(moment, *limit)),
            ]),
        })
    }

    /// Returns the first rule that an entry breaks after the history, if it breaks any. Of a reply the caller tells
    /// whether it may come.
    pub fn broken(
        &self,
        alloc: Global,
        version: Version,
        entry: &EntryRef<'_>,
        may_reply: bool,
    ) -> Result<Option<Rule>, Memory>
        requires { TellsReply (facts_by self.now) (deed_seen entry.now.deed) may_reply }
        ensures { IfOk result
            (λ broken. broken ≡ rules.first_broken (rules.rules_on version is_address (facts_by self.now)
            (entry_seen entry.now))) }
    {
        let broken = first_broken(&[
            (Rule::Grammar, has_deed(version, &entry.deed)),
            (Rule::Clerk, self.clerk_fits(entry.by, &entry.deed)),
            (Rule::Moment, self.moment <= entry.moment),
        ]);
        match broken {
            Some(rule) => Ok(Some(rule)),
            None => self.broken_by_deed(alloc, version, entry.moment, &entry.deed, may_reply),
        }
    }
}
