//! Tracker of the asks that have no reply yet, and of how often each member was silent.

ghost use Rattle.std.specs.Prelude.{◌≡◌, Some, None, OnOk, IfOk};
ghost use Rattle.lra_model.specs.declared.entry.Deed.{Deed};
ghost use Rattle.lra_entries.specs.Borrowed.{deed_seen};
ghost use Rattle.lra_logs.specs.Meters.{one_more};
ghost use Rattle.lra_logs.specs.Silences as spec;
ghost use Rattle.lra_logs.specs.Vigils.{sight_of};

use crate::event::Event;
use lra_journal::DeedRef;
use lra_model::{Instance, Memory, Outcome};
use std::alloc::Global;
use std::collections::HashMap;

/// Ask tracker: the members of the pending asks, and how often in a row each member was silent.
#[derive(Drop)]
pub(crate) struct AskTracker {
    /// Member of each pending ask.
    asks: HashMap<u64, u64>,
    /// Number of silences in a row, of each member that was silent.
    silences: HashMap<u64, u64>,
}

/// Returns whether a silence is logged: the first of a member, and each tenth.
fn is_told(times: u64) -> bool
    ensures { result ≡ spec.is_told times }
{
    times == 1 || times % 10 == 0
}

/// Returns the event of a silence, if it is logged. A journal doesn't record the callback's outcome.
fn silence(journal: Instance, member: u64, times: u64) -> Option<Event>
    ensures { result ≡ spec.silence journal member times }
{
    if is_told(times) {
        Some(Event::MemberSilent {
            journal,
            member,
            times,
            outcome: None,
        })
    } else {
        None
    }
}

impl AskTracker {
    /// Returns a tracker without asks and silences.
    pub(crate) fn new(alloc: Global) -> AskTracker
        ensures { sight_of result ≡ spec.blank }
    {
        AskTracker {
            asks: HashMap::new(alloc),
            silences: HashMap::new(alloc),
        }
    }

    /// Records an ask of a member.
    fn ask(&mut self, ask: u64, member: u64) -> Result<(), Memory>
        ensures { OnOk result (sight_of self.new ≡ record (sight_of self.old)
            { asked = spec.with_at ask (Some member) (sight_of self.old).asked }) }
    {
        self.asks.insert(ask, member)?;
        Ok(())
    }

    /// Resets the silences of a member that replied or reported.
    fn speak(&mut self, member: u64)
        ensures { sight_of self.new ≡ record (sight_of self.old) {
          silent =
              spec.with_at member 0 (sight_of self.old).silent;
        } }
    {
        self.silences.remove(&member);
    }

    /// Counts another silence of a member. Returns how many it has in a row.
    fn count(&mut self, member: u64) -> Result<u64, Memory>
        ensures times { IfOk result (λ times. times ≡ one_more ((sight_of self.old).silent member)) }
        ensures sight { IfOk result (λ times. sight_of self.new ≡ record (sight_of self.old)
            { silent = spec.with_at member times (sight_of self.old).silent }) }
    {
        let times = match self.silences.get(&member) {
            Some(times) => times.saturating_add(1),
            None => 1,
        };
        self.silences.insert(member, times)?;
        Ok(times)
    }

    /// Records the outcome of an ask. Returns the event, if it is another silence that is logged. Where memory is
    /// refused the silence isn't counted.
    fn reply(
        &mut self,
        journal: Instance,
        ask: u64,
        outcome: Outcome,
    ) -> Result<Option<Event>, Memory>
        ensures sight { OnOk result (sight_of self.new ≡ spec.heard (sight_of self.old) (Deed.Reply ask outcome)) }
        ensures event { IfOk result (λ event. event ≡ spec.event_of journal (sight_of self.old)
            (Deed.Reply ask outcome)) }
    {
        let Some(member) = self.asks.remove(&ask) else {
            return Ok(None);
        };
        match outcome {
            Outcome::Silent => Ok(silence(journal, member, self.count(member)?)),
            _ => {
                self.speak(member);
                Ok(None)
            }
        }
    }

    /// Records the deed of one more entry. Returns its event, if it has one.
    pub(crate) fn hear(
        &mut self,
        journal: Instance,
        deed: &DeedRef<'_>,
    ) -> Result<Option<Event>, Memory>
        ensures sight { OnOk result (sight_of self.new ≡ spec.heard (sight_of self.old) (deed_seen deed.now)) }
        ensures event { IfOk result (λ event. event ≡ spec.event_of journal (sight_of self.old) (deed_seen deed.now)) }
    {
        match deed {
            DeedRef::Start { action, .. } => Ok(Some(Event::ActionStarted {
                journal,
                action: *action,
            })),
            DeedRef::End { action, status } => Ok(Some(Event::ActionEnded {
                journal,
                action: *action,
                status: *status,
            })),
            DeedRef::Ask { ask, member, .. } => {
                self.ask(*ask, *member)?;
                Ok(None)
            }
            DeedRef::Reply { ask, outcome } => self.reply(journal, *ask, *outcome),
            DeedRef::Report { member, .. } => {
                self.speak(*member);
                Ok(None)
            }
            DeedRef::Restart => {
                self.asks.clear();
                Ok(None)
            }
            _ => Ok(None),
        }
    }
}
