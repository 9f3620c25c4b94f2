//! Data that a listing of actions needs beside their statuses: the journal's instance, when each action started, the
//! last moment, and, if they are wanted, the calls that show what the actions wait for.

ghost use Rattle.std.specs.Prelude.{◌≡◌, ◌++◌, OnOk, None, option_map, option_to_list};
ghost use Rattle.lra_entries.specs.Borrowed.{entry_seen};
ghost use Rattle.lra_timelines.specs.Lines.{begun_by};

use crate::calls::{Calls, calls_where, take_call};
use lra_auditor::Follower;
use lra_journal::{DeedRef, EntryRef};
use lra_model::{Instance, Memory, Version};
use std::alloc::Global;

/// Data of a journal for a listing, with the moments at which its actions started, in the order of their numbers.
#[derive(Drop)]
pub(crate) struct StartTimes {
    pub(crate) instance: Option<Instance>,
    pub(crate) starts: Vec<u64>,
    /// Moment of the last entry, in milliseconds; 0 before the first one.
    pub(crate) last: u64,
    /// Calls of the actions' members, if the listing says what actions wait for.
    pub(crate) calls: Option<Calls>,
}

impl StartTimes {
    ghost use Rattle.lra_timelines.specs.inner.Registered.{Hears};

    /// Makes a register of no entry. It gathers calls if `keeps_calls` is set.
    pub(crate) fn new(alloc: Global, keeps_calls: bool) -> StartTimes
        ensures { Hears result None }
    {
        StartTimes {
            instance: None,
            starts: Vec::new(alloc),
            last: 0,
            calls: calls_where(alloc, keeps_calls),
        }
    }
}

/// Returns the moment of an entry if it starts an action.
fn started_at(entry: &EntryRef<'_>) -> Option<u64>
    ensures { result ≡ option_map (λ b. b.moment) (begun_by (entry_seen entry.now)) }
{
    match &entry.deed {
        DeedRef::Start { .. } => Some(entry.moment),
        _ => None,
    }
}

/// Adds a moment, if there is one.
fn add(moments: &mut Vec<u64>, moment: Option<u64>) -> Result<(), Memory>
    ensures { OnOk result (moments.new.items ≡ moments.old.items ++ option_to_list moment) }
{
    if let Some(moment) = moment {
        moments.push(moment)?;
    }
    Ok(())
}

impl Follower for StartTimes {
    ghost use Rattle.lra_timelines.specs.inner.Registered.{Hears};

    ghost hears = { Hears };

    fn begin(&mut self, _version: Version, instance: Instance) {
        self.instance = Some(instance);
    }

    fn take(&mut self, entry: &EntryRef<'_>) -> Result<(), Memory> {
        self.last = entry.moment;
        take_call(&mut self.calls, entry)?;
        add(&mut self.starts, started_at(entry))
    }
}
