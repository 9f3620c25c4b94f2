//! The latest counts, and the moments from which on actions are known of.

ghost use Rattle.std.specs.Prelude.{◌≡◌};

use lra_ids::Instance;
use lra_model::{ActionStatus, Memory};
use lra_overview::{Census, Counts, Overview, Totals, Trouble, Waiting, count_all};
use std::alloc::Global;

/// Number of milliseconds for which a count is fresh.
const FRESH: u64 = 1_000;

/// Largest number of marks that are kept.
const MOST_MARKS: usize = 256;

/// Number of actions that there were at a moment.
#[derive(Clone, Copy)]
struct Mark {
    actions: u64,
    moment: u64,
}

/// Latest counts of a journal.
#[derive(Drop)]
pub(crate) struct Counted {
    pub(crate) instance: Instance,
    pub(crate) counts: Counts,
    pub(crate) census: Census,
    marks: Vec<Mark>,
}

/// Latest counts of each journal, and their moment. Counts are remembered for a second, so that frequent requests hold
/// nothing up.
#[derive(Drop)]
pub struct Memo {
    moment: u64,
    /// Counts of the journals, the newest last.
    journals: Vec<Counted>,
    /// Totals of the journals that left, as they were counted last.
    gone: Totals,
}

/// Returns the marks that are kept once there are too many: each second one.
fn thin(alloc: Global, marks: &Vec<Mark>) -> Result<Vec<Mark>, Memory> {
    let mut kept = Vec::new(alloc);
    for (place, mark) in marks.as_slice().iter().enumerate() {
        if place % 2 == 0 {
            kept.push(*mark)?;
        }
    }
    Ok(kept)
}

impl Counted {
    /// Makes the counts of a journal of which nothing was counted.
    fn new(alloc: Global, instance: Instance) -> Counted {
        Counted {
            instance,
            counts: Counts::none(),
            census: Census::new(alloc),
            marks: Vec::new(alloc),
        }
    }

    /// Marks how many actions there are at a moment, if there are more than at the last mark.
    fn mark(&mut self, alloc: Global, moment: u64) -> Result<(), Memory> {
        let actions = self.counts.actions;
        if let Some(last) = self.marks.as_slice().last() {
            if last.actions >= actions {
                return Ok(());
            }
        }
        if self.marks.len() >= MOST_MARKS {
            self.marks = thin(alloc, &self.marks)?;
        }
        self.marks.push(Mark { actions, moment })?;
        Ok(())
    }

    /// Counts the journal anew.
    fn renew<O: Overview>(
        &mut self,
        alloc: Global,
        overview: &mut O,
        moment: u64,
    ) -> Result<(), Trouble>
        ensures { O.orders overview.new ≡ O.orders overview.old }
    {
        self.counts = count_all(alloc, overview, self.instance, &mut self.census, moment)?;
        self.mark(alloc, moment)?;
        Ok(())
    }

    /// Returns for how many milliseconds the oldest action that hasn't ended has been known, at a moment.
    fn age(&self, moment: u64) -> u64 {
        let Some(oldest) = self.counts.oldest else {
            return 0;
        };
        self.age_of(oldest, moment).unwrap_or(0)
    }

    /// Returns for how many milliseconds an action has been known of, at a moment, if it has.
    fn age_of(&self, action: u64, moment: u64) -> Option<u64> {
        for mark in self.marks.as_slice() {
            if mark.actions >= action {
                return Some(moment.saturating_sub(mark.moment));
            }
        }
        None
    }

    /// Adds to each action that hasn't ended for how many milliseconds it has been known of, at a moment.
    pub(crate) fn add_ages(&self, waiting: &mut Vec<Waiting>, moment: u64) {
        for each in waiting.iter_mut() {
            each.age = self.age_of(each.row.action, moment);
        }
    }

    /// Returns whether some action had a status when the journal was counted last.
    fn has(&self, status: ActionStatus) -> bool {
        self.counts
            .shares
            .iter()
            .any(|share| share.status.is_same(status) && share.count > 0)
    }
}

/// Returns whether a journal is served.
fn is_served<O: Overview>(overview: &O, instance: Instance) -> bool {
    for place in 0..u64::MAX {
        let Some(served) = overview.instance(place) else {
            return false;
        };
        if served == instance {
            return true;
        }
    }
    false
}

impl Memo {
    /// Returns the latest counts of a journal, if there are any.
    pub(crate) fn journal(&self, instance: Instance) -> Option<&Counted> {
        self.journals
            .as_slice()
            .iter()
            .find(|counted| counted.instance == instance)
    }

    /// Returns whether the memo has exactly the journals that are served, in their order.
    fn is_of<O: Overview>(&self, overview: &O) -> bool {
        for (place, counted) in self.journals.as_slice().iter().enumerate() {
            if overview.instance(place as u64) != Some(counted.instance) {
                return false;
            }
        }
        overview.instance(self.journals.len() as u64).is_none()
    }

    /// Adds the journals that have joined.
    fn add_new<O: Overview>(&mut self, alloc: Global, overview: &O) -> Result<(), Memory> {
        for place in 0..u64::MAX {
            let Some(instance) = overview.instance(place) else {
                return Ok(());
            };
            if self.journal(instance).is_none() {
                self.journals.push(Counted::new(alloc, instance))?;
            }
        }
        Ok(())
    }

    /// Counts each journal anew.
    fn count_each<O: Overview>(
        &mut self,
        alloc: Global,
        overview: &mut O,
        moment: u64,
    ) -> Result<(), Trouble>
        ensures { O.orders overview.new ≡ O.orders overview.old }
    {
        for counted in self.journals.iter_mut() {
            counted.renew(alloc, overview, moment)?;
        }
        Ok(())
    }

    /// Removes the journals that aren't served any more. Adds their counts to the totals of those that left.
    fn leave<O: Overview>(&mut self, overview: &O) {
        for counted in self.journals.as_slice() {
            if !is_served(overview, counted.instance) {
                self.gone.add(&counted.counts);
            }
        }
        self.journals
            .retain(|counted| is_served(overview, counted.instance));
    }

    /// Updates the list of journals to those that are served, and counts each anew.
    fn renew<O: Overview>(
        &mut self,
        alloc: Global,
        overview: &mut O,
        moment: u64,
    ) -> Result<(), Trouble>
        ensures { O.orders overview.new ≡ O.orders overview.old }
    {
        self.leave(overview);
        self.add_new(alloc, overview)?;
        self.count_each(alloc, overview, moment)?;
        self.moment = moment;
        Ok(())
    }

    /// Returns whether the counts are fresh at a moment.
    fn is_fresh<O: Overview>(&self, overview: &O, moment: u64) -> bool {
        moment.saturating_sub(self.moment) < FRESH && self.is_of(overview)
    }

    /// Returns the latest counts of the newest journal.
    pub(crate) fn newest(&self) -> Option<&Counted> {
        self.journals.as_slice().last()
    }

    /// Returns the latest counts of the first journal in which something hasn't ended, or else of the newest.
    pub(crate) fn first_open(&self) -> Option<&Counted> {
        for counted in self.journals.as_slice() {
            if counted.counts.oldest.is_some() {
                return Some(counted);
            }
        }
        self.newest()
    }

    /// Returns the latest counts of the first journal in which an action has a status, or else of the newest.
    pub(crate) fn first_with(&self, status: ActionStatus) -> Option<&Counted> {
        for counted in self.journals.as_slice() {
            if counted.has(status) {
                return Some(counted);
            }
        }
        self.newest()
    }

    /// Returns the totals of all journals, with those that left.
    pub(crate) fn totals(&self) -> Totals {
        let mut totals = self.gone;
        totals.add(&self.total());
        totals
    }

    /// Returns the sums of the counts of all journals.
    pub(crate) fn total(&self) -> Counts {
        let mut total = Counts::none();
        for counted in self.journals.as_slice() {
            total.add(&counted.counts);
        }
        total
    }

    /// Returns for how many milliseconds the oldest action that hasn't ended has been known, at a moment.
    pub(crate) fn age(&self, moment: u64) -> u64 {
        let mut age = 0;
        for counted in self.journals.as_slice() {
            age = age.max(counted.age(moment));
        }
        age
    }

    /// Returns the counts of a moment, or those of the second before it. Counts anew if those aren't fresh any more.
    pub(crate) fn look<'a, O: Overview>(
        memo: &'a mut Memo,
        alloc: Global,
        overview: &mut O,
        moment: u64,
    ) -> Result<&'a Memo, Trouble>
        ensures { O.orders overview.new ≡ O.orders overview.old }
    {
        if !memo.is_fresh(overview, moment) {
            memo.renew(alloc, overview, moment)?;
        }
        Ok(memo)
    }

    /// Makes a memo of no counts.
    pub(crate) fn new(alloc: Global) -> Memo {
        Memo {
            moment: 0,
            journals: Vec::new(alloc),
            gone: Totals::none(),
        }
    }
}
