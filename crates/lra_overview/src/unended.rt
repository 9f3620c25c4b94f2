//! The actions that haven't ended, the oldest first.

ghost use Rattle.std.specs.Prelude.{◌≡◌};

use crate::census::Census;
use crate::faults::Trouble;
use crate::gather::{ActionRow, Listed, Placed, action_at, action_in};
use crate::overview::Overview;
use lra_commands::{Listing, Query, QueryResult};
use lra_ids::Instance;
use lra_model::ActionStatus;
use std::alloc::Global;

/// Next row of a status, as far as the search has come.
#[derive(Clone, Copy)]
enum Ahead {
    /// The search goes on from this place.
    From(u64),
    /// The search found this row.
    Found(Placed),
    /// No more rows have the status.
    Nothing,
}

/// Status, and the progress of the search through its actions.
#[derive(Clone, Copy)]
struct Cursor {
    status: ActionStatus,
    ahead: Ahead,
}

/// Makes a cursor before the first action of a status, from a place on.
fn begin(status: ActionStatus, from: u64) -> Cursor {
    Cursor {
        status,
        ahead: Ahead::From(from),
    }
}

/// Cursors of the statuses of actions that haven't ended.
#[derive(Clone, Copy)]
struct Search {
    active: Cursor,
    closing: Cursor,
    cancelling: Cursor,
}

impl Cursor {
    /// Returns the place at which the cursor goes on, if there is one.
    fn place(&self) -> Option<u64> {
        match self.ahead {
            Ahead::From(place) => Some(place),
            Ahead::Found(placed) => Some(placed.place),
            Ahead::Nothing => None,
        }
    }

    /// Returns whether the cursor's place comes before that of another, or is the same.
    fn is_before(&self, other: &Cursor) -> bool {
        match (self.place(), other.place()) {
            (Some(own), Some(place)) => own <= place,
            (own, None) => own.is_some(),
            (None, Some(_)) => false,
        }
    }

    /// Returns the row that the cursor found before, if there is one. Otherwise searches for the next row, among as
    /// many rows as one query reads, and returns none.
    fn step<O: Overview>(
        &mut self,
        overview: &mut O,
        instance: Instance,
        census: &Census,
    ) -> Result<Option<Placed>, Trouble>
        ensures { O.orders overview.new ≡ O.orders overview.old }
    {
        match self.ahead {
            Ahead::Found(placed) => {
                self.ahead = Ahead::From(placed.place.saturating_add(1));
                Ok(Some(placed))
            }
            Ahead::From(from) => {
                self.ahead = look(overview, instance, self.status, census.first_open(from))?;
                Ok(None)
            }
            Ahead::Nothing => Ok(None),
        }
    }
}

/// Searches for the next row of a status, by one query.
fn look<O: Overview>(
    overview: &mut O,
    instance: Instance,
    status: ActionStatus,
    place: u64,
) -> Result<Ahead, Trouble>
    ensures { O.orders overview.new ≡ O.orders overview.old }
{
    let of = Listing::Actions {
        status: Some(status),
    };
    match overview.query(instance, Query::Row { of, place })? {
        QueryResult::Row { place, row } => Ok(Ahead::Found(Placed { place, row })),
        QueryResult::Further(next) => Ok(Ahead::From(next)),
        _ => Ok(Ahead::Nothing),
    }
}

impl Search {
    /// Makes a search that begins before all actions from a place on.
    fn new(from: u64) -> Search {
        Search {
            active: begin(ActionStatus::Active, from),
            closing: begin(ActionStatus::Closing, from),
            cancelling: begin(ActionStatus::Cancelling, from),
        }
    }

    /// Returns whether the search has no more rows.
    fn is_over(&self) -> bool {
        let closed = self.closing.place().is_none() && self.cancelling.place().is_none();
        closed && self.active.place().is_none()
    }

    /// Returns the cursor with the first place.
    fn first(&mut self) -> &mut Cursor {
        if self.active.is_before(&self.closing) && self.active.is_before(&self.cancelling) {
            return &mut self.active;
        }
        if self.closing.is_before(&self.cancelling) {
            return &mut self.closing;
        }
        &mut self.cancelling
    }

    /// Returns the next row of any of the statuses. Each cursor goes on from its last row, and not from the beginning
    /// again.
    fn next<O: Overview>(
        &mut self,
        overview: &mut O,
        instance: Instance,
        census: &Census,
    ) -> Result<Option<Placed>, Trouble>
        ensures { O.orders overview.new ≡ O.orders overview.old }
    {
        for _part in 0..u64::MAX {
            if self.is_over() {
                return Ok(None);
            }
            let found = self.first().step(overview, instance, census)?;
            if found.is_some() {
                return Ok(found);
            }
        }
        Ok(None)
    }
}

/// Adds so many actions that haven't ended, from a place on. Returns the place to go on from, if there may be more.
fn add_unended<O: Overview>(
    overview: &mut O,
    instance: Instance,
    census: &Census,
    from: u64,
    most: usize,
    rows: &mut Vec<ActionRow>,
) -> Result<Option<u64>, Trouble>
    ensures { O.orders overview.new ≡ O.orders overview.old }
{
    let mut search = Search::new(from);
    let mut from = from;
    for _row in 0..u64::MAX {
        if rows.len() >= most {
            return Ok(Some(from));
        }
        let Some(placed) = search.next(overview, instance, census)? else {
            return Ok(None);
        };
        // An action whose status changes meanwhile may be found again.
        if placed.place < from {
            continue;
        }
        if let Some(row) = action_in(placed.row) {
            rows.push(row)?;
        }
        from = placed.place.saturating_add(1);
    }
    Ok(Some(from))
}

/// Lists so many actions that haven't ended, the oldest first, from a place on. Skips stretches of which the census
/// knows that all actions have ended.
pub fn list_unended<O: Overview>(
    alloc: Global,
    overview: &mut O,
    instance: Instance,
    census: &Census,
    from: u64,
    most: usize,
) -> Result<Listed, Trouble>
    ensures { O.orders overview.new ≡ O.orders overview.old }
{
    let mut rows = Vec::new(alloc);
    match add_unended(overview, instance, census, from, most, &mut rows) {
        Ok(next) => Ok(Listed {
            rows,
            next: action_at(next),
        }),
        Err(trouble) => Err(trouble),
    }
}
