//! Gathers the facts of actions for replies, one query after another.

ghost use Rattle.std.specs.Prelude.{◌≡◌};
ghost use Rattle.lra_overview.specs.Standings.{only_awaits};

use crate::faults::Trouble;
use crate::laying::left_until;
use crate::overview::Overview;
use lra_commands::{Blocker, Listing, Query, QueryResult, Row, Want};
use lra_ids::Instance;
use lra_model::{ActionStatus, MemberStatus};
use std::alloc::Global;

/// Largest number of rows of one action that are shown.
pub const MOST_SHOWN: usize = 1_000;

/// An action of a list.
#[derive(Clone, Copy)]
pub struct ActionRow {
    pub action: u64,
    pub status: ActionStatus,
    pub parent: Option<u64>,
}

/// A member of a list.
#[derive(Clone, Copy)]
pub struct MemberRow {
    pub member: u64,
    pub status: MemberStatus,
    /// Ask to the member that is outstanding.
    pub ask: Option<u64>,
    /// Ask that the member is to get next.
    pub want: Option<Want>,
}

/// Actions of a list, and the action to go on from, if there may be more.
#[derive(Drop)]
pub struct Listed {
    pub rows: Vec<ActionRow>,
    pub next: Option<u64>,
}

/// An action, and what it waits for.
#[derive(Clone, Copy)]
pub struct Waiting {
    pub row: ActionRow,
    pub awaited: Option<Blocker>,
    /// Ask that the awaited member is to get next, and the number of milliseconds that are left until then.
    pub want: Option<Want>,
    pub left: u64,
    /// Least number of milliseconds for which the action has been there, if that is known.
    pub age: Option<u64>,
}

impl Waiting {
    /// Returns an action of which only is known what it waits for.
    pub fn new(row: ActionRow, awaited: Option<Blocker>) -> Waiting
        ensures { result ≡ only_awaits row awaited }
    {
        Waiting {
            row,
            awaited,
            want: None,
            left: 0,
            age: None,
        }
    }
}

/// An action with its members and the actions that are nested directly in it, and what it waits for.
#[derive(Drop)]
pub struct Shown {
    pub row: ActionRow,
    pub members: Vec<MemberRow>,
    pub nested: Vec<ActionRow>,
    pub awaited: Option<Blocker>,
    /// Flag, set if there may be more members or nested actions than are shown.
    pub is_cut: bool,
}

/// Row that holds up an action's end, and its place among the action's rows.
#[derive(Clone, Copy)]
struct Held {
    place: u64,
    awaited: Blocker,
}

/// A row, and its place.
#[derive(Clone, Copy)]
pub(crate) struct Placed {
    pub place: u64,
    pub row: Row,
}

/// Returns the next row of a listing, from a place on.
fn next_row<O: Overview>(
    overview: &mut O,
    instance: Instance,
    of: Listing,
    from: u64,
) -> Result<Option<Placed>, Trouble>
    ensures { O.orders overview.new ≡ O.orders overview.old }
{
    let mut from = from;
    for _part in 0..u64::MAX {
        let known = overview.query(instance, Query::Row { of, place: from })?;
        match known {
            QueryResult::Row { place, row } => return Ok(Some(Placed { place, row })),
            QueryResult::Further(next) => from = next,
            _ => return Ok(None),
        }
    }
    Ok(None)
}

/// Returns the number of the action at a place of the list of all actions.
pub(crate) fn action_at(place: Option<u64>) -> Option<u64> {
    match place {
        Some(place) => Some(place.saturating_add(1)),
        None => None,
    }
}

/// Returns the action of a row, if it is a row of an action.
pub(crate) fn action_in(row: Row) -> Option<ActionRow> {
    match row {
        Row::Action {
            action,
            status,
            parent,
        } => Some(ActionRow {
            action,
            status,
            parent,
        }),
        Row::Member { .. } => None,
    }
}

/// Returns the member of a row, if it is a row of a member.
fn member_in(row: Row) -> Option<MemberRow> {
    match row {
        Row::Member {
            member,
            status,
            ask,
            want,
        } => Some(MemberRow {
            member,
            status,
            ask,
            want,
        }),
        Row::Action { .. } => None,
    }
}

/// Adds so many actions of a listing, from a place on. Returns the place to go on from, if there may be more.
fn add_actions<O: Overview>(
    overview: &mut O,
    instance: Instance,
    of: Listing,
    from: u64,
    most: usize,
    rows: &mut Vec<ActionRow>,
) -> Result<Option<u64>, Trouble>
    ensures { O.orders overview.new ≡ O.orders overview.old }
{
    let mut from = from;
    for _row in 0..most {
        let Some(placed) = next_row(overview, instance, of, from)? else {
            return Ok(None);
        };
        if let Some(row) = action_in(placed.row) {
            rows.push(row)?;
        }
        from = placed.place.saturating_add(1);
    }
    Ok(Some(from))
}

/// Adds so many members of an action. Returns whether there may be more.
fn add_members<O: Overview>(
    overview: &mut O,
    instance: Instance,
    action: u64,
    most: usize,
    rows: &mut Vec<MemberRow>,
) -> Result<bool, Trouble>
    ensures { O.orders overview.new ≡ O.orders overview.old }
{
    let of = Listing::Members { action };
    let mut from = 0;
    for _row in 0..most {
        let Some(placed) = next_row(overview, instance, of, from)? else {
            return Ok(false);
        };
        if let Some(row) = member_in(placed.row) {
            rows.push(row)?;
        }
        from = placed.place.saturating_add(1);
    }
    Ok(true)
}

/// Lists so many actions from a place on, in the order in which they were started. If a status is given, lists only
/// actions that have it.
pub fn list_actions<O: Overview>(
    alloc: Global,
    overview: &mut O,
    instance: Instance,
    status: Option<ActionStatus>,
    from: u64,
    most: usize,
) -> Result<Listed, Trouble>
    ensures { O.orders overview.new ≡ O.orders overview.old }
{
    let mut rows = Vec::new(alloc);
    let of = Listing::Actions { status };
    match add_actions(overview, instance, of, from, most, &mut rows) {
        Ok(next) => Ok(Listed {
            rows,
            next: action_at(next),
        }),
        Err(trouble) => Err(trouble),
    }
}

/// Returns the first row that holds up an action's end, and its place.
fn held_by<O: Overview>(
    overview: &mut O,
    instance: Instance,
    action: u64,
) -> Result<Option<Held>, Trouble>
    ensures { O.orders overview.new ≡ O.orders overview.old }
{
    let mut from = 0;
    for _part in 0..u64::MAX {
        let known = overview.query(
            instance,
            Query::Awaited {
                action,
                place: from,
            },
        )?;
        match known {
            QueryResult::Awaits { place, awaited } => return Ok(Some(Held { place, awaited })),
            QueryResult::Further(next) => from = next,
            _ => return Ok(None),
        }
    }
    Ok(None)
}

/// Returns what an action waits for, if anything.
pub fn waits_for<O: Overview>(
    overview: &mut O,
    instance: Instance,
    action: u64,
) -> Result<Option<Blocker>, Trouble>
    ensures { O.orders overview.new ≡ O.orders overview.old }
{
    match held_by(overview, instance, action)? {
        Some(held) => Ok(Some(held.awaited)),
        None => Ok(None),
    }
}

/// Returns what the member that holds up an action's end is to be asked next. Returns nothing if it is being asked.
fn want_at<O: Overview>(
    overview: &mut O,
    instance: Instance,
    action: u64,
    held: Held,
) -> Result<Option<Want>, Trouble>
    ensures { O.orders overview.new ≡ O.orders overview.old }
{
    let Blocker::Member { member, ask: None } = held.awaited else {
        return Ok(None);
    };
    let of = Listing::Members { action };
    let place = held.place;
    match overview.query(instance, Query::Row { of, place })? {
        QueryResult::Row {
            row: Row::Member {
                member: found,
                want,
                ..
            },
            ..
        } if found == member => Ok(want),
        _ => Ok(None),
    }
}

/// Returns an action with what it waits for, and how long it is at a moment until that is asked next.
fn waiting_of<O: Overview>(
    overview: &mut O,
    instance: Instance,
    row: ActionRow,
    moment: u64,
) -> Result<Waiting, Trouble>
    ensures { O.orders overview.new ≡ O.orders overview.old }
{
    let Some(held) = held_by(overview, instance, row.action)? else {
        return Ok(Waiting::new(row, None));
    };
    let want = want_at(overview, instance, row.action, held)?;
    Ok(Waiting {
        want,
        left: left_until(want.map_or(0, |want| want.due), moment),
        ..Waiting::new(row, Some(held.awaited))
    })
}

/// Adds what each of some actions waits for.
fn add_waiting<O: Overview>(
    overview: &mut O,
    instance: Instance,
    rows: &[ActionRow],
    moment: u64,
    waiting: &mut Vec<Waiting>,
) -> Result<(), Trouble>
    ensures { O.orders overview.new ≡ O.orders overview.old }
{
    for row in rows {
        waiting.push(waiting_of(overview, instance, *row, moment)?)?;
    }
    Ok(())
}

/// Returns what each of some actions waits for, and how long it is at a moment until that is asked next.
pub fn all_waiting<O: Overview>(
    alloc: Global,
    overview: &mut O,
    instance: Instance,
    rows: &[ActionRow],
    moment: u64,
) -> Result<Vec<Waiting>, Trouble>
    ensures { O.orders overview.new ≡ O.orders overview.old }
{
    let mut waiting = Vec::new(alloc);
    match add_waiting(overview, instance, rows, moment, &mut waiting) {
        Ok(()) => Ok(waiting),
        Err(trouble) => Err(trouble),
    }
}

/// Returns the row of an action.
fn row_of<O: Overview>(
    overview: &mut O,
    instance: Instance,
    action: u64,
) -> Result<ActionRow, Trouble>
    ensures { O.orders overview.new ≡ O.orders overview.old }
{
    let of = Listing::Actions { status: None };
    let placed = next_row(overview, instance, of, action.saturating_sub(1))?;
    match placed.and_then(|placed| action_in(placed.row)) {
        Some(row) if row.action == action => Ok(row),
        _ => Err(Trouble::Refused(lra_commands::Refusal::NoSuchAction)),
    }
}

/// Adds the members and the nested actions that are shown of an action to lists that are empty. Returns whether there
/// may be more.
fn fill<O: Overview>(
    overview: &mut O,
    instance: Instance,
    action: u64,
    members: &mut Vec<MemberRow>,
    nested: &mut Vec<ActionRow>,
) -> Result<bool, Trouble>
    ensures { O.orders overview.new ≡ O.orders overview.old }
{
    let cut = add_members(overview, instance, action, MOST_SHOWN, members)?;
    let of = Listing::Nested { action };
    let next = add_actions(overview, instance, of, 0, MOST_SHOWN, nested)?;
    Ok(cut || next.is_some())
}

/// Returns an action with its members, its nested actions and what it waits for.
pub fn show_action<O: Overview>(
    alloc: Global,
    overview: &mut O,
    instance: Instance,
    action: u64,
) -> Result<Shown, Trouble>
    ensures { O.orders overview.new ≡ O.orders overview.old }
{
    let row = row_of(overview, instance, action)?;
    let awaited = waits_for(overview, instance, action)?;
    let mut members = Vec::new(alloc);
    let mut nested = Vec::new(alloc);
    match fill(overview, instance, action, &mut members, &mut nested) {
        Ok(is_cut) => Ok(Shown {
            row,
            members,
            nested,
            awaited,
            is_cut,
        }),
        Err(trouble) => Err(trouble),
    }
}
