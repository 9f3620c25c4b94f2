//! The rows that a query goes along, one by one, and the first of them that it returns.

ghost use Rattle.std.specs.Prelude.{◌≡◌, ◌≤◌, ◌<◌, ◌+◌, ◌-◌, ◌^◌, min, max, unwrap_or, cond, filter, length};
ghost use Rattle.lra_model.specs.History.{History};
ghost use Rattle.lra_laws.specs.Snapshots.{StandsFor};
ghost use Rattle.lra_commands.specs.declared.query.QueryResult.{QueryResult as Told};
ghost use Rattle.lra_commands.specs.Queries.{most_rows, looked_at, belongs, rows_along, next_of, count_from};
ghost use Rattle.lra_validator.specs.inner.Walks as walks;

use crate::awaited::{count_awaited, look_awaited};
use crate::listed::{count_listed, look_listed};
use lra_commands::{Limits, Listing, QueryResult};
use lra_model::ActionStatus;
use lra_tables::Tables;

/// The number of rows that one query looks at.
const MOST_ROWS: u64 = 256;

/// The rows that a query goes along.
#[derive(Clone, Copy)]
pub(crate) enum Walk {
    /// The rows of an action with this status, for those that block its end.
    Awaited { action: u64, status: ActionStatus },
    /// The rows of a listing.
    Listed { listing: Listing },
}

/// Returns the number of rows.
fn count_rows(tables: &Tables, walk: Walk) -> u64
    ensures { (J : History) → StandsFor tables.now.snapshot J → result ≡ walks.count_rows J walk }
{
    match walk {
        Walk::Awaited { action, .. } => count_awaited(tables, action),
        Walk::Listed { listing } => count_listed(tables, listing),
    }
}

/// Returns the answer about the row at a place, if there is one that the query returns.
fn look(limits: &Limits, tables: &Tables, walk: Walk, place: u64) -> Option<QueryResult>
    requires { place < 2 ^ 64 - 1 }
    ensures { (J : History) → StandsFor tables.now.snapshot J → result ≡ walks.look limits.now J walk place }
{
    match walk {
        Walk::Awaited { action, status } => look_awaited(tables, action, status, place),
        Walk::Listed { listing } => look_listed(limits, tables, listing, place),
    }
}

/// Returns how many of so many rows one query looks at, from a place on.
fn count_looked(rows: u64, place: u64) -> u64
    ensures most { result ≤ most_rows }
    ensures within { place + result ≤ max place rows }
    ensures all { min (place + most_rows) rows ≤ place + result }
{
    if place < rows {
        MOST_ROWS.min(rows - place)
    } else {
        0
    }
}

/// Returns the answer about the first of the rows looked at that the query returns, if there is one.
fn first_told(limits: &Limits, tables: &Tables, walk: Walk, place: u64) -> Option<QueryResult>
    ensures { (J : History) (none : Told) → StandsFor tables.now.snapshot J → unwrap_or result none
        ≡ walks.first_some (walks.look limits.now J walk) none place most_rows }
{
    let rows = count_rows(tables, walk);
    for n in 0..count_looked(rows, place) {
        let told = look(limits, tables, walk, place + n);
        if told.is_some() {
            return told;
        }
    }
    None
}

/// Returns the answer where the query returns no row from any place on.
fn last_of(walk: Walk) -> QueryResult
    ensures { result ≡ walks.last_of walk }
{
    match walk {
        Walk::Awaited { .. } => QueryResult::AwaitsNothing,
        Walk::Listed { .. } => QueryResult::NoMore,
    }
}

/// Returns where to go on from a place, of so many rows, unless all of them were looked at.
fn next_of(rows: u64, place: u64) -> Option<u64>
    ensures { result ≡ next_of rows place }
{
    match place.checked_add(MOST_ROWS) {
        Some(next) if next < rows => Some(next),
        _ => None,
    }
}

/// Returns the answer where the query returns none of the rows looked at, of so many.
fn none_told(last: QueryResult, rows: u64, place: u64) -> QueryResult
    ensures { result ≡ walks.none_told last rows place }
{
    match next_of(rows, place) {
        Some(next) => QueryResult::Further(next),
        None => last,
    }
}

/// Returns the answer to a query from a place on.
pub(crate) fn tell_from(limits: &Limits, tables: &Tables, walk: Walk, place: u64) -> QueryResult
    ensures { (J : History) → StandsFor tables.now.snapshot J → walks.IsTold limits.now J walk place result }
{
    let none = none_told(last_of(walk), count_rows(tables, walk), place);
    first_told(limits, tables, walk, place).unwrap_or(none)
}

/// Returns 1 where something is so, and else 0.
fn one_if(is_so: bool) -> u64
    ensures count { result ≡ cond is_so 1 0 }
    ensures most { result ≤ 1 }
{
    if is_so { 1 } else { 0 }
}

/// Counts the rows looked at that belong to a listing.
fn count_belonging(limits: &Limits, tables: &Tables, listing: Listing, place: u64) -> u64
    ensures { (J : History) → StandsFor tables.now.snapshot J → result ≡ length
        (filter (belongs listing) (looked_at (rows_along limits.now J listing) place)) }
{
    let rows = count_listed(tables, listing);
    let mut count = 0;
    for n in 0..count_looked(rows, place) {
        let told = look_listed(limits, tables, listing, place + n);
        count += one_if(told.is_some());
    }
    count
}

/// Returns how many rows there are of a listing, of those looked at from a place on.
pub(crate) fn count_from(
    limits: &Limits,
    tables: &Tables,
    listing: Listing,
    place: u64,
) -> QueryResult
    ensures { (J : History) → StandsFor tables.now.snapshot J → result ≡ count_from limits.now J listing place }
{
    let next = next_of(count_listed(tables, listing), place);
    QueryResult::Counted {
        count: count_belonging(limits, tables, listing, place),
        next,
    }
}
