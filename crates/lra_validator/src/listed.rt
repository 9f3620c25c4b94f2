//! The rows of listings.

ghost use Rattle.std.specs.Prelude.{◌≡◌, ◌<◌, ◌-◌, ◌^◌};
ghost use Rattle.lra_model.specs.History.{History};
ghost use Rattle.lra_laws.specs.Snapshots.{StandsFor};
ghost use Rattle.lra_commands.specs.Queries as queries;
ghost use Rattle.lra_validator.specs.inner.Listed as listed;

use lra_commands::{Limits, Listing, QueryResult, Row, Want};
use lra_tables::{MemberRow, Tables};

/// Returns what a member wants to be asked next, with its repeats so far and the moment when it is due.
fn want_in(limits: &Limits, found: &MemberRow) -> Option<Want>
    ensures { result ≡ listed.want_in limits.now found.now }
{
    match found.want {
        Some(kind) => Some(Want {
            kind,
            repeats: found.k,
            due: limits.due_after(found.k, found.last),
        }),
        None => None,
    }
}

/// Returns the row of a member, if it is there.
fn member_row(limits: &Limits, tables: &Tables, member: u64) -> Option<Row>
    ensures { (J : History) → StandsFor tables.now.snapshot J → result ≡ listed.member_found limits.now J member }
{
    let found = tables.member(member)?;
    Some(Row::Member {
        member,
        status: found.status,
        ask: found.outstanding,
        want: want_in(limits, &found),
    })
}

/// Returns the row of an action, if it is there.
fn action_row(tables: &Tables, action: u64) -> Option<Row>
    ensures { (J : History) → StandsFor tables.now.snapshot J → result ≡ listed.action_found J action }
{
    let found = tables.action(action)?;
    Some(Row::Action {
        action,
        status: found.status,
        parent: found.parent,
    })
}

/// Returns the number of rows that a listing goes along.
pub(crate) fn count_listed(tables: &Tables, listing: Listing) -> u64
    ensures { (J : History) → StandsFor tables.now.snapshot J → result ≡ listed.count_listed J listing }
{
    match listing {
        Listing::Members { action } => tables.members(action).len() as u64,
        Listing::Nested { action } => tables.children(action).len() as u64,
        Listing::Actions { .. } => tables.count_actions(),
    }
}

/// Returns the row at a place, if there is one: of all actions, that of the number after it.
fn row_at(limits: &Limits, tables: &Tables, listing: Listing, place: u64) -> Option<Row>
    requires { place < 2 ^ 64 - 1 }
    ensures { (J : History) → StandsFor tables.now.snapshot J → result ≡ listed.row_at limits.now J listing place }
{
    match listing {
        Listing::Members { action } => {
            let member = tables.members(action).get(place as usize)?;
            member_row(limits, tables, *member)
        }
        Listing::Nested { action } => {
            let nested = tables.children(action).get(place as usize)?;
            action_row(tables, *nested)
        }
        Listing::Actions { .. } => action_row(tables, place + 1),
    }
}

/// Returns whether a row belongs to a listing that goes along it.
fn belongs(listing: Listing, row: Row) -> bool
    ensures { result ≡ queries.belongs listing row }
{
    match (listing, row) {
        (
            Listing::Actions {
                status: Some(status),
            },
            Row::Action { status: now, .. },
        ) => status.is_same(now),
        _ => true,
    }
}

/// Returns the answer about the row at a place, if there is one and it belongs to the listing.
pub(crate) fn look_listed(
    limits: &Limits,
    tables: &Tables,
    listing: Listing,
    place: u64,
) -> Option<QueryResult>
    requires { place < 2 ^ 64 - 1 }
    ensures { (J : History) → StandsFor tables.now.snapshot J → result ≡ listed.look_listed limits.now J listing place }
{
    let row = row_at(limits, tables, listing, place)?;
    if belongs(listing, row) {
        Some(QueryResult::Row { place, row })
    } else {
        None
    }
}
