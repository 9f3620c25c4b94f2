//! The results of queries.

ghost use Rattle.std.specs.Prelude.{◌≡◌, Ok, Err};
ghost use Rattle.std.specs.Option.{option_map_or};
ghost use Rattle.lra_model.specs.History.{History, actions, members, is_among};
ghost use Rattle.lra_model.specs.Members.{member_status};
ghost use Rattle.lra_laws.specs.Snapshots.{StandsFor};
ghost use Rattle.lra_commands.specs.declared.query.QueryResult.TheVariants as known;
ghost use Rattle.lra_commands.specs.declared.refusal.Refusal.TheVariants as refusal;
ghost use Rattle.lra_commands.specs.Refusals.{status_at};
ghost use Rattle.lra_commands.specs.Queries.{awaited_from, count_from, is_listed, known_where, row_from, tell};

use crate::decision::Decision;
use crate::validator::Validator;
use crate::walk::{Walk, count_from, tell_from};
use lra_commands::{Limits, Listing, Query, QueryResult, Refusal};
use lra_tables::Tables;

/// Returns the status of an action.
fn action_is(tables: &Tables, action: u64) -> Result<QueryResult, Refusal>
    ensures { (J : History) → StandsFor tables.now.snapshot J → result ≡ known_where (is_among (actions J) action)
        (known.ActionIs (status_at J action)) refusal.NoSuchAction }
{
    match tables.action(action) {
        Some(row) => Ok(QueryResult::ActionIs(row.status)),
        None => Err(Refusal::NoSuchAction),
    }
}

/// Returns the status of a member.
fn member_is(tables: &Tables, member: u64) -> Result<QueryResult, Refusal>
    ensures { (J : History) → StandsFor tables.now.snapshot J → result ≡ known_where (is_among (members J) member)
        (known.MemberIs (member_status J member)) refusal.NoSuchMember }
{
    match tables.member(member) {
        Some(row) => Ok(QueryResult::MemberIs(row.status)),
        None => Err(Refusal::NoSuchMember),
    }
}

/// Returns what an action waits for, from a place on.
fn awaited(
    limits: &Limits,
    tables: &Tables,
    action: u64,
    place: u64,
) -> Result<QueryResult, Refusal>
    ensures { (J : History) → StandsFor tables.now.snapshot J → result ≡ known_where (is_among (actions J) action)
        (awaited_from J action place) refusal.NoSuchAction }
{
    match tables.action(action) {
        Some(row) => Ok(tell_from(
            limits,
            tables,
            Walk::Awaited {
                action,
                status: row.status,
            },
            place,
        )),
        None => Err(Refusal::NoSuchAction),
    }
}

/// Returns whether an action is there.
fn is_there(tables: &Tables, action: u64) -> bool
    ensures { (J : History) → StandsFor tables.now.snapshot J → result ≡ is_among (actions J) action }
{
    match tables.action(action) {
        Some(_) => true,
        None => false,
    }
}

/// Returns whether the action that a listing is of is there; true of the listing of all actions.
fn is_listed(tables: &Tables, listing: Listing) -> bool
    ensures { (J : History) → StandsFor tables.now.snapshot J → result ≡ is_listed J listing }
{
    match listing {
        Listing::Members { action } => is_there(tables, action),
        Listing::Nested { action } => is_there(tables, action),
        Listing::Actions { .. } => true,
    }
}

/// Returns the next row of a listing, from a place on.
fn next_row(
    limits: &Limits,
    tables: &Tables,
    listing: Listing,
    place: u64,
) -> Result<QueryResult, Refusal>
    ensures { (J : History) → StandsFor tables.now.snapshot J → result ≡ known_where (is_listed J listing)
        (row_from limits.now J listing place) refusal.NoSuchAction }
{
    if is_listed(tables, listing) {
        Ok(tell_from(limits, tables, Walk::Listed { listing }, place))
    } else {
        Err(Refusal::NoSuchAction)
    }
}

/// Returns how many rows of a listing there are, of those looked at from a place on.
fn count_rows(
    limits: &Limits,
    tables: &Tables,
    listing: Listing,
    place: u64,
) -> Result<QueryResult, Refusal>
    ensures { (J : History) → StandsFor tables.now.snapshot J → result ≡ known_where (is_listed J listing)
        (count_from limits.now J listing place) refusal.NoSuchAction }
{
    if is_listed(tables, listing) {
        Ok(count_from(limits, tables, listing, place))
    } else {
        Err(Refusal::NoSuchAction)
    }
}

/// Returns the answer to a query at the history that the tables stand for, where members are asked again by these
/// limits. This takes no memory.
pub fn tell(limits: &Limits, tables: &Tables, query: Query) -> Result<QueryResult, Refusal>
    ensures { (J : History) → StandsFor tables.now.snapshot J → result ≡ tell limits.now J query }
{
    match query {
        Query::ActionStatus { action } => action_is(tables, action),
        Query::MemberStatus { member } => member_is(tables, member),
        Query::Awaited { action, place } => awaited(limits, tables, action, place),
        Query::Row { of, place } => next_row(limits, tables, of, place),
        Query::Count { of, place } => count_rows(limits, tables, of, place),
    }
}

impl Validator<'_> {
    ghost use Rattle.std.specs.Prelude.{◌≡◌};
    ghost use Rattle.lra_model.specs.History.{History};
    ghost use Rattle.lra_laws.specs.Snapshots.{StandsFor};
    ghost use Rattle.lra_validator.specs.inner.Judged as judged;

    /// Decides on a command that only asks: returns the answer to its query.
    pub(crate) fn ask(&self, query: Query) -> Result<Decision, Refusal>
        ensures { (J : History) → StandsFor self.now.tables.now.snapshot J → result
            ≡ judged.ask self.now.terms.limits J self.now.by query }
    {
        self.require_clerk()?;
        let known = tell(&self.terms.limits, self.tables, query)?;
        Ok(Decision::Told(known.told()))
    }
}
