//! The queries of a coordinator, which write nothing, and their results.

ghost use Rattle.std.specs.Prelude.{◌≡◌};
ghost use Rattle.lra_commands.specs.Queries.{told_as};

use crate::command::Told;
use lra_model::{ActionStatus, AskKind, MemberStatus};

/// A query of a coordinator. It is no command: it names no clerk and no moment, writes nothing and takes no memory of
/// the coordinator, and it isn't refused where there is no room.
#[derive(Clone, Copy, Debug, PartialEq, Eq)]
pub enum Query {
    /// An action's status.
    ActionStatus { action: u64 },
    /// A member's status.
    MemberStatus { member: u64 },
    /// The first row that an action waits for. An action's rows are its members and then the actions nested directly in
    /// it, those that came first before the others; the place of the first is 0. At most 256 of them are looked at,
    /// from this place on.
    Awaited { action: u64, place: u64 },
    /// The next row of a listing. The place of the first is 0. At most 256 rows are looked at, from this place on, so
    /// that a page is this query asked again, each time from the place after the one that it returned.
    Row { of: Listing, place: u64 },
    /// The number of rows that belong to a listing. At most 256 are looked at, from this place on, so that a count of
    /// all is the sum of what this query returns, each time from where to go on.
    Count { of: Listing, place: u64 },
}

/// Rows of a coordinator's history, those that came first before the others.
#[derive(Clone, Copy, Debug, PartialEq, Eq)]
pub enum Listing {
    /// An action's members, those that left among them.
    Members { action: u64 },
    /// The actions nested directly in an action.
    Nested { action: u64 },
    /// All actions, or those alone that have a status. The place of each is its number less one, whether or not it is
    /// returned.
    Actions { status: Option<ActionStatus> },
}

/// A row of a listing.
#[derive(Clone, Copy, Debug, PartialEq, Eq)]
pub enum Row {
    /// A member, its status, the ask of it that is outstanding, if one is, and else what it is to be asked, if
    /// anything.
    Member {
        member: u64,
        status: MemberStatus,
        ask: Option<u64>,
        want: Option<Want>,
    },
    /// An action, its status, and the action that it is nested in, if it is.
    Action {
        action: u64,
        status: ActionStatus,
        parent: Option<u64>,
    },
}

/// The kind of ask that a member wants next, its repeats, and when it is due.
#[derive(Clone, Copy, Debug, PartialEq, Eq)]
pub struct Want {
    pub kind: AskKind,
    /// The number of attempts: each was answered that the member goes on, or not at all.
    pub repeats: u64,
    /// The moment from which on it is asked, in milliseconds: 0 where it is at once.
    pub due: u64,
}

/// The blocker of an action's end: a row that the end waits for.
#[derive(Clone, Copy, Debug, PartialEq, Eq)]
pub enum Blocker {
    /// A member that isn't done, and the ask of it that is outstanding, if one is.
    Member { member: u64, ask: Option<u64> },
    /// An action nested directly in it that hasn't ended.
    Action { action: u64 },
}

/// The result of a query of the coordinator's history.
#[derive(Clone, Copy, Debug, PartialEq, Eq)]
pub enum QueryResult {
    /// The action's status.
    ActionIs(ActionStatus),
    /// The member's status.
    MemberIs(MemberStatus),
    /// The first of the rows looked at that holds the action's end, and its place.
    Awaits { place: u64, awaited: Blocker },
    /// None of the rows looked at is returned, and there are more from this place on.
    Further(u64),
    /// No row from the place on holds the action's end.
    AwaitsNothing,
    /// The first of the rows looked at that belongs to the listing, and its place.
    Row { place: u64, row: Row },
    /// The listing has no row from the place on.
    NoMore,
    /// The number of the rows looked at that belong to the listing, and the place to go on from, if there are more
    /// rows.
    Counted { count: u64, next: Option<u64> },
}

impl QueryResult {
    /// Returns the same as a command's answer. No command returns rows or how many there are: there it is `Idle`.
    pub const fn told(self) -> Told
        ensures { result ≡ told_as self }
    {
        match self {
            QueryResult::ActionIs(status) => Told::ActionIs(status),
            QueryResult::MemberIs(status) => Told::MemberIs(status),
            QueryResult::Awaits { .. } => Told::Idle,
            QueryResult::Further(_) => Told::Idle,
            QueryResult::AwaitsNothing => Told::Idle,
            QueryResult::Row { .. } => Told::Idle,
            QueryResult::NoMore => Told::Idle,
            QueryResult::Counted { .. } => Told::Idle,
        }
    }
}
