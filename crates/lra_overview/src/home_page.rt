//! The first page for a browser: counts by status, and actions, the oldest first.

ghost use Rattle.std.specs.Prelude.{◌≡◌, ◌++◌, OnOk};
ghost use Rattle.std.specs.List.{flat_map};
ghost use Rattle.lra_overview.specs.Pages as pages;

use crate::gather::Waiting;
use crate::names::Names;
use crate::overdue::Overdue;
use crate::page_parts::{Forms, begin, put_awaited, put_cancel, put_next_ask};
use crate::pieces::Piece;
use crate::shares::Share;
use lra_commands::Blocker;
use lra_model::{ActionStatus, Memory};

/// Adds how many actions have a status.
fn put_share(page: &mut Vec<u8>, names: &Names<'_>, share: &Share) -> Result<(), Memory>
    ensures { OnOk result (page.new.items ≡ page.old.items ++ pages.share share.now) }
{
    let pieces = [
        Piece::Own("<li><b>"),
        Piece::Number(share.count),
        Piece::Own("</b><a class=\""),
        Piece::Action(share.status),
        Piece::Own("\" href=\"/?state="),
        Piece::Action(share.status),
        Piece::Own("\">"),
        Piece::Action(share.status),
        Piece::Own("</a></li>\n"),
    ];
    names.put_all(page, &pieces)
}

/// Adds how many actions have each status.
fn put_shares(page: &mut Vec<u8>, names: &Names<'_>, shares: &[Share]) -> Result<(), Memory>
    ensures { OnOk result (page.new.items ≡ page.old.items ++ flat_map pages.share shares.now) }
{
    for share in shares {
        put_share(page, names, share)?;
    }
    Ok(())
}

/// Adds for how long an action has been there at least, if that is known.
fn put_age(page: &mut Vec<u8>, names: &Names<'_>, age: Option<u64>) -> Result<(), Memory>
    ensures { OnOk result (page.new.items ≡ page.old.items ++ pages.age age) }
{
    match age {
        None => Ok(()),
        Some(age) => names.put_all(page, &[Piece::Own("over "), Piece::Span(age)]),
    }
}

/// Returns the outstanding ask to the member that an action waits for, if there is one.
fn ask_in(awaited: &Option<Blocker>) -> Option<u64>
    ensures { result ≡ pages.ask_in awaited.now }
{
    match awaited {
        Some(Blocker::Member { member: _, ask }) => *ask,
        _ => None,
    }
}

/// Adds what an action waits for, if it hasn't ended.
fn put_waits(page: &mut Vec<u8>, names: &Names<'_>, waiting: &Waiting) -> Result<(), Memory>
    ensures { OnOk result (page.new.items ≡ page.old.items ++ pages.waits names.now.instance waiting.now) }
{
    match waiting.row.status {
        ActionStatus::Active | ActionStatus::Closing | ActionStatus::Cancelling => {
            put_awaited(page, names, &waiting.awaited)
        }
        _ => Ok(()),
    }
}

/// Adds what an action waits for, and when that is asked next. `ask` is the outstanding ask to it, if there is one.
fn put_asked_cells(
    page: &mut Vec<u8>,
    names: &Names<'_>,
    waiting: &Waiting,
    ask: Option<u64>,
) -> Result<(), Memory>
    ensures { OnOk result (page.new.items ≡ page.old.items ++ pages.asked_cells names.now.instance waiting.now ask) }
{
    put_waits(page, names, waiting)?;
    names.put_all(page, &[Piece::Own("</td><td data-is=\"next\">")])?;
    put_next_ask(page, names, ask, waiting.want, waiting.left)
}

/// Adds what an action waits for, and when that is asked next.
fn put_wait_cells(page: &mut Vec<u8>, names: &Names<'_>, waiting: &Waiting) -> Result<(), Memory>
    ensures { OnOk result (page.new.items ≡ page.old.items ++ pages.wait_cells names.now.instance waiting.now) }
{
    put_asked_cells(page, names, waiting, ask_in(&waiting.awaited))
}

/// Adds an action's line.
fn put_waiting(
    page: &mut Vec<u8>,
    names: &Names<'_>,
    forms: &Forms<'_>,
    waiting: &Waiting,
) -> Result<(), Memory>
    ensures { OnOk result (page.new.items ≡ page.old.items ++ pages.waiting names.now.instance forms.now.token.now
        forms.now.have_key waiting.now) }
{
    let opening = [
        Piece::Own("<tr><td><a href=\"/page/actions/"),
        Piece::Id(waiting.row.action),
        Piece::Own("\"><code>"),
        Piece::Id(waiting.row.action),
        Piece::Own("</code></a></td><td><span class=\""),
        Piece::Action(waiting.row.status),
        Piece::Own("\">"),
        Piece::Action(waiting.row.status),
        Piece::Own("</span></td><td data-is=\"there\">"),
    ];
    names.put_all(page, &opening)?;
    put_age(page, names, waiting.age)?;
    names.put_all(page, &[Piece::Own("</td><td data-is=\"waits for\">")])?;
    put_wait_cells(page, names, waiting)?;
    names.put_all(page, &[Piece::Own("</td><td>")])?;
    put_cancel(page, names, forms, waiting.row)?;
    names.put_all(page, &[Piece::Own("</td></tr>\n")])
}

/// Adds the lines of actions.
fn put_rows(
    page: &mut Vec<u8>,
    names: &Names<'_>,
    forms: &Forms<'_>,
    rows: &[Waiting],
) -> Result<(), Memory>
    ensures { OnOk result (page.new.items ≡ page.old.items ++ flat_map
        (pages.waiting names.now.instance forms.now.token.now forms.now.have_key) rows.now) }
{
    for row in rows {
        put_waiting(page, names, forms, row)?;
    }
    Ok(())
}

/// Adds a table of actions, for a list that isn't empty.
fn put_full_table(
    page: &mut Vec<u8>,
    names: &Names<'_>,
    forms: &Forms<'_>,
    rows: &[Waiting],
) -> Result<(), Memory>
    ensures { OnOk result (page.new.items ≡ page.old.items ++ pages.full_table names.now.instance forms.now.token.now
        forms.now.have_key rows.now) }
{
    names.put_all(
        page,
        &[
            Piece::Own("<table><thead><tr><th>Action</th><th>Status</th><th>There</th>"),
            Piece::Own("<th>Waits for</th><th>Next ask</th><th></th></tr></thead><tbody>\n"),
        ],
    )?;
    put_rows(page, names, forms, rows)?;
    names.put_all(page, &[Piece::Own("</tbody></table>\n")])
}

/// Adds the sentence that no action is listed.
fn put_no_rows(
    page: &mut Vec<u8>,
    names: &Names<'_>,
    state: Option<ActionStatus>,
) -> Result<(), Memory>
    ensures { OnOk result (page.new.items ≡ page.old.items ++ pages.no_rows state) }
{
    match state {
        None => names.put_all(page, &[Piece::Own("<p>All actions have ended.</p>\n")]),
        Some(_) => names.put_all(page, &[Piece::Own("<p>None.</p>\n")]),
    }
}

/// Adds a table of actions, or the sentence that there are none.
fn put_table(
    page: &mut Vec<u8>,
    names: &Names<'_>,
    forms: &Forms<'_>,
    state: Option<ActionStatus>,
    rows: &[Waiting],
) -> Result<(), Memory>
    ensures { OnOk result (page.new.items ≡ page.old.items ++ pages.table names.now.instance forms.now.token.now
        forms.now.have_key state rows.now) }
{
    if rows.is_empty() {
        put_no_rows(page, names, state)
    } else {
        put_full_table(page, names, forms, rows)
    }
}

/// Adds a link to the actions that follow, if there may be more.
fn put_next(
    page: &mut Vec<u8>,
    names: &Names<'_>,
    state: Option<ActionStatus>,
    next: Option<u64>,
) -> Result<(), Memory>
    ensures { OnOk result (page.new.items ≡ page.old.items ++ pages.next names.now.instance state next) }
{
    match (next, state) {
        (None, _) => Ok(()),
        (Some(action), None) => {
            let pieces = [
                Piece::Own("<p><a href=\"/?from="),
                Piece::Id(action),
                Piece::Own("\">Those after these</a></p>\n"),
            ];
            names.put_all(page, &pieces)
        }
        (Some(action), Some(status)) => {
            let pieces = [
                Piece::Own("<p><a href=\"/?state="),
                Piece::Action(status),
                Piece::Own("&amp;from="),
                Piece::Id(action),
                Piece::Own("\">Those after these</a></p>\n"),
            ];
            names.put_all(page, &pieces)
        }
    }
}

/// Adds how many members hold up ends.
fn put_overdue(page: &mut Vec<u8>, names: &Names<'_>, overdue: &Overdue) -> Result<(), Memory>
    ensures { OnOk result (page.new.items ≡ page.old.items ++ pages.overdue overdue.now) }
{
    let pieces = [
        Piece::Own("</ul>\n<p>Members that hold up ends: "),
        Piece::Number(overdue.silent),
        Piece::Own(" silent, "),
        Piece::Number(overdue.waiting),
        Piece::Own(" to be asked by now, "),
        Piece::Number(overdue.at_it),
        Piece::Own(" at it</p>\n"),
    ];
    names.put_all(page, &pieces)
}

/// Adds the heading that says which actions are listed.
fn put_title(
    page: &mut Vec<u8>,
    names: &Names<'_>,
    state: Option<ActionStatus>,
) -> Result<(), Memory>
    ensures { OnOk result (page.new.items ≡ page.old.items ++ pages.title state) }
{
    match state {
        None => names.put_all(
            page,
            &[Piece::Own("<h2>Not ended, the oldest first</h2>\n")],
        ),
        Some(status) => {
            let pieces = [
                Piece::Own("<h2>"),
                Piece::Action(status),
                Piece::Own(
                    ", the oldest first</h2>\n<p><a href=\"/\">Those that have not ended</a></p>\n",
                ),
            ];
            names.put_all(page, &pieces)
        }
    }
}

/// Content of the first page.
#[derive(Clone, Copy)]
pub struct Home<'a> {
    /// Numbers of actions that have each status, and of members that hold up ends.
    pub shares: &'a [Share],
    pub overdue: Overdue,
    /// Status of the listed actions, or none if they are those that haven't ended.
    pub state: Option<ActionStatus>,
    /// Listed actions, and the action to go on from, if there may be more.
    pub rows: &'a [Waiting],
    pub next: Option<u64>,
}

/// Adds the counts of the first page, and the heading of its list.
fn put_counts(page: &mut Vec<u8>, names: &Names<'_>, home: &Home<'_>) -> Result<(), Memory>
    ensures { OnOk result (page.new.items ≡ page.old.items ++ pages.counts home.now) }
{
    names.put_all(page, &[Piece::Own("<ul class=\"counts\">\n")])?;
    put_shares(page, names, home.shares)?;
    put_overdue(page, names, &home.overdue)?;
    put_title(page, names, home.state)
}

/// Adds the first page: counts by status, and the actions that haven't ended, or those of a status, the oldest first.
pub fn put_home(
    page: &mut Vec<u8>,
    names: &Names<'_>,
    forms: &Forms<'_>,
    home: &Home<'_>,
) -> Result<(), Memory>
    ensures { OnOk result (page.new.items ≡ page.old.items ++ pages.home names.now.instance names.now.base.now
        forms.now.token.now forms.now.have_key home.now) }
{
    begin(page, names)?;
    put_counts(page, names, home)?;
    put_table(page, names, forms, home.state, home.rows)?;
    put_next(page, names, home.state, home.next)?;
    names.put_all(page, &[Piece::Own("</main></body></html>\n")])
}
