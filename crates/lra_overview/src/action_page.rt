//! An action's page for a browser: its status, its tree, and its members, with the outcomes of their last callbacks.

ghost use Rattle.std.specs.Prelude.{◌≡◌, ◌++◌, OnOk};
ghost use Rattle.std.specs.List.{flat_map};
ghost use Rattle.lra_overview.specs.Pages as pages;

use crate::attempts::{Line, Tried};
use crate::gather::{MemberRow, Waiting};
use crate::names::Names;
use crate::page_parts::{Forms, begin, put_awaited, put_cancel, put_fields, put_next_ask};
use crate::pieces::Piece;
use crate::svg::put_tree;
use crate::tree::Node;
use lra_commands::{Blocker, Want};
use lra_model::{ActionStatus, MemberStatus, Memory};
use lra_outcomes::is_telling;

/// Adds a form that gives a member up, with a question and the word for how the member ends.
fn put_give_up_form(
    page: &mut Vec<u8>,
    names: &Names<'_>,
    token: &str,
    member: u64,
    question: &'static str,
    ending: &'static str,
) -> Result<(), Memory>
    ensures { OnOk result (page.new.items ≡ page.old.items ++ pages.give_up_form names.now.instance token.now member
        question.now ending.now) }
{
    let opening = [
        Piece::Own("<details><summary>Give up</summary><form method=\"post\" action=\"/members/"),
        Piece::Id(member),
        Piece::Own("/give-up\">"),
        Piece::Own(question),
    ];
    names.put_all(page, &opening)?;
    put_fields(page, names, token, true)?;
    let closing = [
        Piece::Own("<input type=\"hidden\" name=\"status\" value=\""),
        Piece::Own(ending),
        Piece::Own("\"><button>Yes, give up</button></form></details>"),
    ];
    names.put_all(page, &closing)
}

/// Question that asks an operator to confirm giving up a member whose end is awaited.
const AS_FAILED: &str = "Have it count as failed for good?";

/// Question that asks an operator to confirm giving up a member that is only to be told how its action ended.
const AS_TOLD: &str = "Tell it no more how its action ended?";

/// Adds a form that gives a member up, if its status says that it is being asked to end.
fn put_give_up_at(
    page: &mut Vec<u8>,
    names: &Names<'_>,
    token: &str,
    member: u64,
    status: MemberStatus,
) -> Result<(), Memory>
    ensures { OnOk result (page.new.items ≡ page.old.items ++ pages.give_up_at names.now.instance token.now member
        status) }
{
    match status {
        MemberStatus::Completing => {
            put_give_up_form(page, names, token, member, AS_FAILED, "FailedToComplete")
        }
        MemberStatus::Compensating => {
            put_give_up_form(page, names, token, member, AS_FAILED, "FailedToCompensate")
        }
        _ => Ok(()),
    }
}

/// Returns whether a member is only to be told how its action ended.
fn wants_telling(want: Option<Want>) -> bool
    ensures { result ≡ pages.wants_telling want }
{
    match want {
        Some(want) => is_telling(want.kind),
        None => false,
    }
}

/// Adds a form that gives a member up, if it is being asked to end, or is only to be told how its action ended.
#[tactic(auto, unfolding(crate::specs::Pages::told_form))]
fn put_give_up_where_asked(
    page: &mut Vec<u8>,
    names: &Names<'_>,
    token: &str,
    row: MemberRow,
) -> Result<(), Memory>
    ensures { OnOk result (page.new.items ≡ page.old.items ++ pages.give_up_where_asked names.now.instance token.now
        row) }
{
    if wants_telling(row.want) {
        put_give_up_form(page, names, token, row.member, AS_TOLD, "Ended")
    } else {
        put_give_up_at(page, names, token, row.member, row.status)
    }
}

/// Adds a form that gives a member up, if there is a key.
fn put_give_up(
    page: &mut Vec<u8>,
    names: &Names<'_>,
    forms: &Forms<'_>,
    row: MemberRow,
) -> Result<(), Memory>
    ensures { OnOk result (page.new.items ≡ page.old.items ++ pages.give_up names.now.instance forms.now.token.now
        forms.now.have_key row) }
{
    if forms.have_key {
        put_give_up_where_asked(page, names, forms.token, row)
    } else {
        Ok(())
    }
}

/// Adds the outcome of a member's last callback, and its address.
fn put_tried(page: &mut Vec<u8>, names: &Names<'_>, tried: &Option<Tried>) -> Result<(), Memory>
    ensures { OnOk result (page.new.items ≡ page.old.items ++ pages.tried tried.now) }
{
    match tried {
        None => Ok(()),
        Some(tried) => {
            let pieces = [
                Piece::Told(tried.words.as_str()),
                Piece::Own(", "),
                Piece::Span(tried.age),
                Piece::Own(" ago<br><code>"),
                Piece::Told(tried.address.as_str()),
                Piece::Own("</code>"),
            ];
            names.put_all(page, &pieces)
        }
    }
}

/// Adds a member's line in the table of members.
fn put_member(
    page: &mut Vec<u8>,
    names: &Names<'_>,
    forms: &Forms<'_>,
    line: &Line,
) -> Result<(), Memory>
    ensures { OnOk result (page.new.items ≡ page.old.items ++ pages.line names.now.instance forms.now.token.now
        forms.now.have_key line.now) }
{
    let row = line.row;
    let opening = [
        Piece::Own("<tr><td><code>"),
        Piece::Id(row.member),
        Piece::Own("</code></td><td><span class=\""),
        Piece::Member(row.status),
        Piece::Own("\">"),
        Piece::Member(row.status),
        Piece::Own("</span></td><td data-is=\"next\">"),
    ];
    names.put_all(page, &opening)?;
    put_next_ask(page, names, row.ask, row.want, line.left)?;
    names.put_all(page, &[Piece::Own("</td><td data-is=\"last\">")])?;
    put_tried(page, names, &line.tried)?;
    names.put_all(page, &[Piece::Own("</td><td>")])?;
    put_give_up(page, names, forms, row)?;
    names.put_all(page, &[Piece::Own("</td></tr>\n")])
}

/// Adds the lines of members.
fn put_lines(
    page: &mut Vec<u8>,
    names: &Names<'_>,
    forms: &Forms<'_>,
    lines: &[Line],
) -> Result<(), Memory>
    ensures { OnOk result (page.new.items ≡ page.old.items ++ flat_map
        (pages.line names.now.instance forms.now.token.now forms.now.have_key) lines.now) }
{
    for line in lines {
        put_member(page, names, forms, line)?;
    }
    Ok(())
}

/// Adds a table of the members of a tree, after its picture, and the page's end.
fn put_members(
    page: &mut Vec<u8>,
    names: &Names<'_>,
    forms: &Forms<'_>,
    lines: &[Line],
) -> Result<(), Memory>
    ensures { OnOk result (page.new.items ≡ page.old.items ++ pages.members names.now.instance forms.now.token.now
        forms.now.have_key lines.now) }
{
    names.put_all(
        page,
        &[
            Piece::Own(
                "</div>\n<h2>Members</h2>\n<table><thead><tr><th>Member</th><th>Status</th>",
            ),
            Piece::Own("<th>Next ask</th><th>Last reply</th><th></th></tr></thead><tbody>\n"),
        ],
    )?;
    put_lines(page, names, forms, lines)?;
    names.put_all(
        page,
        &[Piece::Own("</tbody></table>\n</main></body></html>\n")],
    )
}

/// Adds what an action waits for, after its status.
fn put_open_end(
    page: &mut Vec<u8>,
    names: &Names<'_>,
    awaited: &Option<Blocker>,
) -> Result<(), Memory>
    ensures { OnOk result (page.new.items ≡ page.old.items ++ pages.open_end names.now.instance awaited.now) }
{
    names.put_all(page, &[Piece::Own(", waits for ")])?;
    put_awaited(page, names, awaited)
}

/// Adds what an action waits for, if it hasn't ended.
fn put_wait(page: &mut Vec<u8>, names: &Names<'_>, waiting: &Waiting) -> Result<(), Memory>
    ensures { OnOk result (page.new.items ≡ page.old.items ++ pages.wait names.now.instance waiting.now) }
{
    match waiting.row.status {
        ActionStatus::Active | ActionStatus::Closing | ActionStatus::Cancelling => {
            put_open_end(page, names, &waiting.awaited)
        }
        _ => Ok(()),
    }
}

/// Adds the heading of an action: its identifier, its status and what it waits for.
fn put_heading(page: &mut Vec<u8>, names: &Names<'_>, waiting: &Waiting) -> Result<(), Memory>
    ensures { OnOk result (page.new.items ≡ page.old.items ++ pages.heading names.now.instance waiting.now) }
{
    let opening = [
        Piece::Own("<h2>Action <code>"),
        Piece::Id(waiting.row.action),
        Piece::Own("</code></h2>\n<p><span class=\""),
        Piece::Action(waiting.row.status),
        Piece::Own("\">"),
        Piece::Action(waiting.row.status),
        Piece::Own("</span>"),
    ];
    names.put_all(page, &opening)?;
    put_wait(page, names, waiting)?;
    names.put_all(page, &[Piece::Own("</p>\n")])
}

/// Adds the action that an action is nested in, if there is one.
fn put_parent(page: &mut Vec<u8>, names: &Names<'_>, parent: Option<u64>) -> Result<(), Memory>
    ensures { OnOk result (page.new.items ≡ page.old.items ++ pages.parent names.now.instance parent) }
{
    match parent {
        None => Ok(()),
        Some(parent) => {
            let pieces = [
                Piece::Own("<p>Nested in <a href=\"/page/actions/"),
                Piece::Id(parent),
                Piece::Own("\"><code>"),
                Piece::Id(parent),
                Piece::Own("</code></a></p>\n"),
            ];
            names.put_all(page, &pieces)
        }
    }
}

/// Adds an action's page: its status, its tree, and the members of all actions that are shown.
pub fn put_action_page(
    page: &mut Vec<u8>,
    names: &Names<'_>,
    forms: &Forms<'_>,
    waiting: &Waiting,
    nodes: &[Node],
    lines: &[Line],
) -> Result<(), Memory>
    ensures { OnOk result (page.new.items ≡ page.old.items ++ pages.action names.now.instance names.now.base.now
        forms.now.token.now forms.now.have_key waiting.now nodes.now lines.now) }
{
    begin(page, names)?;
    put_heading(page, names, waiting)?;
    put_parent(page, names, waiting.row.parent)?;
    put_cancel(page, names, forms, waiting.row)?;
    names.put_all(page, &[Piece::Own("<h2>Tree</h2>\n<div class=\"tree\">")])?;
    put_tree(page, names, nodes)?;
    put_members(page, names, forms, lines)
}
