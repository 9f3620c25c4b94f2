//! Lists and actions in JSON.

ghost use Rattle.std.specs.Prelude.{◌≡◌, ◌++◌, OnOk, true};
ghost use Rattle.lra_overview.specs.Lists as lists;

use crate::attempts::{Line, Tried};
use crate::gather::{ActionRow, Waiting};
use crate::laying::{put, put_json};
use crate::names::Names;
use crate::pieces::Piece;
use lra_commands::{Blocker, Want};
use lra_model::Memory;
use std::alloc::Global;

/// Adds an identifier in quotes, or null.
fn put_maybe(page: &mut Vec<u8>, names: &Names<'_>, number: Option<u64>) -> Result<(), Memory>
    ensures { OnOk result (page.new.items ≡ page.old.items ++ lists.maybe names.now.instance number) }
{
    match number {
        Some(number) => {
            let pieces = [Piece::Own("\""), Piece::Id(number), Piece::Own("\"")];
            names.put_all(page, &pieces)
        }
        None => names.put_all(page, &[Piece::Own("null")]),
    }
}

/// Adds an action of a list.
fn put_row(page: &mut Vec<u8>, names: &Names<'_>, row: &ActionRow) -> Result<(), Memory>
    ensures { OnOk result (page.new.items ≡ page.old.items ++ lists.row names.now.instance row.now) }
{
    let pieces = [
        Piece::Own("{\"action\":\""),
        Piece::Id(row.action),
        Piece::Own("\",\"status\":\""),
        Piece::Action(row.status),
        Piece::Own("\",\"parent\":"),
    ];
    names.put_all(page, &pieces)?;
    put_maybe(page, names, row.parent)?;
    names.put_all(page, &[Piece::Own("}")])
}

/// Adds the separator before a row.
fn put_before(page: &mut Vec<u8>, names: &Names<'_>, is_first: bool) -> Result<(), Memory>
    ensures { OnOk result (page.new.items ≡ page.old.items ++ lists.before is_first) }
{
    if is_first {
        names.put_all(page, &[Piece::Own("\n ")])
    } else {
        names.put_all(page, &[Piece::Own(",\n ")])
    }
}

/// Adds the actions of a list.
fn put_rows(page: &mut Vec<u8>, names: &Names<'_>, rows: &[ActionRow]) -> Result<(), Memory>
    ensures { OnOk result (page.new.items ≡ page.old.items ++ lists.rows names.now.instance true rows.now) }
{
    let mut is_first = true;
    for row in rows {
        put_before(page, names, is_first)?;
        put_row(page, names, row)?;
        is_first = false;
    }
    Ok(())
}

/// Adds what a member is to be asked next, or null.
fn put_want(page: &mut Vec<u8>, names: &Names<'_>, want: Option<Want>) -> Result<(), Memory>
    ensures { OnOk result (page.new.items ≡ page.old.items ++ lists.want want) }
{
    match want {
        None => names.put_all(page, &[Piece::Own("null")]),
        Some(want) => {
            let pieces = [
                Piece::Own("{\"kind\":\""),
                Piece::Kind(want.kind),
                Piece::Own("\",\"repeats\":"),
                Piece::Number(want.repeats),
                Piece::Own(",\"due\":"),
                Piece::Number(want.due),
                Piece::Own("}"),
            ];
            names.put_all(page, &pieces)
        }
    }
}

/// Adds a number, or null.
fn put_number_if(page: &mut Vec<u8>, names: &Names<'_>, number: Option<u64>) -> Result<(), Memory>
    ensures { OnOk result (page.new.items ≡ page.old.items ++ lists.number number) }
{
    match number {
        Some(number) => names.put_all(page, &[Piece::Number(number)]),
        None => names.put_all(page, &[Piece::Own("null")]),
    }
}

/// Adds the last callback of a member that didn't bring it further, or null.
fn put_last(page: &mut Vec<u8>, names: &Names<'_>, tried: &Option<Tried>) -> Result<(), Memory>
    ensures { OnOk result (page.new.items ≡ page.old.items ++ lists.last tried.now) }
{
    match tried {
        None => names.put_all(page, &[Piece::Own("null")]),
        Some(tried) => {
            let pieces = [
                Piece::Own("{\"address\":"),
                Piece::Quoted(tried.address.as_str()),
                Piece::Own(",\"reply\":"),
                Piece::Quoted(tried.words.as_str()),
                Piece::Own(",\"moment\":"),
                Piece::Number(tried.moment),
                Piece::Own("}"),
            ];
            names.put_all(page, &pieces)
        }
    }
}

/// Adds a member.
fn put_member(page: &mut Vec<u8>, names: &Names<'_>, line: &Line) -> Result<(), Memory>
    ensures { OnOk result (page.new.items ≡ page.old.items ++ lists.member names.now.instance line.now) }
{
    let member = line.row;
    let pieces = [
        Piece::Own("{\"member\":\""),
        Piece::Id(member.member),
        Piece::Own("\",\"status\":\""),
        Piece::Member(member.status),
        Piece::Own("\",\"ask\":"),
    ];
    names.put_all(page, &pieces)?;
    put_number_if(page, names, member.ask)?;
    names.put_all(page, &[Piece::Own(",\"next\":")])?;
    put_want(page, names, member.want)?;
    names.put_all(page, &[Piece::Own(",\"last\":")])?;
    put_last(page, names, &line.tried)?;
    names.put_all(page, &[Piece::Own("}")])
}

/// Adds the members of an action.
fn put_members(page: &mut Vec<u8>, names: &Names<'_>, members: &[Line]) -> Result<(), Memory>
    ensures { OnOk result (page.new.items ≡ page.old.items ++ lists.members names.now.instance true members.now) }
{
    let mut is_first = true;
    for member in members {
        put_before(page, names, is_first)?;
        put_member(page, names, member)?;
        is_first = false;
    }
    Ok(())
}

/// Adds what an action waits for, or null.
fn put_awaited(
    page: &mut Vec<u8>,
    names: &Names<'_>,
    awaited: &Option<Blocker>,
) -> Result<(), Memory>
    ensures { OnOk result (page.new.items ≡ page.old.items ++ lists.awaited names.now.instance awaited.now) }
{
    match awaited {
        None => names.put_all(page, &[Piece::Own("null")]),
        Some(Blocker::Member { member, ask: _ }) => {
            let pieces = [
                Piece::Own("{\"member\":\""),
                Piece::Id(*member),
                Piece::Own("\"}"),
            ];
            names.put_all(page, &pieces)
        }
        Some(Blocker::Action { action }) => {
            let pieces = [
                Piece::Own("{\"action\":\""),
                Piece::Id(*action),
                Piece::Own("\"}"),
            ];
            names.put_all(page, &pieces)
        }
    }
}

/// Adds a page of a list of actions, with the action to go on from, if there may be more.
pub fn put_actions(
    page: &mut Vec<u8>,
    names: &Names<'_>,
    rows: &[ActionRow],
    next: Option<u64>,
) -> Result<(), Memory>
    ensures { OnOk result (page.new.items ≡ page.old.items ++ lists.actions names.now.instance rows.now next) }
{
    names.put_all(page, &[Piece::Own("{\"actions\":[")])?;
    put_rows(page, names, rows)?;
    names.put_all(page, &[Piece::Own("],\"next\":")])?;
    put_maybe(page, names, next)?;
    names.put_all(page, &[Piece::Own("}\n")])
}

/// Adds the fields of an action that stand before its members.
fn put_head(page: &mut Vec<u8>, names: &Names<'_>, waiting: &Waiting) -> Result<(), Memory>
    ensures { OnOk result (page.new.items ≡ page.old.items ++ lists.head names.now.instance waiting.now) }
{
    let pieces = [
        Piece::Own("{\"action\":\""),
        Piece::Id(waiting.row.action),
        Piece::Own("\",\"status\":\""),
        Piece::Action(waiting.row.status),
        Piece::Own("\",\"parent\":"),
    ];
    names.put_all(page, &pieces)?;
    put_maybe(page, names, waiting.row.parent)?;
    names.put_all(page, &[Piece::Own(",\"awaits\":")])?;
    put_awaited(page, names, &waiting.awaited)
}

/// Adds whether there may be more than is shown, and the object's end.
fn put_cut(page: &mut Vec<u8>, names: &Names<'_>, is_cut: bool) -> Result<(), Memory>
    ensures { OnOk result (page.new.items ≡ page.old.items ++ lists.cut is_cut) }
{
    if is_cut {
        names.put_all(page, &[Piece::Own("],\"cut\":true}\n")])
    } else {
        names.put_all(page, &[Piece::Own("],\"cut\":false}\n")])
    }
}

/// Adds an action, with its members, its nested actions and what it waits for.
pub fn put_action(
    page: &mut Vec<u8>,
    names: &Names<'_>,
    waiting: &Waiting,
    members: &[Line],
    nested: &[ActionRow],
    is_cut: bool,
) -> Result<(), Memory>
    ensures { OnOk result (page.new.items ≡ page.old.items ++ lists.action names.now.instance waiting.now members.now
        nested.now is_cut) }
{
    put_head(page, names, waiting)?;
    names.put_all(page, &[Piece::Own(",\"members\":[")])?;
    put_members(page, names, members)?;
    names.put_all(page, &[Piece::Own("],\"nested\":[")])?;
    put_rows(page, names, nested)?;
    put_cut(page, names, is_cut)
}

/// Adds an object of one text under a key that is a word.
pub fn put_text(
    alloc: Global,
    page: &mut Vec<u8>,
    key: &'static str,
    text: &str,
) -> Result<(), Memory>
    ensures { OnOk result (page.new.items ≡ page.old.items ++ lists.text_object key.now text.now) }
{
    put(page, "{\"")?;
    put(page, key)?;
    put(page, "\":")?;
    put_json(alloc, page, text)?;
    put(page, "}\n")
}
