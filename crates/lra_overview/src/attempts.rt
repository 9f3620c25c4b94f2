//! Members, and the outcomes of the last callbacks of those that wait.

ghost use Rattle.std.specs.Prelude.{◌≡◌, ◌++◌, OnOk, IfOk};
ghost use Rattle.lra_overview.specs.Standings.{member_at, members_of};

use crate::faults::Trouble;
use crate::gather::MemberRow;
use crate::laying::left_until;
use crate::overview::Overview;
use crate::tree::{Node, NodeOf};
use lra_ids::Instance;
use lra_model::Memory;
use lra_outcomes::{Attempt, Reply, put_words};
use std::alloc::{AllocError, Global};

/// Last callback of a member that didn't bring it further, as it is reported.
#[derive(Drop)]
pub struct Tried {
    /// Address that was called.
    pub address: String,
    /// Outcome of the callback, in words.
    pub words: String,
    /// Moment of the outcome, and how many milliseconds ago that was.
    pub moment: u64,
    pub age: u64,
}

/// Member, and its last callback, if one is remembered.
#[derive(Drop)]
pub struct Line {
    pub row: MemberRow,
    /// Number of milliseconds that are left until the member is asked next, if it is to be asked.
    pub left: u64,
    pub tried: Option<Tried>,
}

/// Returns a reply in words.
fn words_of(alloc: Global, reply: Reply) -> Result<String, Memory> {
    let mut words = Vec::new(alloc);
    put_words(reply, &mut words)?;
    match str::from_utf8(words.as_slice()) {
        Ok(text) => String::from_str(alloc, text),
        Err(_) => Err(AllocError),
    }
}

/// Returns the report of a callback, at a moment.
fn tried_of(alloc: Global, attempt: Attempt, moment: u64) -> Result<Tried, Memory> {
    let Attempt {
        address,
        reply,
        moment: noted,
    } = attempt;
    match words_of(alloc, reply) {
        Ok(words) => Ok(Tried {
            address,
            words,
            moment: noted,
            age: left_until(moment, noted),
        }),
        Err(error) => Err(error),
    }
}

/// Returns the report of the last callback of a member, if the member waits and the callback is remembered.
fn find_tried<O: Overview>(
    alloc: Global,
    overview: &mut O,
    instance: Instance,
    row: &MemberRow,
    moment: u64,
) -> Result<Option<Tried>, Trouble>
    ensures { O.orders overview.new ≡ O.orders overview.old }
{
    if row.ask.is_none() && row.want.is_none() {
        return Ok(None);
    }
    match overview.attempt(alloc, instance, row.member)? {
        Some(attempt) => Ok(Some(tried_of(alloc, attempt, moment)?)),
        None => Ok(None),
    }
}

/// Returns how many milliseconds are left at a moment until a member is asked next.
fn left_of(row: &MemberRow, moment: u64) -> u64 {
    match row.want {
        Some(want) => left_until(want.due, moment),
        None => 0,
    }
}

/// Adds the lines of members.
fn add_lines<O: Overview>(
    alloc: Global,
    overview: &mut O,
    instance: Instance,
    rows: &[MemberRow],
    moment: u64,
    lines: &mut Vec<Line>,
) -> Result<(), Trouble>
    ensures { O.orders overview.new ≡ O.orders overview.old }
{
    for row in rows {
        let tried = find_tried(alloc, overview, instance, row, moment)?;
        lines.push(Line {
            row: *row,
            left: left_of(row, moment),
            tried,
        })?;
    }
    Ok(())
}

/// Returns the lines of members at a moment. Each has the member's last callback, if the member waits and the callback
/// is remembered.
pub fn lines_of<O: Overview>(
    alloc: Global,
    overview: &mut O,
    instance: Instance,
    rows: &[MemberRow],
    moment: u64,
) -> Result<Vec<Line>, Trouble>
    ensures { O.orders overview.new ≡ O.orders overview.old }
{
    let mut lines = Vec::new(alloc);
    match add_lines(alloc, overview, instance, rows, moment, &mut lines) {
        Ok(()) => Ok(lines),
        Err(trouble) => Err(trouble),
    }
}

/// Adds the member that a node stands for, if it stands for one.
fn add_member(rows: &mut Vec<MemberRow>, node: &Node) -> Result<(), Memory>
    ensures { OnOk result (rows.new.items ≡ rows.old.items ++ member_at node.now) }
{
    match node.of {
        NodeOf::Member(row) => Ok(rows.push(row)?),
        NodeOf::Action(_) => Ok(()),
    }
}

/// Adds the members of a tree.
fn add_members(rows: &mut Vec<MemberRow>, nodes: &[Node]) -> Result<(), Memory>
    ensures { OnOk result (rows.new.items ≡ rows.old.items ++ members_of nodes.now) }
{
    for node in nodes {
        add_member(rows, node)?;
    }
    Ok(())
}

/// Returns the members of a tree.
pub fn members_in(alloc: Global, nodes: &[Node]) -> Result<Vec<MemberRow>, Memory>
    ensures { IfOk result (λ rows. rows.items ≡ members_of nodes.now) }
{
    let mut rows = Vec::new(alloc);
    match add_members(&mut rows, nodes) {
        Ok(()) => Ok(rows),
        Err(error) => Err(error),
    }
}

/// Returns whether a member answered its last callback that it is at it.
pub(crate) fn is_at_it<O: Overview>(
    alloc: Global,
    overview: &mut O,
    instance: Instance,
    member: u64,
) -> Result<bool, Trouble>
    ensures { O.orders overview.new ≡ O.orders overview.old }
{
    match overview.attempt(alloc, instance, member)? {
        Some(attempt) => Ok(matches!(attempt.reply, Reply::AtIt { .. })),
        None => Ok(false),
    }
}
