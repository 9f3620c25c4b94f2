//! The tree of the members and the actions below an action.

ghost use Rattle.std.specs.Prelude.{◌≡◌};

use crate::faults::Trouble;
use crate::gather::{ActionRow, MemberRow, Shown, show_action};
use crate::overview::Overview;
use lra_ids::Instance;
use std::alloc::Global;

/// Largest number of nodes of a tree.
const MOST_NODES: usize = 400;

/// Action or member that a node stands for.
#[derive(Clone, Copy)]
pub enum NodeOf {
    Action(ActionRow),
    Member(MemberRow),
}

/// Node of a tree: its depth, its line, and the line of the node above it.
#[derive(Clone, Copy)]
pub struct Node {
    pub depth: u32,
    pub line: u32,
    pub above: Option<u32>,
    pub of: NodeOf,
}

/// Action whose nodes are still to be added: its depth, and the line of the node above it.
#[derive(Clone, Copy)]
struct Pending {
    depth: u32,
    above: Option<u32>,
    action: u64,
}

/// Returns the line after those of some nodes.
fn line_behind(nodes: &[Node]) -> u32 {
    u32::try_from(nodes.len()).unwrap_or(u32::MAX)
}

/// Adds the nodes of an action and of its members. Adds the actions nested in it to `pending`, the last first.
fn add_one(
    shown: &Shown,
    at: Pending,
    nodes: &mut Vec<Node>,
    pending: &mut Vec<Pending>,
) -> Result<(), Trouble> {
    let line = line_behind(nodes);
    nodes.push(Node {
        depth: at.depth,
        line,
        above: at.above,
        of: NodeOf::Action(shown.row),
    })?;
    let depth = at.depth.saturating_add(1);
    for member in shown.members.as_slice() {
        nodes.push(Node {
            depth,
            line: line_behind(nodes),
            above: Some(line),
            of: NodeOf::Member(*member),
        })?;
    }
    for nested in shown.nested.as_slice().iter().rev() {
        pending.push(Pending {
            depth,
            above: Some(line),
            action: nested.action,
        })?;
    }
    Ok(())
}

/// Adds the nodes of all pending actions, and of those nested in them, up to the largest number of nodes.
fn add_all<O: Overview>(
    alloc: Global,
    overview: &mut O,
    instance: Instance,
    nodes: &mut Vec<Node>,
    pending: &mut Vec<Pending>,
) -> Result<(), Trouble>
    ensures { O.orders overview.new ≡ O.orders overview.old }
{
    for _action in 0..MOST_NODES {
        if nodes.len() >= MOST_NODES {
            return Ok(());
        }
        let Some(next) = pending.pop() else {
            return Ok(());
        };
        let shown = show_action(alloc, overview, instance, next.action)?;
        let added = add_one(&shown, next, nodes, pending);
        drop(shown);
        added?;
    }
    Ok(())
}

/// Returns the tree of an action: each action before its members, and these before the actions nested in it. Of a large
/// tree it returns only the first nodes.
pub fn tree_of<O: Overview>(
    alloc: Global,
    overview: &mut O,
    instance: Instance,
    action: u64,
) -> Result<Vec<Node>, Trouble>
    ensures { O.orders overview.new ≡ O.orders overview.old }
{
    let mut nodes = Vec::new(alloc);
    let mut pending = Vec::new(alloc);
    pending.push(Pending {
        depth: 0,
        above: None,
        action,
    })?;
    let added = add_all(alloc, overview, instance, &mut nodes, &mut pending);
    drop(pending);
    match added {
        Ok(()) => Ok(nodes),
        Err(trouble) => Err(trouble),
    }
}
