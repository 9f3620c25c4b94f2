//! A picture of the tree below an action: one line for each node, indented by its depth.

ghost use Rattle.std.specs.Prelude.{◌≡◌, ◌++◌, OnOk};
ghost use Rattle.std.specs.List.{flat_map};
ghost use Rattle.lra_overview.specs.Pictures as pictures;

use crate::gather::{ActionRow, MemberRow};
use crate::names::Names;
use crate::pieces::Piece;
use crate::tree::{Node, NodeOf};
use lra_model::Memory;

/// Adds the stroke from the node above to a node, if there is one above.
fn put_branch(
    page: &mut Vec<u8>,
    names: &Names<'_>,
    depth: u32,
    line: u32,
    above: Option<u32>,
) -> Result<(), Memory>
    ensures { OnOk result (page.new.items ≡ page.old.items ++ pictures.branch depth line above) }
{
    match above {
        None => Ok(()),
        Some(above) => {
            let pieces = [
                Piece::Own("<path class=\"branch\" d=\"M"),
                Piece::Number(28 * depth as u64),
                Piece::Own(" "),
                Piece::Number(26 * above as u64 + 21),
                Piece::Own("V"),
                Piece::Number(26 * line as u64 + 13),
                Piece::Own("h20\"/>\n"),
            ];
            names.put_all(page, &pieces)
        }
    }
}

/// Adds an action: a disk and its text.
fn put_action(
    page: &mut Vec<u8>,
    names: &Names<'_>,
    depth: u32,
    line: u32,
    row: ActionRow,
) -> Result<(), Memory>
    ensures { OnOk result (page.new.items ≡ page.old.items ++ pictures.action names.now.instance depth line row) }
{
    let pieces = [
        Piece::Own("<circle r=\"7\" class=\""),
        Piece::Action(row.status),
        Piece::Own("\" cx=\""),
        Piece::Number(28 * depth as u64 + 28),
        Piece::Own("\" cy=\""),
        Piece::Number(26 * line as u64 + 13),
        Piece::Own("\"/>\n<text x=\""),
        Piece::Number(28 * depth as u64 + 42),
        Piece::Own("\" y=\""),
        Piece::Number(26 * line as u64 + 18),
        Piece::Own("\">"),
        Piece::Id(row.action),
        Piece::Own(" "),
        Piece::Action(row.status),
        Piece::Own("</text>\n"),
    ];
    names.put_all(page, &pieces)
}

/// Adds a member: a square and its text.
fn put_member(
    page: &mut Vec<u8>,
    names: &Names<'_>,
    depth: u32,
    line: u32,
    row: MemberRow,
) -> Result<(), Memory>
    ensures { OnOk result (page.new.items ≡ page.old.items ++ pictures.member names.now.instance depth line row) }
{
    let pieces = [
        Piece::Own("<rect width=\"12\" height=\"12\" class=\""),
        Piece::Member(row.status),
        Piece::Own("\" x=\""),
        Piece::Number(28 * depth as u64 + 22),
        Piece::Own("\" y=\""),
        Piece::Number(26 * line as u64 + 7),
        Piece::Own("\"/>\n<text x=\""),
        Piece::Number(28 * depth as u64 + 42),
        Piece::Own("\" y=\""),
        Piece::Number(26 * line as u64 + 18),
        Piece::Own("\">member "),
        Piece::Id(row.member),
        Piece::Own(" "),
        Piece::Member(row.status),
        Piece::Own("</text>\n"),
    ];
    names.put_all(page, &pieces)
}

/// Adds the mark of a node: its action or its member.
fn put_mark(
    page: &mut Vec<u8>,
    names: &Names<'_>,
    depth: u32,
    line: u32,
    of: NodeOf,
) -> Result<(), Memory>
    ensures { OnOk result (page.new.items ≡ page.old.items ++ pictures.mark names.now.instance depth line «of») }
{
    match of {
        NodeOf::Action(row) => put_action(page, names, depth, line, row),
        NodeOf::Member(row) => put_member(page, names, depth, line, row),
    }
}

/// Adds a node.
fn put_node(page: &mut Vec<u8>, names: &Names<'_>, node: Node) -> Result<(), Memory>
    ensures { OnOk result (page.new.items ≡ page.old.items ++ pictures.node names.now.instance node) }
{
    put_branch(page, names, node.depth, node.line, node.above)?;
    put_mark(page, names, node.depth, node.line, node.of)
}

/// Adds the nodes of a tree.
fn put_nodes(page: &mut Vec<u8>, names: &Names<'_>, nodes: &[Node]) -> Result<(), Memory>
    ensures { OnOk result (page.new.items ≡ page.old.items ++ flat_map (pictures.node names.now.instance) nodes.now) }
{
    for node in nodes {
        put_node(page, names, *node)?;
    }
    Ok(())
}

/// Returns the depth of the deepest node.
fn depth_of(nodes: &[Node]) -> u32
    ensures { result ≡ pictures.deepest nodes.now }
{
    let mut deepest = 0;
    for node in nodes {
        deepest = node.depth.max(deepest);
    }
    deepest
}

/// Adds the beginning of a picture of a size.
fn put_opening(page: &mut Vec<u8>, names: &Names<'_>, width: u64, height: u64) -> Result<(), Memory>
    ensures { OnOk result (page.new.items ≡ page.old.items ++ pictures.opening width height) }
{
    let pieces = [
        Piece::Own(
            "<svg xmlns=\"http://www.w3.org/2000/svg\" role=\"img\" aria-label=\"the tree of the action\" width=\"",
        ),
        Piece::Number(width),
        Piece::Own("\" height=\""),
        Piece::Number(height),
        Piece::Own("\">\n"),
    ];
    names.put_all(page, &pieces)
}

/// Adds the picture of a tree.
pub(crate) fn put_tree(page: &mut Vec<u8>, names: &Names<'_>, nodes: &[Node]) -> Result<(), Memory>
    ensures { OnOk result (page.new.items ≡ page.old.items ++ pictures.picture names.now.instance nodes.now) }
{
    let width = 28 * depth_of(nodes) as u64 + 488;
    let height = (nodes.len() as u64).saturating_mul(26);
    put_opening(page, names, width, height)?;
    put_nodes(page, names, nodes)?;
    names.put_all(page, &[Piece::Own("</svg>\n")])
}
