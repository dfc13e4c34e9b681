//! The nodes of a trie as a drawing, as Graphviz reads it.

ghost use Rattle.std.specs.Prelude.{◌≡◌, ◌++◌, OnOk, OnErr, take};
ghost use Rattle.std.specs.Io.KnownBytes.{Appends};
ghost use Rattle.zerotrie_core.specs.Shapes.{shape};
ghost use Rattle.zerotrie_core.specs.walk.Visits.{nodes_of};
ghost use Rattle.zerotrie_core.specs.walk.Seen.{part_of, visit_of};
ghost use Rattle.zerotrie_core.specs.Kinds.{kind_of};
ghost use Rattle.zerotrie_files.specs.Faults.{IsNoted};
ghost use Rattle.zerotrie_files.specs.Parts.{AppendsPart};
ghost use Rattle.zerotrie_queries.specs.views.Dots.{quoted_byte, quoted, shape_text, label, edge_label, ends_text, arrow, name_text, dot_node, dot_nodes, drawing};

use crate::print::add_text;
use std::alloc::{AllocError, Global};
use std::io;
use std::io::Write;
use zerotrie_core::{Node, Nodes, Part, Trie, TrieRef, Visit};
use zerotrie_files::Noted;
use zerotrie_lines::{hex_digit, write_number};

/// Adds a byte to a label: printable ASCII as it is, a quotation mark and a backslash after a
/// backslash, and any other byte in hexadecimal.
fn add_quoted_byte(line: &mut Vec<u8>, byte: u8) -> Result<(), AllocError>
    ensures { OnOk result (line.new.items ≡ line.old.items ++ quoted_byte byte) }
{
    match byte {
        b'"' => add_text(line, "\\\""),
        b'\\' => add_text(line, "\\\\"),
        32..=126 => {
            line.push(byte)?;
            Ok(())
        }
        _ => {
            let text = [
                b'\\',
                b'\\',
                b'x',
                hex_digit(byte / 16),
                hex_digit(byte % 16),
            ];
            line.extend_from_slice(&text)
        }
    }
}

fn add_quoted(line: &mut Vec<u8>, bytes: &[u8]) -> Result<(), AllocError>
    ensures { OnOk result (line.new.items ≡ line.old.items ++ quoted bytes.now) }
{
    for byte in bytes {
        add_quoted_byte(line, *byte)?;
    }
    Ok(())
}

/// Returns the shape of a node in the drawing.
fn shape_text(node: &Node<'_>) -> &'static str
    ensures { result.now ≡ shape_text (shape node.now) }
{
    match node {
        Node::Value(_value, _after) => "box",
        Node::Literal(_byte, _after) => "ellipse",
        Node::Span(_run, _after) => "ellipse",
        Node::Branch(_branch) => "diamond",
    }
}

fn add_label(line: &mut Vec<u8>, node: &Node<'_>) -> Result<(), AllocError>
    ensures { OnOk result (line.new.items ≡ line.old.items ++ label (shape node.now)) }
{
    match node {
        Node::Value(value, _after) => write_number(line, *value),
        Node::Literal(byte, _after) => add_quoted(line, &[*byte]),
        Node::Span(run, _after) => add_quoted(line, run),
        Node::Branch(branch) => {
            write_number(line, branch.edges)?;
            add_text(line, " edges")
        }
    }
}

/// Adds the byte of an edge, if there is one.
fn add_edge(line: &mut Vec<u8>, edge: Option<u8>) -> Result<(), AllocError>
    ensures { OnOk result (line.new.items ≡ line.old.items ++ edge_label edge) }
{
    match edge {
        Some(byte) => add_quoted(line, &[byte]),
        None => Ok(()),
    }
}

/// Adds the two ends of a line of the drawing.
fn add_ends(line: &mut Vec<u8>, above: usize, place: usize) -> Result<(), AllocError>
    ensures { OnOk result (line.new.items ≡ line.old.items ++ ends_text above place) }
{
    add_text(line, "  n")?;
    write_number(line, above)?;
    add_text(line, " -> n")?;
    write_number(line, place)
}

/// Adds the line to a node from its parent, if it has one.
fn add_arrow(line: &mut Vec<u8>, part: &Part<'_>) -> Result<(), AllocError>
    ensures { OnOk result (line.new.items
        ≡ line.old.items ++ arrow part.now.above part.now.place part.now.edge) }
{
    let Some(above) = part.above else {
        return Ok(());
    };
    add_ends(line, above, part.place)?;
    add_text(line, " [label=\"")?;
    add_edge(line, part.edge)?;
    add_text(line, "\"];\n")
}

fn add_name(line: &mut Vec<u8>, place: usize, node: &Node<'_>) -> Result<(), AllocError>
    ensures { OnOk result (line.new.items ≡ line.old.items ++ name_text place (shape node.now)) }
{
    add_text(line, "  n")?;
    write_number(line, place)?;
    add_text(line, " [shape=")?;
    add_text(line, shape_text(node))
}

fn add_node(line: &mut Vec<u8>, visit: &Visit<'_>) -> Result<(), AllocError>
    ensures { OnOk result (line.new.items ≡ line.old.items ++ dot_node (visit_of visit.now)) }
{
    add_name(line, visit.part.place, &visit.node)?;
    add_text(line, ",label=\"")?;
    add_label(line, &visit.node)?;
    add_text(line, "\"];\n")?;
    add_arrow(line, &visit.part)
}

/// Writes the lines of the remaining nodes of a walk, at most this many.
fn write_nodes<W: Write>(
    alloc: Global,
    nodes: &mut Nodes<'_>,
    most: usize,
    output: &mut Noted<W>,
) -> io::Result<()>
    ensures all { OnOk result (Appends (W.contents output.old.inner) (W.contents output.new.inner)
        (dot_nodes (take most nodes.old))) }
    ensures part { OnErr result (AppendsPart (W.contents output.old.inner)
        (W.contents output.new.inner) (dot_nodes (take most nodes.old))) }
    ensures noted { IsNoted result output.old.failed output.new.failed }
{
    let mut line = Vec::new(alloc);
    let mut left = most;
    while left > 0 {
        let Some(visit) = nodes.next_node()? else {
            return Ok(());
        };
        line.clear();
        add_node(&mut line, &visit)?;
        output.write_bytes(line.as_slice())?;
        left -= 1;
    }
    Ok(())
}

/// Writes a drawing of the next nodes of a walk, at most this many.
fn write_drawing<W: Write>(
    alloc: Global,
    nodes: &mut Nodes<'_>,
    most: usize,
    output: &mut Noted<W>,
) -> io::Result<()>
    ensures all { OnOk result (Appends (W.contents output.old.inner) (W.contents output.new.inner)
        (drawing most nodes.old)) }
    ensures part { OnErr result (AppendsPart (W.contents output.old.inner)
        (W.contents output.new.inner) (drawing most nodes.old)) }
    ensures noted { IsNoted result output.old.failed output.new.failed }
{
    output.write_bytes(b"digraph trie {\n  rankdir=LR;\n")?;
    write_nodes(alloc, nodes, most, output)?;
    output.write_bytes(b"}\n")
}

/// Writes a drawing of the first nodes of a trie, at most this many. If it fails, a beginning of it
/// was written.
pub fn write_dot<W: Write>(
    alloc: Global,
    trie: &TrieRef<'_>,
    most: usize,
    output: &mut Noted<W>,
) -> io::Result<()>
    ensures all { OnOk result (Appends (W.contents output.old.inner) (W.contents output.new.inner)
        (drawing most (nodes_of (kind_of trie.now.kind) trie.now.bytes.now))) }
    ensures part { OnErr result (AppendsPart (W.contents output.old.inner)
        (W.contents output.new.inner) (drawing most (nodes_of (kind_of trie.now.kind)
        trie.now.bytes.now))) }
    ensures noted { IsNoted result output.old.failed output.new.failed }
{
    let mut nodes = trie.nodes(alloc)?;
    write_drawing(alloc, &mut nodes, most, output)
}
