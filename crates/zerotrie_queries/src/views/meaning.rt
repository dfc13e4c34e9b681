//! What a node means, as text.

ghost use Rattle.std.specs.Prelude.{◌≡◌, ◌++◌, OnOk};
ghost use Rattle.zerotrie_core.specs.Shapes.{shape, branch_shape};
ghost use Rattle.zerotrie_queries.specs.views.Meanings.{meaning, table_text, edges_text, offsets_text, hex};

use crate::print::add_text;
use std::alloc::AllocError;
use zerotrie_core::{Branch, Node};
use zerotrie_lines::{hex_digit, write_escaped, write_number};

pub fn add_hex(line: &mut Vec<u8>, bytes: &[u8]) -> Result<(), AllocError>
    ensures { OnOk result (line.new.items ≡ line.old.items ++ hex bytes.now) }
{
    for byte in bytes {
        line.push(hex_digit(*byte / 16))?;
        line.push(hex_digit(*byte % 16))?;
    }
    Ok(())
}

/// Returns the word for the table of a branch.
fn table_text(branch: &Branch<'_>) -> &'static str
    ensures { result.now ≡ table_text branch.now.edges branch.now.table.now }
{
    if branch.table.len() > branch.edges {
        "hashed"
    } else {
        "sorted"
    }
}

fn add_edges(line: &mut Vec<u8>, branch: &Branch<'_>) -> Result<(), AllocError>
    ensures { OnOk result (line.new.items
        ≡ line.old.items ++ edges_text branch.now.edges branch.now.table.now) }
{
    add_text(line, "branch of ")?;
    write_number(line, branch.edges)?;
    add_text(line, " edges, ")?;
    add_text(line, table_text(branch))
}

fn add_offsets(line: &mut Vec<u8>, width: usize, edges: &[u8]) -> Result<(), AllocError>
    ensures { OnOk result (line.new.items ≡ line.old.items ++ offsets_text width edges.now) }
{
    add_text(line, ", offsets of width ")?;
    write_number(line, width)?;
    add_text(line, ": ")?;
    write_escaped(line, edges)
}

fn add_branch(line: &mut Vec<u8>, branch: &Branch<'_>) -> Result<(), AllocError>
    ensures { OnOk result (line.new.items ≡ line.old.items ++ meaning (branch_shape branch.now)) }
{
    let (edges, _) = branch.behind.split_at(branch.edges);
    add_edges(line, branch)?;
    add_offsets(line, branch.width, edges)
}

/// Adds what a node means.
pub fn add_meaning(line: &mut Vec<u8>, node: &Node<'_>) -> Result<(), AllocError>
    ensures { OnOk result (line.new.items ≡ line.old.items ++ meaning (shape node.now)) }
{
    match node {
        Node::Value(value, _after) => {
            add_text(line, "value ")?;
            write_number(line, *value)
        }
        Node::Literal(byte, _after) => {
            add_text(line, "literal ")?;
            write_escaped(line, &[*byte])
        }
        Node::Span(run, _after) => {
            add_text(line, "span ")?;
            write_escaped(line, run)
        }
        Node::Branch(branch) => add_branch(line, branch),
    }
}
