//! The nodes of a trie as lines.

ghost use Rattle.std.specs.Prelude.{◌≡◌, ◌++◌, OnOk, OnErr};
ghost use Rattle.std.specs.Option.{option_map};
ghost use Rattle.std.specs.Io.KnownBytes.{Appends};
ghost use Rattle.zerotrie_core.specs.walk.Visits.{nodes_of};
ghost use Rattle.zerotrie_core.specs.walk.Seen.{part_of, visit_of};
ghost use Rattle.zerotrie_core.specs.Kinds.{kind_of};
ghost use Rattle.zerotrie_files.specs.Faults.{IsNoted};
ghost use Rattle.zerotrie_files.specs.Parts.{AppendsPart};
ghost use Rattle.zerotrie_queries.specs.views.Dumps.{edge_text, stand_text, dump_line, dump_lines};

use crate::views::meaning::{add_hex, add_meaning};
use std::alloc::{AllocError, Global};
use std::io;
use std::io::Write;
use zerotrie_core::{Nodes, Part, Trie, TrieRef, Visit};
use zerotrie_files::Noted;
use zerotrie_lines::{write_escaped, write_number};

/// Adds the byte of an edge, if there is one.
fn add_edge(line: &mut Vec<u8>, edge: Option<u8>) -> Result<(), AllocError>
    ensures { OnOk result (line.new.items ≡ line.old.items ++ edge_text edge) }
{
    match edge {
        Some(byte) => write_escaped(line, &[byte]),
        None => Ok(()),
    }
}

/// Adds the place of a node: of its bytes, its depth, and the byte of its edge.
fn add_stand(line: &mut Vec<u8>, part: &Part<'_>) -> Result<(), AllocError>
    ensures { OnOk result (line.new.items ≡ line.old.items ++ stand_text (part_of part.now)) }
{
    write_number(line, part.place)?;
    line.push(b'\t')?;
    write_number(line, part.depth)?;
    line.push(b'\t')?;
    add_edge(line, part.edge)
}

fn add_line(line: &mut Vec<u8>, visit: &Visit<'_>) -> Result<(), AllocError>
    ensures { OnOk result (line.new.items ≡ line.old.items ++ dump_line (visit_of visit.now)) }
{
    add_stand(line, &visit.part)?;
    line.push(b'\t')?;
    add_meaning(line, &visit.node)?;
    line.push(b'\t')?;
    add_hex(line, visit.own_bytes())?;
    line.push(b'\n')?;
    Ok(())
}

/// Writes the lines of the remaining nodes of a walk.
fn write_lines<W: Write>(
    alloc: Global,
    nodes: &mut Nodes<'_>,
    output: &mut Noted<W>,
) -> io::Result<()>
    ensures all { OnOk result (Appends (W.contents output.old.inner) (W.contents output.new.inner)
        (dump_lines nodes.old)) }
    ensures part { OnErr result (AppendsPart (W.contents output.old.inner)
        (W.contents output.new.inner) (dump_lines nodes.old)) }
    ensures noted { IsNoted result output.old.failed output.new.failed }
{
    let mut line = Vec::new(alloc);
    loop {
        let Some(visit) = nodes.next_node()? else {
            return Ok(());
        };
        line.clear();
        add_line(&mut line, &visit)?;
        output.write_bytes(line.as_slice())?;
    }
}

/// Writes a line for each node of a trie, in the order of their bytes. If it fails, a beginning of
/// the lines was written.
pub fn write_dump<W: Write>(
    alloc: Global,
    trie: &TrieRef<'_>,
    output: &mut Noted<W>,
) -> io::Result<()>
    ensures all { OnOk result (Appends (W.contents output.old.inner) (W.contents output.new.inner)
        (dump_lines (nodes_of (kind_of trie.now.kind) trie.now.bytes.now))) }
    ensures part { OnErr result (AppendsPart (W.contents output.old.inner)
        (W.contents output.new.inner) (dump_lines (nodes_of (kind_of trie.now.kind)
        trie.now.bytes.now))) }
    ensures noted { IsNoted result output.old.failed output.new.failed }
{
    let mut nodes = trie.nodes(alloc)?;
    write_lines(alloc, &mut nodes, output)
}
