//! Looks inside a trie: its nodes as lines, and as a drawing.

ghost use Rattle.std.specs.Prelude.{OnOk, OnErr};
ghost use Rattle.std.specs.Io.KnownBytes.{Appends};
ghost use Rattle.zerotrie_files.specs.Faults.{IsNoted};
ghost use Rattle.zerotrie_files.specs.Parts.{AppendsPart};
ghost use Rattle.zerotrie_queries.specs.views.Views.{shown};

mod dot;
mod dump;
mod meaning;

use crate::views::dot::write_dot;
use crate::views::dump::write_dump;
use std::alloc::Global;
use std::io;
use std::io::Write;
use zerotrie_core::TrieRef;
use zerotrie_files::Noted;

/// What is shown of a trie.
#[derive(Clone, Copy, PartialEq, Eq, Debug)]
pub enum View {
    /// A line for each node.
    Dump,
    /// A drawing of its first nodes, at most this many, as Graphviz reads it.
    Dot(usize),
}

/// Writes what is shown of a trie. Its bytes may be any: of what is no node nothing is shown. If it
/// fails, a beginning of what is shown was written.
pub fn write_trie_view<W: Write>(
    alloc: Global,
    trie: &TrieRef<'_>,
    view: View,
    output: &mut Noted<W>,
) -> io::Result<()>
    ensures all { OnOk result (Appends (W.contents output.old.inner) (W.contents output.new.inner)
        (shown view trie.now.kind trie.now.bytes.now)) }
    ensures part { OnErr result (AppendsPart (W.contents output.old.inner)
        (W.contents output.new.inner) (shown view trie.now.kind trie.now.bytes.now)) }
    ensures noted { IsNoted result output.old.failed output.new.failed }
{
    match view {
        View::Dump => write_dump(alloc, trie, output),
        View::Dot(most) => write_dot(alloc, trie, most, output),
    }
}
