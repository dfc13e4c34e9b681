//! What changed from one trie to another, printed as it is found.

ghost use Rattle.std.specs.Prelude.{◌≡◌, ◌↔◌, ◌++◌, ◌<◌, [], length, true, false, OnOk, OnErr, IfOk};
ghost use Rattle.std.specs.Io.KnownBytes.{Appends};
ghost use Rattle.zerotrie_core.specs.Kinds.{kind_of};
ghost use Rattle.zerotrie_core.specs.Maps.{Ascends};
ghost use Rattle.zerotrie_core.specs.WellFormed.{IsWellFormed};
ghost use Rattle.zerotrie_files.specs.Faults.{IsNoted};
ghost use Rattle.zerotrie_files.specs.Parts.{AppendsPart};
ghost use Rattle.zerotrie_lines.specs.Lines.{tsv_line};
ghost use Rattle.zerotrie_queries.specs.Diffs.{change_line, change_lines, AreCompared, AreComparedInPart, AreTold, AreToldInPart};
ghost use Rattle.zerotrie_sets.specs.declared.diff.Change.TheVariants.{Changed};

use crate::any_case::{ignore_case, of_sorted, recased};
use crate::sorted::sorted_pairs;
use std::alloc::{AllocError, Global};
use std::io;
use std::io::Write;
use zerotrie_core::{PairStream, TrieRef};
use zerotrie_files::Noted;
use zerotrie_lines::{write_escaped, write_number, write_pair};
use zerotrie_search::laws::sorted_listing_ascends;
use zerotrie_sets::laws::{combined_are_maps, diffs_are_of_maps, no_change};
use zerotrie_sets::{Change, Diff};

/// The least number of bytes that one write has, but for the last.
const BLOCK: usize = 1 << 16;

/// Adds the line of a key that is in both tries with two values.
fn add_changed(line: &mut Vec<u8>, key: &[u8], old: usize, new: usize) -> Result<(), AllocError>
    ensures { OnOk result (line.new.items
        ≡ line.old.items ++ change_line key.now (Changed old new)) }
{
    line.extend_from_slice(b"~\t")?;
    write_escaped(line, key)?;
    line.push(b'\t')?;
    write_number(line, old)?;
    line.push(b'\t')?;
    write_number(line, new)?;
    line.push(b'\n')?;
    Ok(())
}

/// Adds the line of a key that one trie alone has: a sign and a tab, the key and its value.
fn add_signed(line: &mut Vec<u8>, sign: &[u8], key: &[u8], value: usize) -> Result<(), AllocError>
    ensures { OnOk result (line.new.items
        ≡ line.old.items ++ (sign.now ++ tsv_line (key.now, value))) }
{
    line.extend_from_slice(sign)?;
    write_pair(line, key, value)
}

fn add_change(line: &mut Vec<u8>, key: &[u8], change: Change) -> Result<(), AllocError>
    ensures { OnOk result (line.new.items ≡ line.old.items ++ change_line key.now change) }
{
    match change {
        Change::Added(value) => add_signed(line, b"+\t", key, value),
        Change::Removed(value) => add_signed(line, b"-\t", key, value),
        Change::Changed(old, new) => add_changed(line, key, old, new),
    }
}

/// Fills an empty buffer with the lines of the next keys that changed, up to a block, and returns
/// whether more may follow.
fn add_block<S: PairStream, T: PairStream>(
    lines: &mut Vec<u8>,
    diff: &mut Diff<S, T>,
) -> Result<bool, AllocError>
    requires { lines.old.items ≡ [] }
    ensures lines { IfOk result (λ _. lines.new.items ++ change_lines diff.new.left.items
        ≡ change_lines diff.old.left.items) }
    ensures more { IfOk result (λ more. more ≡ true
        → length diff.new.left.items < length diff.old.left.items) }
    ensures all { IfOk result (λ more. more ≡ false → diff.new.left.items ≡ []) }
    ensures none { IfOk result (λ more. (lines.new.items ≡ []) ↔ (diff.old.left.items ≡ [])) }
{
    while lines.len() < BLOCK {
        if !diff.advance()? {
            return Ok(false);
        }
        add_change(lines, diff.key(), diff.change())?;
    }
    Ok(true)
}

/// Writes the lines of the keys to come that changed, many lines at once, and returns whether there
/// are none. If it fails, a beginning of them was written.
fn write_changes<S: PairStream, T: PairStream, W: Write>(
    alloc: Global,
    diff: &mut Diff<S, T>,
    output: &mut Noted<W>,
) -> io::Result<bool>
    ensures all { OnOk result (Appends (W.contents output.old.inner) (W.contents output.new.inner)
        (change_lines diff.old.left.items)) }
    ensures none { IfOk result (λ same. same ≡ true ↔ diff.old.left.items ≡ []) }
    ensures part { OnErr result (AppendsPart (W.contents output.old.inner)
        (W.contents output.new.inner) (change_lines diff.old.left.items)) }
    ensures noted { IsNoted result output.old.failed output.new.failed }
{
    let mut lines = Vec::new(alloc);
    let mut same = true;
    loop {
        let more = add_block(&mut lines, diff)?;
        same &= lines.is_empty();
        output.write_bytes(lines.as_slice())?;
        if !more {
            return Ok(same);
        }
        lines.clear();
    }
}

/// Writes a line for each key that changed from one listing to another, and returns whether they have
/// the same pairs. If it fails, a beginning of the lines was written.
fn write_merged<S: PairStream + Drop, T: PairStream + Drop, W: Write>(
    alloc: Global,
    first: S,
    second: T,
    output: &mut Noted<W>,
) -> io::Result<bool>
    requires first { Ascends (S.left first).pairs }
    requires second { Ascends (T.left second).pairs }
    ensures all { IfOk result (AreTold (S.left first).pairs (T.left second).pairs
        (W.contents output.old.inner) (W.contents output.new.inner)) }
    ensures part { OnErr result (AreToldInPart (S.left first).pairs (T.left second).pairs
        (W.contents output.old.inner) (W.contents output.new.inner)) }
    ensures noted { IsNoted result output.old.failed output.new.failed }
{
    diffs_are_of_maps();
    no_change();
    let mut diff = Diff::new(first, second);
    write_changes(alloc, &mut diff, output)
}

/// Writes a line for each key that changed from one trie to another, in the order of the keys'
/// bytes, and returns whether they have the same pairs. The kinds of the two may differ.
///
/// A line is `+`, the key and its value if only the new trie has the key; `-`, the key and its
/// value if only the old one has it; or `~`, the key, and the old and the new value. Tabs are
/// between, and keys are written with escapes. If both tries ignore case, so does this: a key that
/// both have is written as the old trie has it.
///
/// ```
/// let old = TrieRef { kind: TrieKind::Simple, bytes: b"a\x81" };
/// let new = TrieRef { kind: TrieKind::Hash, bytes: b"a\x85b\x86" };
/// let mut output = Noted::new(Vec::new(rt.alloc()));
/// assert!(rt; !write_diff(rt.alloc(), &old, &new, &mut output)?);
/// assert_eq!(rt; output.get_ref().as_slice(), b"~\ta\t1\t5\n+\tab\t6\n".as_slice());
/// let old = TrieRef { kind: TrieKind::Ignore, bytes: b"Ab\x81" };
/// let new = TrieRef { kind: TrieKind::Ignore, bytes: b"aB\x85" };
/// let mut output = Noted::new(Vec::new(rt.alloc()));
/// assert!(rt; !write_diff(rt.alloc(), &old, &new, &mut output)?);
/// assert_eq!(rt; output.get_ref().as_slice(), b"~\tAb\t1\t5\n".as_slice());
/// ```
///
/// It allocates for the longest keys alone, and for the new trie's pairs if both ignore case. If it
/// fails, a beginning of the lines was written.
pub fn write_diff<W: Write>(
    alloc: Global,
    old: &TrieRef<'_>,
    new: &TrieRef<'_>,
    output: &mut Noted<W>,
) -> io::Result<bool>
    requires old { IsWellFormed (kind_of old.now.kind) old.now.bytes.now }
    requires new { IsWellFormed (kind_of new.now.kind) new.now.bytes.now }
    ensures all { IfOk result (AreCompared old.now.kind old.now.bytes.now
        new.now.kind new.now.bytes.now (W.contents output.old.inner)
        (W.contents output.new.inner)) }
    ensures part { OnErr result (AreComparedInPart old.now.kind old.now.bytes.now
        new.now.kind new.now.bytes.now (W.contents output.old.inner)
        (W.contents output.new.inner)) }
    ensures noted { IsNoted result output.old.failed output.new.failed }
{
    sorted_listing_ascends();
    combined_are_maps();
    diffs_are_of_maps();
    let first = sorted_pairs(alloc, old)?;
    let second = sorted_pairs(alloc, new)?;
    if ignore_case(old.kind, new.kind) {
        let table = recased(alloc, old, new, second)?;
        let items = table.items(alloc)?;
        write_merged(alloc, first, of_sorted(items.as_slice()), output)
    } else {
        write_merged(alloc, first, second, output)
    }
}
