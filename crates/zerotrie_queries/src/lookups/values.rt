//! The values of many keys.

ghost use Rattle.std.specs.Prelude.{◌≡◌, ◌++◌, map, IfOk, OnErr};
ghost use Rattle.zerotrie_core.specs.Kinds.{kind_of};
ghost use Rattle.zerotrie_core.specs.Maps.{Map};
ghost use Rattle.zerotrie_core.specs.Texts.{Means};
ghost use Rattle.zerotrie_files.specs.Faults.{IsNoted};
ghost use Rattle.zerotrie_queries.specs.Answers.{answers, as_is, AreAnswered, AreAnsweredInPart};
ghost use Rattle.zerotrie_queries.specs.Finders.{TrieFinds};
ghost use Rattle.zerotrie_queries.specs.Printed.{value_lines, are_found};
ghost use Rattle.zerotrie_queries.specs.declared.question.Asked.TheVariants.{Value};

use crate::print::add_value;
use std::alloc::{AllocError, Global};
use std::io;
use std::io::Write;
use zerotrie_core::{LookUps, TrieRef, ZeroTrieWithOptions, by_kind};
use zerotrie_files::Noted;

/// The number of keys whose lines are written at once.
const BLOCK: usize = 4096;

/// Adds a line for each key, its value or `none`, and returns whether all are there.
fn add_values_as<K: ZeroTrieWithOptions>(
    lines: &mut Vec<u8>,
    bytes: &[u8],
    keys: &[&[u8]],
) -> Result<bool, AllocError>
    ensures { IfOk result (λ all. (m : Map) → Means K.kind bytes.now m
        → (lines.new.items ≡ lines.old.items ++ value_lines (answers K.kind m keys.now))
        × (all ≡ are_found (answers K.kind m keys.now))) }
{
    let mut trie = LookUps::<K>::new(bytes);
    let mut all = true;
    for key in keys {
        let value = trie.get(key);
        all &= value.is_some();
        add_value(lines, value)?;
    }
    Ok(all)
}

/// Adds a line for each key, its value or `none`, and returns whether all are there.
fn add_values(lines: &mut Vec<u8>, trie: &TrieRef<'_>, keys: &[&[u8]]) -> Result<bool, AllocError>
    ensures { IfOk result (λ all. (m : Map) → Means (kind_of trie.now.kind) trie.now.bytes.now m
        → (lines.new.items ≡ lines.old.items
        ++ value_lines (answers (kind_of trie.now.kind) m keys.now))
        × (all ≡ are_found (answers (kind_of trie.now.kind) m keys.now))) }
{
    by_kind!(trie.kind, add_values_as::<_>(lines, trie.bytes, keys))
}

/// Writes a line for each key, its value or `none`, and returns whether all are there. It writes
/// many lines at once.
pub(crate) fn write_values<W: Write>(
    alloc: Global,
    trie: &TrieRef<'_>,
    keys: &[&[u8]],
    output: &mut Noted<W>,
) -> io::Result<bool>
    ensures answered { IfOk result (AreAnswered (as_is Value)
        (TrieFinds trie.now.kind trie.now.bytes.now) (map (λ key. key.now) keys.now)
        (W.contents output.old.inner) (W.contents output.new.inner)) }
    ensures part { OnErr result (AreAnsweredInPart (as_is Value)
        (TrieFinds trie.now.kind trie.now.bytes.now) (map (λ key. key.now) keys.now)
        (W.contents output.old.inner) (W.contents output.new.inner)) }
    ensures noted { IsNoted result output.old.failed output.new.failed }
{
    let mut lines = Vec::new(alloc);
    let mut all = true;
    let mut begin = 0;
    while begin < keys.len() {
        let (_, left) = keys.split_at(begin);
        let (block, _) = left.split_at(left.len().min(BLOCK));
        lines.clear();
        all &= add_values(&mut lines, trie, block)?;
        output.write_bytes(lines.as_slice())?;
        begin += block.len();
    }
    Ok(all)
}
