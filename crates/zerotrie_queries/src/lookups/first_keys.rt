//! The first keys of values.

ghost use Rattle.std.specs.Prelude.{◌≡◌, ◌++◌, IfOk, is_some};
ghost use Rattle.std.specs.Option.{option_map};
ghost use Rattle.zerotrie_core.specs.Kinds.{kind_of};
ghost use Rattle.zerotrie_core.specs.Maps.{Map, Pairs, look};
ghost use Rattle.zerotrie_core.specs.Texts.{Lists, Means};
ghost use Rattle.zerotrie_core.specs.Values.{first_key_of};
ghost use Rattle.zerotrie_queries.specs.Answers.{as_is, AddsAnswer, IsKeyOf};
ghost use Rattle.zerotrie_queries.specs.Finders.{dictionary_of};
ghost use Rattle.zerotrie_queries.specs.Printed.{first_key_line};
ghost use Rattle.zerotrie_queries.specs.declared.question.Asked.TheVariants.{KeyOf};

use std::alloc::{AllocError, Global};
use zerotrie_core::{Trie, TrieRef};
use zerotrie_lines::{parse_number, write_escaped};
use zerotrie_reverse::KeysByValue;

/// Returns the first key of a trie that has the value that a text is. It reads the pairs up to it.
fn key_by_scan(
    alloc: Global,
    trie: &TrieRef<'_>,
    text: &[u8],
) -> Result<Option<Vec<u8>>, AllocError>
    ensures { IfOk result (λ key. (pairs : Pairs)
        → Lists (kind_of trie.now.kind) trie.now.bytes.now pairs
        → IsKeyOf (λ value. first_key_of value pairs) text.now (option_map (λ k. k.items) key)) }
{
    let Some(value) = parse_number(text) else {
        return Ok(None);
    };
    match trie.first_key_of(alloc, value) {
        Ok(key) => Ok(key),
        Err(_) => Err(AllocError),
    }
}

/// Returns the first key in a table that has the value that a text is.
fn key_by_table(
    alloc: Global,
    table: &KeysByValue<'_>,
    text: &[u8],
) -> Result<Option<Vec<u8>>, AllocError>
    ensures { IfOk result (λ key. (pairs : Pairs) → Lists table.now.kind table.now.bytes pairs
        → IsKeyOf (λ value. first_key_of value pairs) text.now (option_map (λ k. k.items) key)) }
{
    let Some(value) = parse_number(text) else {
        return Ok(None);
    };
    table.first_key_of(alloc, value)
}

/// Adds the line of a key, or `none`, and returns whether there is one.
fn add_first_key(line: &mut Vec<u8>, key: Option<Vec<u8>>) -> Result<bool, AllocError>
    ensures line { IfOk result (λ _. line.new.items
        ≡ line.old.items ++ first_key_line (option_map (λ k. k.items) key)) }
    ensures found { IfOk result (λ found. found ≡ is_some (option_map (λ k. k.items) key)) }
{
    match key {
        Some(key) => {
            write_escaped(line, key.as_slice())?;
            line.push(b'\n')?;
            Ok(true)
        }
        None => {
            line.extend_from_slice(b"none\n")?;
            Ok(false)
        }
    }
}

/// Adds the first key of a trie that has the value that a text is, or `none`. Returns whether there
/// is one.
pub(crate) fn add_key_by_scan(
    alloc: Global,
    line: &mut Vec<u8>,
    trie: &TrieRef<'_>,
    text: &[u8],
) -> Result<bool, AllocError>
    ensures { IfOk result (λ found. (m : Map) (pairs : Pairs)
        → Means (kind_of trie.now.kind) trie.now.bytes.now m
        → Lists (kind_of trie.now.kind) trie.now.bytes.now pairs
        → AddsAnswer (as_is KeyOf) (dictionary_of (look (kind_of trie.now.kind) m) pairs)
        text.now line.old.items line.new.items found) }
{
    let key = key_by_scan(alloc, trie, text)?;
    add_first_key(line, key)
}

/// Adds the first key in a table that has the value that a text is, or `none`. Returns whether there
/// is one.
pub(crate) fn add_key_by_table(
    alloc: Global,
    line: &mut Vec<u8>,
    table: &KeysByValue<'_>,
    text: &[u8],
) -> Result<bool, AllocError>
    ensures { IfOk result (λ found. (m : Map) (pairs : Pairs)
        → Means table.now.kind table.now.bytes m
        → Lists table.now.kind table.now.bytes pairs
        → AddsAnswer (as_is KeyOf) (dictionary_of (look table.now.kind m) pairs) text.now
        line.old.items line.new.items found) }
{
    let key = key_by_table(alloc, table, text)?;
    add_first_key(line, key)
}
