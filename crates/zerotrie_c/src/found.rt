//! One key that is found: the last one of a range, or the first one that has a value.

ghost use Rattle.std.specs.Prelude.{◌≡◌, ℕ, List, Option, IfSome, IfNone};
ghost use Rattle.std.specs.Option.{option_map};
ghost use Rattle.zerotrie_core.specs.Maps.{Pairs, Map};
ghost use Rattle.zerotrie_core.specs.Texts.{Lists, Means};
ghost use Rattle.zerotrie_core.specs.Values.{first_key_of};
ghost use Rattle.zerotrie_search.specs.Sorted.{within, last_of};
ghost use Rattle.zerotrie_c.specs.Found.{IsKeyTold, IsPairTold, IsKeyFound, IsPairFound};
ghost use Rattle.zerotrie_c.specs.Numbers.{kind_of};
ghost use Rattle.zerotrie_c.specs.Sorted.{bounds_with};
ghost use Rattle.zerotrie_c.specs.Statuses.{unknown_kind, unknown_search};

use crate::builds::hand_out;
use crate::numbers::{NO_ENTRY, OUT_OF_MEMORY, UNKNOWN_KIND, UNKNOWN_SEARCH, trie_of};
use crate::sorted::bounds_with;
use std::alloc::Global;
use zerotrie_core::Trie;
use zerotrie_search::Search;

/// Copies a key into the room if there is room, and sets its length. Returns `NO_ENTRY` for none.
pub fn hand_out_key(found: Option<Vec<u8>>, room: &mut [u8], key_len: &mut usize) -> u32
    ensures { IsKeyTold (option_map (λ k. k.items) found) result key_len.old key_len.new
        room.old room.new }
{
    match found {
        Some(key) => hand_out(key.as_slice(), room, key_len),
        None => NO_ENTRY,
    }
}

/// Like `hand_out_key`, and sets the value too.
fn hand_out_pair(
    found: Option<(Vec<u8>, usize)>,
    room: &mut [u8],
    key_len: &mut usize,
    value: &mut usize,
) -> u32
    ensures { IsPairTold (option_map {U = List ℕ × ℕ} (λ p. (p.0.items, p.1)) found) result
        key_len.old key_len.new value.old value.new room.old room.new }
{
    match found {
        Some((key, found)) => {
            *value = found;
            hand_out(key.as_slice(), room, key_len)
        }
        None => NO_ENTRY,
    }
}

/// Finds the last key between two bounds in the order of bytes, in every kind. Writes it to the
/// beginning of `out` if there is room, and sets `key_len` and `value`.
///
/// The status is `NO_ENTRY` if no key is there. If a key is found, its length and its value are set
/// even if the room is too small for it. It compares the edges at one place for each byte that it
/// goes back or down, and reads no other key.
#[unsafe(no_mangle)]
pub extern "C" fn zerotrie_last_within(
    alloc: Global,
    kind: u32,
    bytes: &[u8],
    from_bound: u32,
    from: &[u8],
    to_bound: u32,
    to: &[u8],
    out: &mut [u8],
    key_len: &mut usize,
    value: &mut usize,
) -> u32
    ensures known { IfSome (kind_of kind) (λ k.
        IfSome (bounds_with from_bound from.now to_bound to.now) (λ b.
        (m : Map) → Means k bytes.now m → IsPairFound (last_of (within b.0 b.1 m)) result
        key_len.old key_len.new value.old value.new out.old out.new)) }
    ensures any { IfSome (kind_of kind) (λ _.
        IfSome (bounds_with from_bound from.now to_bound to.now) (λ _.
        (found : Option (List ℕ × ℕ)) × IsPairFound found result
        key_len.old key_len.new value.old value.new out.old out.new)) }
    ensures unbounded { IfSome (kind_of kind) (λ _.
        IfNone (bounds_with from_bound from.now to_bound to.now) ((result ≡ unknown_search)
        × (key_len.new ≡ key_len.old) × (value.new ≡ value.old) × (out.new ≡ out.old))) }
    ensures unknown { IfNone (kind_of kind) ((result ≡ unknown_kind)
        × (key_len.new ≡ key_len.old) × (value.new ≡ value.old) × (out.new ≡ out.old)) }
{
    let Some(trie) = trie_of(kind, bytes) else {
        return UNKNOWN_KIND;
    };
    let Some((from, to)) = bounds_with(from_bound, from, to_bound, to) else {
        return UNKNOWN_SEARCH;
    };
    match trie.last_within(alloc, from, to) {
        Ok(found) => hand_out_pair(found, out, key_len, value),
        Err(_) => OUT_OF_MEMORY,
    }
}

/// Finds the first key, in the order of a listing, that has this value. Writes it to the beginning
/// of `out` if there is room, and sets `key_len`.
///
/// The status is `NO_ENTRY` if no key has the value. It reads the pairs up to that key.
#[unsafe(no_mangle)]
pub extern "C" fn zerotrie_first_key_of(
    alloc: Global,
    kind: u32,
    bytes: &[u8],
    value: usize,
    out: &mut [u8],
    key_len: &mut usize,
) -> u32
    ensures known { IfSome (kind_of kind) (λ k. (pairs : Pairs) → Lists k bytes.now pairs
        → IsKeyFound (first_key_of value pairs) result key_len.old key_len.new out.old out.new) }
    ensures any { IfSome (kind_of kind) (λ _. (found : Option (List ℕ)) × IsKeyFound found result
        key_len.old key_len.new out.old out.new) }
    ensures unknown { IfNone (kind_of kind) ((result ≡ unknown_kind)
        × (key_len.new ≡ key_len.old) × (out.new ≡ out.old)) }
{
    let Some(trie) = trie_of(kind, bytes) else {
        return UNKNOWN_KIND;
    };
    match trie.first_key_of(alloc, value) {
        Ok(found) => hand_out_key(found, out, key_len),
        Err(_) => OUT_OF_MEMORY,
    }
}
