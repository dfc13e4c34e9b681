//! Reverse look-ups: the first key that has a value, by a table of places.

ghost use Rattle.std.specs.Prelude.{◌≡◌, ℕ, List, Option, IfOk, IfSome, IfNone};
ghost use Rattle.std.specs.Option.{option_map};
ghost use Rattle.zerotrie_core.specs.Kinds.{kind_of as kind_that_is};
ghost use Rattle.zerotrie_core.specs.Maps.{Pairs};
ghost use Rattle.zerotrie_core.specs.Texts.{Lists};
ghost use Rattle.zerotrie_core.specs.Values.{first_key_of};
ghost use Rattle.zerotrie_c.specs.Builds.{IsHandedOut};
ghost use Rattle.zerotrie_c.specs.Found.{IsKeyFound};
ghost use Rattle.zerotrie_c.specs.Numbers.{kind_of};
ghost use Rattle.zerotrie_c.specs.Reversed.{ArePlaces, IsReverseTold};
ghost use Rattle.zerotrie_c.specs.Statuses.{unknown_kind};

use crate::found::hand_out_key;
use crate::numbers::{BUFFER_TOO_SMALL, DONE, OUT_OF_MEMORY, UNKNOWN_KIND, trie_of};
use std::alloc::{AllocError, Global};
use zerotrie_core::{Trie, TrieRef, by_kind};
use zerotrie_reverse::{Reverse, first_key_by_places};

/// Copies places into the room if there is room, and sets `count` to their number.
fn hand_out_places(places: &[u32], room: &mut [u32], count: &mut usize) -> u32
    ensures { IsHandedOut places.now result count.new room.old room.new }
{
    *count = places.len();
    if room.len() < places.len() {
        return BUFFER_TOO_SMALL;
    }
    let (front, _) = room.split_at_mut(places.len());
    front.copy_from_slice(places);
    DONE
}

/// Makes the table by which `zerotrie_reverse_key` finds the first key of a value: writes the places
/// of the values to the beginning of `places` if there is room, and sets `count` to their number.
///
/// There is a place for each pair, or there is none, if the bytes are malformed or have 4 GiB or
/// more. It lists all pairs, descends to the place of each, and sorts the places.
#[unsafe(no_mangle)]
pub extern "C" fn zerotrie_reverse_places(
    alloc: Global,
    kind: u32,
    bytes: &[u8],
    places: &mut [u32],
    count: &mut usize,
) -> u32
    ensures known { IfSome (kind_of kind) (λ k.
        IsReverseTold k bytes.now result count.old count.new places.old places.new) }
    ensures unknown { IfNone (kind_of kind) ((result ≡ unknown_kind) × (count.new ≡ count.old)
        × (places.new ≡ places.old)) }
{
    let Some(trie) = trie_of(kind, bytes) else {
        return UNKNOWN_KIND;
    };
    match trie.keys_by_value(alloc) {
        Ok(table) => match table.places() {
            Some(made) => hand_out_places(made, places, count),
            None => hand_out_places(&[], places, count),
        },
        Err(_) => OUT_OF_MEMORY,
    }
}

/// Returns the first key that has a value: by a table, or by the pairs if it has no places.
fn key_by_places(
    alloc: Global,
    trie: &TrieRef<'_>,
    places: &[u32],
    value: usize,
) -> Result<Option<Vec<u8>>, AllocError>
    ensures { ArePlaces (kind_that_is trie.now.kind) trie.now.bytes.now places.now
        → (pairs : Pairs) → Lists (kind_that_is trie.now.kind) trie.now.bytes.now pairs
        → IfOk result (λ key. option_map (λ k. k.items) key ≡ first_key_of value pairs) }
{
    if !places.is_empty() {
        return by_kind!(
            trie.kind,
            first_key_by_places::<_>(alloc, trie.bytes, places, value)
        );
    }
    match trie.first_key_of(alloc, value) {
        Ok(key) => Ok(key),
        Err(_) => Err(AllocError),
    }
}

/// Like `zerotrie_first_key_of`, by the places that `zerotrie_reverse_places` wrote for these bytes:
/// it searches among them by halves, and descends to the place that it finds. Without places it
/// reads the pairs.
///
/// Other places do no harm: the key that is found is then unspecified.
#[unsafe(no_mangle)]
pub extern "C" fn zerotrie_reverse_key(
    alloc: Global,
    kind: u32,
    bytes: &[u8],
    places: &[u32],
    value: usize,
    out: &mut [u8],
    key_len: &mut usize,
) -> u32
    ensures known { IfSome (kind_of kind) (λ k. ArePlaces k bytes.now places.now
        → (pairs : Pairs) → Lists k bytes.now pairs
        → IsKeyFound (first_key_of value pairs) result key_len.old key_len.new out.old out.new) }
    ensures any { IfSome (kind_of kind) (λ _. (found : Option (List ℕ)) × IsKeyFound found result
        key_len.old key_len.new out.old out.new) }
    ensures unknown { IfNone (kind_of kind) ((result ≡ unknown_kind)
        × (key_len.new ≡ key_len.old) × (out.new ≡ out.old)) }
{
    let Some(trie) = trie_of(kind, bytes) else {
        return UNKNOWN_KIND;
    };
    match key_by_places(alloc, &trie, places, value) {
        Ok(found) => hand_out_key(found, out, key_len),
        Err(_) => OUT_OF_MEMORY,
    }
}
