//! Whole listings.

ghost use Rattle.std.specs.Prelude.{◌≡◌, ◌≤◌, ◌+◌, ◌&&◌, ◌++◌, ◌∷◌, [], length, IfOk, IfErr, OnOk, IfSome, IfNone};
ghost use Rattle.zerotrie_core.specs.Maps.{Pairs, beginning};
ghost use Rattle.zerotrie_core.specs.Texts.{Lists};
ghost use Rattle.zerotrie_core.specs.declared.listing.ListError.TheVariants.{OutOfMemory};
ghost use Rattle.zerotrie_c.specs.Numbers.{kind_of};
ghost use Rattle.zerotrie_c.specs.Statuses.{unknown_kind};
ghost use Rattle.zerotrie_c.specs.Listed.{joined, ends_from, values_of, status_if, IsFlat, IsPut, IsGiven, IsListed};

use crate::numbers::{BUFFER_TOO_SMALL, DONE, OUT_OF_MEMORY, UNKNOWN_KIND, trie_of};
use std::alloc::{AllocError, Global};
use zerotrie_core::{ListError, Trie, ZeroTrieStream};

/// Keys one after another, where each ends, and their values.
#[derive(Drop)]
pub struct Flat {
    pub keys: Vec<u8>,
    pub ends: Vec<usize>,
    pub values: Vec<usize>,
}

impl Flat {
    /// Returns no keys.
    pub fn new(alloc: Global) -> Self
        ensures { (result.keys.items ≡ []) × (result.ends.items ≡ []) × (result.values.items ≡ []) }
    {
        Flat {
            keys: Vec::new(alloc),
            ends: Vec::new(alloc),
            values: Vec::new(alloc),
        }
    }

    /// Adds a key and its value.
    pub fn push(&mut self, key: &[u8], value: usize) -> Result<(), AllocError>
        ensures keys { OnOk result (self.new.keys.items ≡ self.old.keys.items ++ key.now) }
        ensures ends { OnOk result (self.new.ends.items
            ≡ self.old.ends.items ++ (length self.old.keys.items + length key.now) ∷ []) }
        ensures values { OnOk result (self.new.values.items ≡ self.old.values.items ++ value ∷ []) }
    {
        self.keys.extend_from_slice(key)?;
        self.ends.push(self.keys.len())?;
        self.values.push(value)?;
        Ok(())
    }
}

/// Returns the pairs of a stream.
fn flat_of(alloc: Global, mut pairs: ZeroTrieStream<'_>) -> Result<Flat, ListError>
    ensures listed { IfOk result (λ f.
        IsFlat pairs.entry.left.pairs f.keys.items f.ends.items f.values.items) }
    ensures refused { IfErr result (λ e. e ≡ OutOfMemory) }
{
    let mut listed = Flat::new(alloc);
    while pairs.advance()? {
        listed.push(pairs.key(), pairs.value())?;
    }
    Ok(listed)
}

/// Copies items to the beginning of the room, if there is enough.
fn put<T: Copy>(items: &[T], room: &mut [T]) -> bool
    ensures { IsPut items.now result room.old room.new }
{
    if room.len() < items.len() {
        return false;
    }
    let (front, _) = room.split_at_mut(items.len());
    front.copy_from_slice(items);
    true
}

/// Returns the status of three copies.
fn status_of_rooms(keys: bool, ends: bool, values: bool) -> u32
    ensures { result ≡ status_if (keys && ends && values) }
{
    if keys && ends && values {
        DONE
    } else {
        BUFFER_TOO_SMALL
    }
}

/// Copies the pairs out, and sets their lengths.
fn give(
    listed: &Flat,
    keys: &mut [u8],
    ends: &mut [usize],
    values: &mut [usize],
    key_bytes: &mut usize,
    count: &mut usize,
) -> u32
    ensures { (pairs : Pairs) → IsFlat pairs listed.now.keys.items listed.now.ends.items listed.now.values.items
        → IsGiven (joined pairs) (ends_from 0 pairs) (values_of pairs) result
        keys.old keys.new ends.old ends.new values.old values.new key_bytes.new count.new }
{
    *key_bytes = listed.keys.len();
    *count = listed.values.len();
    let whole_keys = put(listed.keys.as_slice(), keys);
    let whole_ends = put(listed.ends.as_slice(), ends);
    let whole_values = put(listed.values.as_slice(), values);
    status_of_rooms(whole_keys, whole_ends, whole_values)
}

/// Writes the pairs of a trie whose keys begin with a prefix, with the empty prefix all pairs: the
/// keys one after another, where each ends, and the values.
///
/// It sets `key_bytes` and `count` even if some room is too small. A room that is too small stays
/// as it is. If no kind has the number, or an allocation fails, nothing is written.
///
/// On malformed bytes it does the same for some pairs, at most as many as there are bytes.
#[unsafe(no_mangle)]
pub extern "C" fn zerotrie_list(
    alloc: Global,
    kind: u32,
    bytes: &[u8],
    prefix: &[u8],
    keys: &mut [u8],
    ends: &mut [usize],
    values: &mut [usize],
    key_bytes: &mut usize,
    count: &mut usize,
) -> u32
    ensures known { IfSome (kind_of kind) (λ k. (pairs : Pairs) → Lists k bytes.now pairs
        → IsListed (beginning k prefix.now pairs) result keys.old keys.new ends.old ends.new
        values.old values.new key_bytes.old key_bytes.new count.old count.new) }
    ensures any { IfSome (kind_of kind) (λ _. (pairs : Pairs) × (length pairs ≤ length bytes.now)
        × IsListed pairs result keys.old keys.new ends.old ends.new values.old values.new
        key_bytes.old key_bytes.new count.old count.new) }
    ensures unknown { IfNone (kind_of kind) ((result ≡ unknown_kind) × (keys.new ≡ keys.old)
        × (ends.new ≡ ends.old) × (values.new ≡ values.old) × (key_bytes.new ≡ key_bytes.old)
        × (count.new ≡ count.old)) }
{
    let Some(trie) = trie_of(kind, bytes) else {
        return UNKNOWN_KIND;
    };
    let Ok(pairs) = trie.stream_prefix(alloc, prefix) else {
        return OUT_OF_MEMORY;
    };
    match flat_of(alloc, pairs) {
        Ok(listed) => give(&listed, keys, ends, values, key_bytes, count),
        Err(_) => OUT_OF_MEMORY,
    }
}
