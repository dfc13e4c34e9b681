//! What changed from one trie to another, a part at a time.

ghost use Rattle.std.specs.Prelude.{◌≡◌, ◌⊎◌, IfOk, IfErr, IfSome, IfNone};
ghost use Rattle.std.specs.Range.Bound.{bound_map};
ghost use Rattle.zerotrie_core.specs.Kinds.{kind_of as kind_that_is};
ghost use Rattle.zerotrie_core.specs.Maps.{Map};
ghost use Rattle.zerotrie_core.specs.Texts.{Means};
ghost use Rattle.zerotrie_core.specs.WellFormed.{IsWellFormed};
ghost use Rattle.zerotrie_search.specs.Sorted.{within};
ghost use Rattle.zerotrie_sets.specs.Changes.{changes};
ghost use Rattle.zerotrie_c.specs.Changed.{told_change, IsDiffListed, IsDiffTold};
ghost use Rattle.zerotrie_c.specs.Numbers.{kind_of};
ghost use Rattle.zerotrie_c.specs.Sorted.{bounds_with};
ghost use Rattle.zerotrie_c.specs.Statuses.{unknown_kind, unknown_search};
ghost use Rattle.zerotrie_c.specs.declared.sets.SetError.TheVariants as error;

use crate::numbers::{
    BUFFER_TOO_SMALL, DONE, MALFORMED_TRIE, OUT_OF_MEMORY, UNKNOWN_KIND, UNKNOWN_SEARCH, trie_of,
};
use crate::parts::put_at;
use crate::sets::{SetError, Source, set_status_of};
use crate::sorted::bounds_with;
use std::alloc::Global;
use std::ops::Bound;
use zerotrie_core::TrieRef;
use zerotrie_search::Search;
use zerotrie_sets::{Change, Diff, SortedTrie};

/// How a key changed, with C's layout: where the key ends, its values before and after, and the
/// number of how it changed.
#[repr(C)]
#[derive(Clone, Copy)]
pub struct Changed {
    pub key_end: usize,
    pub before: usize,
    pub after: usize,
    pub how: u32,
}

/// Returns how the key that ends here changed. A value that it does not have is 0.
fn told_change(key_end: usize, change: Change) -> Changed
    ensures { result ≡ told_change key_end change }
{
    match change {
        Change::Added(value) => Changed {
            key_end,
            before: 0,
            after: value,
            how: 0,
        },
        Change::Removed(value) => Changed {
            key_end,
            before: value,
            after: 0,
            how: 1,
        },
        Change::Changed(first, second) => Changed {
            key_end,
            before: first,
            after: second,
            how: 2,
        },
    }
}

/// Returns the pairs of a trie between two bounds in the order of bytes.
fn sorted_of<'t>(
    alloc: Global,
    trie: &'t TrieRef<'_>,
    from: Bound<&[u8]>,
    to: Bound<&'t [u8]>,
) -> Result<SortedTrie<'t, 't>, SetError>
    ensures ok { IfOk result (λ s.
        (m : Map) × Means (kind_that_is trie.now.kind) trie.now.bytes.now m
        × (s.left.pairs ≡ within (bound_map (λ b. b.now) from.entry)
        (bound_map (λ b. b.now) to.entry) m)) }
    ensures err { IfErr result (λ e. (e ≡ error.OutOfMemory) ⊎ ((e ≡ error.Malformed)
        × (IsWellFormed (kind_that_is trie.now.kind) trie.now.bytes.now → ⊥))) }
{
    let Ok(pairs) = trie.stream_sorted(alloc, from, to) else {
        return Err(SetError::OutOfMemory);
    };
    match SortedTrie::validated(pairs) {
        Some(stream) => Ok(stream),
        None => Err(SetError::Malformed),
    }
}

/// Writes the next changes, as many as the rooms have places for.
fn write_changes(
    mut diff: Diff<SortedTrie<'_, '_>, SortedTrie<'_, '_>>,
    keys: &mut [u8],
    changes: &mut [Changed],
    count: &mut usize,
    next_len: &mut usize,
) -> u32
    ensures { IsDiffListed diff.entry.left.items result keys.old keys.new changes.old changes.new
        count.new next_len.old next_len.new }
{
    *count = 0;
    let mut used = 0;
    loop {
        match diff.advance() {
            Ok(true) => {}
            Ok(false) => {
                *next_len = 0;
                return DONE;
            }
            Err(_) => return OUT_OF_MEMORY,
        }
        let key = diff.key();
        if *count >= changes.len() || key.len() > keys.len() - used {
            *next_len = key.len();
            return BUFFER_TOO_SMALL;
        }
        put_at(key, keys, used);
        used += key.len();
        changes[*count] = told_change(used, diff.change());
        *count += 1;
    }
}

/// Writes what changed from the pairs of one trie between two bounds to those of another one, in the
/// order of bytes, as much as the rooms have places for: the keys one after another, and how each
/// changed. A key that both have with one value is passed over. To continue after the last key that a
/// call wrote, give that key as an excluded lower bound.
///
/// The rooms, `count`, `next_len` and the status are as in `zerotrie_list_some`. If no kind or no
/// bound has the number, or bytes are not valid, nothing is written. A call validates the bytes of
/// both tries, and reads the pairs of both from the lower bound on.
#[unsafe(no_mangle)]
pub extern "C" fn zerotrie_diff_some(
    alloc: Global,
    first: &Source<'_>,
    second: &Source<'_>,
    from_bound: u32,
    from: &[u8],
    to_bound: u32,
    to: &[u8],
    keys: &mut [u8],
    changes: &mut [Changed],
    count: &mut usize,
    next_len: &mut usize,
) -> u32
    ensures known { IfSome (kind_of first.now.kind) (λ k. IfSome (kind_of second.now.kind) (λ l.
        IfSome (bounds_with from_bound from.now to_bound to.now) (λ b.
        IsDiffTold k first.now.nodes.now l second.now.nodes.now b.0 b.1 result
        keys.old keys.new changes.old changes.new count.old count.new
        next_len.old next_len.new))) }
    ensures unbounded { IfSome (kind_of first.now.kind) (λ _.
        IfSome (kind_of second.now.kind) (λ _.
        IfNone (bounds_with from_bound from.now to_bound to.now) ((result ≡ unknown_search)
        × (keys.new ≡ keys.old) × (changes.new ≡ changes.old)
        × (count.new ≡ count.old) × (next_len.new ≡ next_len.old)))) }
    ensures unknown { ((kind_of first.now.kind ≡ None) ⊎ (kind_of second.now.kind ≡ None))
        → (result ≡ unknown_kind) × (keys.new ≡ keys.old) × (changes.new ≡ changes.old)
        × (count.new ≡ count.old) × (next_len.new ≡ next_len.old) }
{
    let Some(old) = trie_of(first.kind, first.nodes) else {
        return UNKNOWN_KIND;
    };
    let Some(new) = trie_of(second.kind, second.nodes) else {
        return UNKNOWN_KIND;
    };
    let Some((from, to)) = bounds_with(from_bound, from, to_bound, to) else {
        return UNKNOWN_SEARCH;
    };
    let old = match sorted_of(alloc, &old, from, to) {
        Ok(pairs) => pairs,
        Err(error) => return set_status_of(error),
    };
    match sorted_of(alloc, &new, from, to) {
        Ok(new) => write_changes(Diff::new(old, new), keys, changes, count, next_len),
        Err(error) => set_status_of(error),
    }
}
