//! The keys that few edits make of a word, the nearest first.

ghost use Rattle.std.specs.Prelude.{◌≡◌, ◌≤◌, ◌*◌, ℕ, List, Option, length, IfSome, IfNone};
ghost use Rattle.std.proofs.Common.{suc};
ghost use Rattle.std.specs.FinMap.{entries};
ghost use Rattle.zerotrie_core.specs.Maps.{Pairs, Map};
ghost use Rattle.zerotrie_core.specs.Texts.{Means};
ghost use Rattle.zerotrie_core.specs.WellFormed.{IsWellFormed};
ghost use Rattle.zerotrie_search.specs.Nearest.{nearest as nearest_of};
ghost use Rattle.zerotrie_c.specs.Listed.{part, Part};
ghost use Rattle.zerotrie_c.specs.Nearest.{edits_by, measured, IsNearestListed, IsNearestTold};
ghost use Rattle.zerotrie_c.specs.Numbers.{kind_of};
ghost use Rattle.zerotrie_c.specs.Statuses.{unknown_kind, unknown_search, IsUnwritten};

use crate::folding::fold_copy;
use crate::numbers::{
    BUFFER_TOO_SMALL, DONE, OUT_OF_MEMORY, UNKNOWN_KIND, UNKNOWN_SEARCH, trie_of,
};
use crate::parts::{Page, put_at};
use crate::searches::{search_by, word_of};
use std::alloc::Global;
use zerotrie_search::{AnyAutomaton, ByKind, Fuzzy, Search, SearchBy, ZeroTrieNearest};

/// Returns how edits are counted, by the number of the search, or `None` if no search with edits has it.
fn edits_by(number: u32, edits: u32) -> Option<SearchBy>
    ensures { result ≡ edits_by number edits }
{
    match number {
        3..=6 => search_by(number, edits),
        _ => None,
    }
}

/// Writes the next pairs of a listing of the nearest, as many as the rooms have places for.
fn fill_nearest<T: Fuzzy>(
    mut pairs: ZeroTrieNearest<'_, T>,
    next_len: usize,
    keys: &mut [u8],
    ends: &mut [usize],
    values: &mut [usize],
    distances: &mut [usize],
) -> Page
    ensures listed { (measure : List ℕ → Option ℕ) (left : Pairs)
        → (T.measure pairs.entry.automaton ≡ measure)
        × IsWellFormed pairs.entry.kind pairs.entry.bytes × (pairs.entry.left.pairs ≡ left)
        → IsNearestListed measure left result.status
        (part keys.old ends.old values.old 0 next_len, distances.old)
        (part keys.new ends.new values.new result.count result.next_len, distances.new) }
    ensures any { (measure : List ℕ → Option ℕ) (most : ℕ)
        → (T.measure pairs.entry.automaton ≡ measure) × (pairs.entry.most ≤ most)
        → (found : Pairs) × (length found ≤ most) × IsNearestListed measure found result.status
        (part keys.old ends.old values.old 0 next_len, distances.old)
        (part keys.new ends.new values.new result.count result.next_len, distances.new) }
{
    let mut count = 0;
    let mut used = 0;
    let room = ends.len().min(values.len()).min(distances.len());
    loop {
        match pairs.advance() {
            Ok(true) => {}
            Ok(false) => return Page::new(DONE, count, 0),
            Err(_) => return Page::new(OUT_OF_MEMORY, count, next_len),
        }
        let key = pairs.key();
        if count >= room || key.len() > keys.len() - used {
            return Page::new(BUFFER_TOO_SMALL, count, key.len());
        }
        put_at(key, keys, used);
        used += key.len();
        ends[count] = used;
        values[count] = pairs.value();
        distances[count] = pairs.distance();
        count += 1;
    }
}

/// Writes the pairs whose keys at most `edits` edits make of a word, the nearest first, and those that
/// are as near in the order of bytes, as many as the rooms have places for: the keys one after another,
/// where each ends, the values, and how many edits make each key.
///
/// `by` is the number of a search with edits, which says how they are counted. The rooms, `count`,
/// `next_len` and the status are as in `zerotrie_list_some`, and a call does not continue. If no kind or
/// no search with edits has the number, or the word is refused, nothing is written. It searches once
/// for each number of edits, as far as there is room.
///
/// In the kind that ignores case, keys and the word are compared in lower case.
#[unsafe(no_mangle)]
pub extern "C" fn zerotrie_nearest(
    alloc: Global,
    kind: u32,
    bytes: &[u8],
    by: u32,
    word: &[u8],
    edits: u32,
    keys: &mut [u8],
    ends: &mut [usize],
    values: &mut [usize],
    distances: &mut [usize],
    count: &mut usize,
    next_len: &mut usize,
) -> u32
    ensures known { IfSome (kind_of kind) (λ k. IfSome (edits_by by edits) (λ how.
        (m : Map) → Means k bytes.now m → IsNearestTold k (how, word.now)
        (nearest_of (measured k how word.now) (entries m) 0 (suc edits)) result
        (part keys.old ends.old values.old count.old next_len.old, distances.old)
        (part keys.new ends.new values.new count.new next_len.new, distances.new))) }
    ensures any { IfSome (kind_of kind) (λ k. IfSome (edits_by by edits) (λ how.
        (pairs : Pairs) × (length pairs ≤ suc edits * length bytes.now)
        × IsNearestTold k (how, word.now) pairs result
        (part keys.old ends.old values.old count.old next_len.old, distances.old)
        (part keys.new ends.new values.new count.new next_len.new, distances.new))) }
    ensures uncounted { IfSome (kind_of kind) (λ _. IfNone (edits_by by edits)
        ((result ≡ unknown_search)
        × IsUnwritten {A = Part × List ℕ}
        (part keys.old ends.old values.old count.old next_len.old, distances.old)
        (part keys.new ends.new values.new count.new next_len.new, distances.new))) }
    ensures unknown { IfNone (kind_of kind) ((result ≡ unknown_kind)
        × IsUnwritten {A = Part × List ℕ}
        (part keys.old ends.old values.old count.old next_len.old, distances.old)
        (part keys.new ends.new values.new count.new next_len.new, distances.new)) }
{
    let Some(trie) = trie_of(kind, bytes) else {
        return UNKNOWN_KIND;
    };
    let Some(by) = edits_by(by, edits) else {
        return UNKNOWN_SEARCH;
    };
    if let Err(status) = word_of(trie.kind, by, word) {
        return status;
    }
    let Ok(folded) = fold_copy(alloc, trie.kind, by, word) else {
        return Page::new(OUT_OF_MEMORY, 0, *next_len).unpack(count, next_len);
    };
    let sought = match word_of(trie.kind, by, folded.as_slice()) {
        Ok(sought) => sought,
        Err(status) => return status,
    };
    match sought {
        AnyAutomaton::Fuzzy(near) => {
            let pairs = trie.nearest(alloc, ByKind(trie.kind, near));
            fill_nearest(pairs, *next_len, keys, ends, values, distances).unpack(count, next_len)
        }
        AnyAutomaton::FuzzyChars(near) => {
            let pairs = trie.nearest(alloc, ByKind(trie.kind, near));
            fill_nearest(pairs, *next_len, keys, ends, values, distances).unpack(count, next_len)
        }
        AnyAutomaton::Swaps(near) => {
            let pairs = trie.nearest(alloc, ByKind(trie.kind, near));
            fill_nearest(pairs, *next_len, keys, ends, values, distances).unpack(count, next_len)
        }
        AnyAutomaton::SwapsChars(near) => {
            let pairs = trie.nearest(alloc, ByKind(trie.kind, near));
            fill_nearest(pairs, *next_len, keys, ends, values, distances).unpack(count, next_len)
        }
        AnyAutomaton::Prefix(_)
        | AnyAutomaton::Range(_)
        | AnyAutomaton::Glob(_)
        | AnyAutomaton::GlobChars(_)
        | AnyAutomaton::Subsequence(_) => UNKNOWN_SEARCH,
    }
}
