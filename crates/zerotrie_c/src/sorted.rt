//! Listings in the order of bytes, a part at a time.

ghost use Rattle.std.specs.Prelude.{◌≡◌, ◌≤◌, List, ℕ, length, IfSome, IfNone};
ghost use Rattle.std.specs.Option.{option_map};
ghost use Rattle.std.specs.Range.Bound.{bound_map};
ghost use Rattle.std.specs.declared.ops.Bound.{Bound};
ghost use Rattle.zerotrie_core.specs.Maps.{Pairs, Map};
ghost use Rattle.zerotrie_core.specs.Texts.{Means};
ghost use Rattle.zerotrie_search.specs.Sorted.{within};
ghost use Rattle.zerotrie_c.specs.Numbers.{kind_of};
ghost use Rattle.zerotrie_c.specs.Statuses.{unknown_kind, unknown_search, IsUnwritten};
ghost use Rattle.zerotrie_c.specs.Listed.{part, IsListedSome};
ghost use Rattle.zerotrie_c.specs.Sorted.{bounds_with};

use crate::numbers::{UNKNOWN_KIND, UNKNOWN_SEARCH, trie_of};
use crate::parts::fill;
use crate::searches::bound_with;
use std::alloc::Global;
use std::ops::Bound;
use zerotrie_search::Search;

/// Returns the lower and the upper bound with these numbers at two keys, or `None` if a number is
/// that of no bound.
pub fn bounds_with<'f, 't>(
    from_bound: u32,
    from: &'f [u8],
    to_bound: u32,
    to: &'t [u8],
) -> Option<(Bound<&'f [u8]>, Bound<&'t [u8]>)>
    ensures { option_map {U = Bound (List ℕ) × Bound (List ℕ)}
        (λ b. (bound_map (λ k. k.now) b.0, bound_map (λ k. k.now) b.1)) result
        ≡ bounds_with from_bound from.now to_bound to.now }
{
    let from = bound_with(from_bound, from)?;
    let to = bound_with(to_bound, to)?;
    Some((from, to))
}

/// Writes the pairs whose keys are between two bounds, in the order of bytes in every kind, as many
/// as the rooms have places for: the keys one after another, where each ends, and the values. To
/// continue after the last key that a call wrote, give that key as an excluded lower bound.
///
/// The rooms, `count`, `next_len` and the status are as in `zerotrie_list_some`. If no kind or no
/// bound has the number, nothing is written. A call costs a look-up of the lower bound, and compares
/// the edges at each byte of the keys that it lists.
///
/// On malformed bytes it does the same for some pairs, at most as many as there are bytes.
#[unsafe(no_mangle)]
pub extern "C" fn zerotrie_sorted_some(
    alloc: Global,
    kind: u32,
    bytes: &[u8],
    from_bound: u32,
    from: &[u8],
    to_bound: u32,
    to: &[u8],
    keys: &mut [u8],
    ends: &mut [usize],
    values: &mut [usize],
    count: &mut usize,
    next_len: &mut usize,
) -> u32
    ensures known { IfSome (kind_of kind) (λ k.
        IfSome (bounds_with from_bound from.now to_bound to.now) (λ b.
        (m : Map) → Means k bytes.now m → IsListedSome (within b.0 b.1 m) result
        (part keys.old ends.old values.old count.old next_len.old)
        (part keys.new ends.new values.new count.new next_len.new))) }
    ensures any { IfSome (kind_of kind) (λ _.
        IfSome (bounds_with from_bound from.now to_bound to.now) (λ _.
        (pairs : Pairs) × (length pairs ≤ length bytes.now) × IsListedSome pairs result
        (part keys.old ends.old values.old count.old next_len.old)
        (part keys.new ends.new values.new count.new next_len.new))) }
    ensures unbounded { IfSome (kind_of kind) (λ _.
        IfNone (bounds_with from_bound from.now to_bound to.now) ((result ≡ unknown_search)
        × IsUnwritten (part keys.old ends.old values.old count.old next_len.old)
        (part keys.new ends.new values.new count.new next_len.new))) }
    ensures unknown { IfNone (kind_of kind) ((result ≡ unknown_kind)
        × IsUnwritten (part keys.old ends.old values.old count.old next_len.old)
        (part keys.new ends.new values.new count.new next_len.new)) }
{
    let Some(trie) = trie_of(kind, bytes) else {
        return UNKNOWN_KIND;
    };
    let Some((from, to)) = bounds_with(from_bound, from, to_bound, to) else {
        return UNKNOWN_SEARCH;
    };
    let pairs = trie.stream_sorted(alloc, from, to);
    fill(pairs, *next_len, keys, ends, values).unpack(count, next_len)
}
