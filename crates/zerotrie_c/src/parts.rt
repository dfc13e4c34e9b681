//! Listings, a part at a time.

ghost use Rattle.std.specs.Prelude.{◌≡◌, ◌≤◌, ◌+◌, ◌++◌, ℕ, List, Bool, length, take, drop, IfOk, IfSome, IfNone};
ghost use Rattle.zerotrie_core.specs.Kinds.{kind_of as kind_that_is};
ghost use Rattle.zerotrie_core.specs.Maps.{Pairs, beginning};
ghost use Rattle.zerotrie_core.specs.Texts.{Lists};
ghost use Rattle.zerotrie_core.specs.Listings.{to_come};
ghost use Rattle.zerotrie_search.specs.Searches.{accepted};
ghost use Rattle.zerotrie_c.specs.Numbers.{kind_of};
ghost use Rattle.zerotrie_c.specs.Statuses.{unknown_kind, IsUnwritten};
ghost use Rattle.zerotrie_c.specs.Listed.{left_of, part, IsListedSome};

use crate::numbers::{BUFFER_TOO_SMALL, DONE, OUT_OF_MEMORY, UNKNOWN_KIND, trie_of};
use std::alloc::{AllocError, Global};
use zerotrie_core::{Trie, TrieRef, ZeroTrieStream, by_kind};
use zerotrie_search::TrieListing;

/// What a call for a part of a listing tells: its status, how many pairs it wrote, and the length of
/// the next key.
#[derive(Clone, Copy)]
pub struct Page {
    pub status: u32,
    pub count: usize,
    pub next_len: usize,
}

impl Page {
    /// Returns a page of these numbers.
    pub fn new(status: u32, count: usize, next_len: usize) -> Self
        ensures { (result.status ≡ status) × (result.count ≡ count) × (result.next_len ≡ next_len) }
    {
        Page {
            status,
            count,
            next_len,
        }
    }

    /// Sets the numbers of the page, and returns its status.
    pub fn unpack(self, count: &mut usize, next_len: &mut usize) -> u32
        ensures status { result ≡ self.status }
        ensures count { count.new ≡ self.count }
        ensures next_len { next_len.new ≡ self.next_len }
    {
        *count = self.count;
        *next_len = self.next_len;
        self.status
    }
}

/// Copies bytes into the room at a place.
pub fn put_at(bytes: &[u8], room: &mut [u8], place: usize)
    requires { place + length bytes.now ≤ length room.old }
    ensures { room.new ≡ take place room.old
        ++ (bytes.now ++ drop (place + length bytes.now) room.old) }
{
    let (_, rest) = room.split_at_mut(place);
    let (part, _) = rest.split_at_mut(bytes.len());
    part.copy_from_slice(bytes);
}

/// Writes the next pairs of a listing, as many as the rooms have places for. Without a listing, an
/// allocation failed.
pub fn fill<L: TrieListing + Drop>(
    listing: Result<L, AllocError>,
    next_len: usize,
    keys: &mut [u8],
    ends: &mut [usize],
    values: &mut [usize],
) -> Page
    ensures listed { (pairs : Pairs)
        → IfOk listing (λ l. L.IsValid l × ((L.left l).pairs ≡ pairs))
        → IsListedSome pairs result.status (part keys.old ends.old values.old 0 next_len)
        (part keys.new ends.new values.new result.count result.next_len) }
    ensures any { (most : ℕ) (takes : List ℕ → Bool)
        → IfOk listing (λ l. (L.most l ≤ most) × (L.takes l ≡ takes))
        → (pairs : Pairs) × (length pairs ≤ most)
        × IsListedSome pairs result.status (part keys.old ends.old values.old 0 next_len)
        (part keys.new ends.new values.new result.count result.next_len)
        × (accepted takes pairs ≡ pairs) }
{
    let Ok(mut pairs) = listing else {
        return Page::new(OUT_OF_MEMORY, 0, next_len);
    };
    let mut count = 0;
    let mut used = 0;
    let room = ends.len().min(values.len());
    loop {
        match pairs.advance() {
            Ok(true) => {}
            Ok(false) => return Page::new(DONE, count, 0),
            Err(_) => return Page::new(OUT_OF_MEMORY, count, next_len),
        }
        let key = pairs.key();
        if count >= room || key.len() > keys.len() - used {
            return Page::new(BUFFER_TOO_SMALL, count, key.len());
        }
        put_at(key, keys, used);
        used += key.len();
        ends[count] = used;
        values[count] = pairs.value();
        count += 1;
    }
}

/// Returns the pairs of a prefix that are left of a listing, in the order of the trie.
pub fn left_of<'a>(
    alloc: Global,
    trie: &'a TrieRef<'_>,
    prefix: &[u8],
    goes_on: bool,
    last: &[u8],
) -> Result<ZeroTrieStream<'a>, AllocError>
    ensures lists { IfOk result (λ s. (pairs : Pairs)
        → Lists (kind_that_is trie.now.kind) trie.now.bytes.now pairs
        → s.left ≡ to_come (left_of (kind_that_is trie.now.kind) goes_on last.now
        (beginning (kind_that_is trie.now.kind) prefix.now pairs))) }
    ensures most { IfOk result (λ s. length s.left.pairs ≤ length trie.now.bytes.now) }
{
    if !goes_on {
        return trie.stream_prefix(alloc, prefix);
    }
    by_kind!(
        trie.kind,
        ZeroTrieStream::after::<_>(alloc, trie.bytes, prefix, last)
    )
}

/// Writes the next pairs whose keys begin with a prefix, as many as the rooms have places for: the
/// keys one after another, where each ends, and the values. If `goes_on`, it continues after the
/// key `last`, which the call before wrote last; otherwise it begins with the first pair.
///
/// The status is `DONE` if no pair is left, and then `next_len` is 0. If the next pair has no room,
/// `next_len` is the length of its key. If an allocation fails, the pairs that `count` counts are
/// written, and `next_len` stays. If no kind has the number, nothing is written. A call costs a
/// look-up of `last`, and reads no pair before it.
///
/// On malformed bytes it does the same for some pairs, at most as many as there are bytes.
#[unsafe(no_mangle)]
pub extern "C" fn zerotrie_list_some(
    alloc: Global,
    kind: u32,
    bytes: &[u8],
    prefix: &[u8],
    goes_on: bool,
    last: &[u8],
    keys: &mut [u8],
    ends: &mut [usize],
    values: &mut [usize],
    count: &mut usize,
    next_len: &mut usize,
) -> u32
    ensures known { IfSome (kind_of kind) (λ k. (pairs : Pairs) → Lists k bytes.now pairs
        → IsListedSome (left_of k goes_on last.now (beginning k prefix.now pairs)) result
        (part keys.old ends.old values.old count.old next_len.old)
        (part keys.new ends.new values.new count.new next_len.new)) }
    ensures any { IfSome (kind_of kind) (λ _. (pairs : Pairs) × (length pairs ≤ length bytes.now)
        × IsListedSome pairs result (part keys.old ends.old values.old count.old next_len.old)
        (part keys.new ends.new values.new count.new next_len.new)) }
    ensures unknown { IfNone (kind_of kind) ((result ≡ unknown_kind)
        × IsUnwritten (part keys.old ends.old values.old count.old next_len.old)
        (part keys.new ends.new values.new count.new next_len.new)) }
{
    let Some(trie) = trie_of(kind, bytes) else {
        return UNKNOWN_KIND;
    };
    let pairs = left_of(alloc, &trie, prefix, goes_on, last);
    fill(pairs, *next_len, keys, ends, values).unpack(count, next_len)
}
