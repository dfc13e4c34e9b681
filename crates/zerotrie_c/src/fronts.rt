//! The keys that a text begins with.

ghost use Rattle.std.specs.Prelude.{◌≡◌, ◌≤◌, ◌+◌, ℕ, List, All, length, set, false, IsTrue, IfSome, IfNone};
ghost use Rattle.zerotrie_core.specs.Borders.{IsLongestPrefixAt};
ghost use Rattle.zerotrie_core.specs.Maps.{Map};
ghost use Rattle.zerotrie_core.specs.Prefixes.{common_prefixes};
ghost use Rattle.zerotrie_core.specs.Texts.{Means};
ghost use Rattle.zerotrie_c.specs.Answers.{told_both};
ghost use Rattle.zerotrie_c.specs.Fronts.{AreFrontsTold};
ghost use Rattle.zerotrie_c.specs.Numbers.{kind_of};

use crate::answers::tell_both;
use crate::numbers::trie_of;
use zerotrie_core::Trie;

/// Writes a number at a place of the room, if the room has it.
fn put_at(room: &mut [usize], place: usize, number: usize)
    ensures { room.new ≡ set room.old place number }
{
    if place < room.len() {
        room[place] = number;
    }
}

/// Returns how many keys the text begins with. Writes their lengths to `lens` and their values to
/// `values`, the shortest key first, as far as each of them has room. The rest of the room stays.
///
/// A number that no kind has is no error: no key is found.
#[unsafe(no_mangle)]
pub extern "C" fn zerotrie_common_prefixes(
    kind: u32,
    bytes: &[u8],
    text: &[u8],
    lens: &mut [usize],
    values: &mut [usize],
) -> usize
    ensures known { IfSome (kind_of kind) (λ k. (m : Map) → Means k bytes.now m
        → AreFrontsTold (common_prefixes k m text.now) result
        lens.old lens.new values.old values.new) }
    ensures any { (fronts : List (ℕ × ℕ)) × All (λ f. f.0 ≤ length text.now) fronts
        × (length fronts ≤ length text.now + 1)
        × AreFrontsTold fronts result lens.old lens.new values.old values.new }
    ensures unknown { IfNone (kind_of kind) ((result ≡ 0) × (lens.new ≡ lens.old)
        × (values.new ≡ values.old)) }
{
    let Some(trie) = trie_of(kind, bytes) else {
        return 0;
    };
    let mut count = 0;
    for (len, value) in trie.common_prefixes(text) {
        put_at(lens, count, len);
        put_at(values, count, value);
        count += 1;
    }
    count
}

/// Returns whether the text begins with a key after which it ends or continues with one of the
/// delimiters, and then sets `prefix_len` and `value` to the length and the value of the longest
/// one. The empty key counts whatever follows.
#[unsafe(no_mangle)]
pub extern "C" fn zerotrie_longest_prefix_at(
    kind: u32,
    bytes: &[u8],
    text: &[u8],
    delimiters: &[u8],
    prefix_len: &mut usize,
    value: &mut usize,
) -> bool
    ensures known { IfSome (kind_of kind) (λ k. (m : Map) → Means k bytes.now m
        → IsLongestPrefixAt k m delimiters.now text.now
        (told_both result prefix_len.new value.new)) }
    ensures within { IsTrue result → prefix_len.new ≤ length text.now }
    ensures unknown { IfNone (kind_of kind) (result ≡ false) }
    ensures kept { result ≡ false
        → (prefix_len.new ≡ prefix_len.old) × (value.new ≡ value.old) }
{
    match trie_of(kind, bytes) {
        Some(trie) => tell_both(trie.longest_prefix_at(text, delimiters), prefix_len, value),
        None => false,
    }
}
