//! Look-ups.

ghost use Rattle.std.specs.Prelude.{◌≡◌, ◌≤◌, false, IfSome, IfNone, IsTrue, length, drop};
ghost use Rattle.zerotrie_core.specs.Maps.{Map, look};
ghost use Rattle.zerotrie_core.specs.Texts.{Means};
ghost use Rattle.zerotrie_core.specs.Prefixes.{IsLongestPrefix};
ghost use Rattle.zerotrie_c.specs.Numbers.{kind_of};
ghost use Rattle.zerotrie_c.specs.Answers.{told, told_both};
ghost use Rattle.zerotrie_c.specs.Keys.{keys_from, values_or, written_over};
ghost use Rattle.zerotrie_c.specs.Statuses.{done, unknown_kind};

use crate::answers::{tell, tell_both};
use crate::many::{Finder, look_up_all};
use crate::numbers::{DONE, UNKNOWN_KIND, kind_of, trie_of};
use std::marker::PhantomData;
use zerotrie_core::{LookUps, Trie, ZeroTrieWithOptions, by_kind, get};

/// The number of keys from which a `LookUps` pays.
const MANY: usize = 64;

/// Returns whether the trie has the key, and then sets `value` to its value.
///
/// A number that no kind has is no error: no key is found.
#[unsafe(no_mangle)]
pub extern "C" fn zerotrie_get(kind: u32, bytes: &[u8], key: &[u8], value: &mut usize) -> bool
    ensures known { IfSome (kind_of kind) (λ k. (m : Map) → Means k bytes.now m
        → told result value.new ≡ look k m key.now) }
    ensures unknown { IfNone (kind_of kind) (result ≡ false) }
    ensures kept { result ≡ false → value.new ≡ value.old }
{
    match trie_of(kind, bytes) {
        Some(trie) => tell(trie.get(key), value),
        None => false,
    }
}

/// A trie of the kind `K`, in which each key is looked up from the first node.
#[derive(Drop)]
struct EachAlone<'a, K: ZeroTrieWithOptions> {
    bytes: &'a [u8],
    kind: PhantomData<K>,
}

impl<'a, K: ZeroTrieWithOptions> Finder for EachAlone<'a, K> {
    ghost MayFind = { λ trie key found. (m : Map) → Means K.kind trie.bytes.now m
        → found ≡ look K.kind m key };

    fn find(&mut self, key: &[u8]) -> Option<usize> {
        get::<K>(self.bytes, key)
    }
}

impl<'a, K: ZeroTrieWithOptions> Finder for LookUps<'a, K> {
    ghost MayFind = { λ trie key found. (m : Map) → Means K.kind trie m
        → found ≡ look K.kind m key };

    fn find(&mut self, key: &[u8]) -> Option<usize> {
        self.get(key)
    }
}

/// Looks up keys in a trie of the kind `K`: if they are many, each from the target of its first
/// byte.
fn look_up_in<K: ZeroTrieWithOptions>(
    bytes: &[u8],
    keys: &[u8],
    ends: &[usize],
    missing: usize,
    values: &mut [usize],
)
    ensures found { (m : Map) → Means K.kind bytes.now m
        → values.new ≡ written_over
        (values_or missing (look K.kind m) (keys_from 0 keys.now ends.now)) values.old }
    ensures any { drop (length ends.now) values.new ≡ drop (length ends.now) values.old }
{
    if ends.len() < MANY {
        let mut trie = EachAlone::<K> {
            bytes,
            kind: PhantomData,
        };
        look_up_all(&mut trie, keys, ends, missing, values);
    } else {
        let mut trie = LookUps::<K>::new(bytes);
        look_up_all(&mut trie, keys, ends, missing, values);
    }
}

/// Looks up keys and writes the value of each, or `missing` for a key that the trie does not have.
/// The keys are one after another, each up to its end.
///
/// An end past all bytes counts as their end, and an end below the one before it makes an empty
/// key. As many values are written as there are ends and room for values; the rest of the room
/// stays. If no kind has the number, nothing is written.
#[unsafe(no_mangle)]
pub extern "C" fn zerotrie_get_many(
    kind: u32,
    bytes: &[u8],
    keys: &[u8],
    ends: &[usize],
    missing: usize,
    values: &mut [usize],
) -> u32
    ensures known { IfSome (kind_of kind) (λ k. (result ≡ done) × ((m : Map) → Means k bytes.now m
        → values.new ≡ written_over
        (values_or missing (look k m) (keys_from 0 keys.now ends.now)) values.old)) }
    ensures any { drop (length ends.now) values.new ≡ drop (length ends.now) values.old }
    ensures unknown { IfNone (kind_of kind) ((result ≡ unknown_kind) × (values.new ≡ values.old)) }
{
    match kind_of(kind) {
        Some(kind) => by_kind!(kind, look_up_in::<_>(bytes, keys, ends, missing, values)),
        None => return UNKNOWN_KIND,
    }
    DONE
}

/// Returns whether the text begins with a key, and then sets `len` and `value` to the length and
/// the value of the longest one.
#[unsafe(no_mangle)]
pub extern "C" fn zerotrie_longest_prefix(
    kind: u32,
    bytes: &[u8],
    text: &[u8],
    len: &mut usize,
    value: &mut usize,
) -> bool
    ensures known { IfSome (kind_of kind) (λ k. (m : Map) → Means k bytes.now m
        → IsLongestPrefix k m text.now (told_both result len.new value.new)) }
    ensures within { IsTrue result → len.new ≤ length text.now }
    ensures unknown { IfNone (kind_of kind) (result ≡ false) }
    ensures kept { result ≡ false → (len.new ≡ len.old) × (value.new ≡ value.old) }
{
    match trie_of(kind, bytes) {
        Some(trie) => tell_both(trie.longest_prefix(text), len, value),
        None => false,
    }
}
