//! Look-ups in an index, of which what all look-ups read is read once.

ghost use Rattle.std.specs.Prelude.{◌≡◌, ℕ, List};
ghost use Rattle.zerotrie_base.specs.Kind.{simple_ascii};
ghost use Rattle.zerotrie_base.specs.Maps.{Pairs, value_at};
ghost use Rattle.zerotrie_index.specs.Layout.{IsIndex};
ghost use Rattle.zerotrie_index.specs.Built.{IsIndexOf};
ghost use Rattle.zerotrie_index.specs.Opened.{HasParts};

use crate::hash::hash_of;
use crate::laws;
use crate::reader::{Parts, bucket_of, entries_at, find_in, parts_of};
use std::marker::Model;

/// Returns the value of a key in an index that has these parts.
#[inline(always)]
fn value_in(parts: Parts<'_>, key: &[u8]) -> Option<usize>
    ensures { (bytes : List ℕ) (pairs : Pairs) → HasParts parts.entry bytes → IsIndex pairs bytes
        → result ≡ value_at simple_ascii pairs key.now }
{
    let hash = hash_of(parts.seed, key);
    let number = bucket_of(parts.count, hash) as usize;
    let (entry, next) = entries_at(parts.table, number)?;
    if (entry >> (hash % 32)) % 2 == 0 {
        return None;
    }
    let records = parts
        .pool
        .get((entry >> 32) as usize..(next >> 32) as usize)?;
    find_in(records, key)
}

/// An index that is open for look-ups: where its table and its pool are was read once.
///
/// ```
/// let index = ZeroIndex::try_from_sorted_slice(rt.alloc(), &[("ad", 22), ("adef", 33)])?;
/// let opened = OpenedIndex::new(index.as_bytes());
/// assert_eq!(rt; opened.get(b"adef"), Some(33));
/// assert_eq!(rt; opened.get(b"ade"), None);
/// ```
///
/// On malformed bytes results are unspecified; no call panics or reads outside them.
#[derive(Drop)]
pub struct OpenedIndex<'a> {
    bytes: &'a [u8],
    parts: Parts<'a>,
}

impl<'a> Model for OpenedIndex<'a> {
    ghost use Rattle.std.specs.Prelude.{List, ℕ};
    ghost use Rattle.zerotrie_index.specs.Opened.{HasParts};

    ghost Value = { List ℕ };

    ghost view = { λ index. index.bytes.now };

    ghost invariant = { λ index. HasParts index.parts index.bytes.now };
}

impl<'a> OpenedIndex<'a> {
    /// Opens the index of these bytes. Does not validate them, and does not allocate.
    #[inline(always)]
    pub fn new(bytes: &'a [u8]) -> Self
        ensures { result ≡ bytes.now }
    {
        match parts_of(bytes) {
            Some(parts) => OpenedIndex { bytes, parts },
            None => OpenedIndex {
                bytes,
                parts: Parts {
                    seed: 0,
                    count: 0,
                    table: &[],
                    pool: &[],
                },
            },
        }
    }

    /// Returns the bytes.
    pub fn as_bytes(&self) -> &'a [u8]
        ensures { result.now ≡ self.now }
    {
        self.bytes
    }

    /// Returns the value of a key.
    #[inline(always)]
    pub fn get(&self, key: &[u8]) -> Option<usize>
        ensures index { (pairs : Pairs) → IsIndex pairs self.now
            → result ≡ value_at simple_ascii pairs key.now }
        ensures given { (given : Pairs) → IsIndexOf given self.now
            → result ≡ value_at simple_ascii given key.now }
    {
        laws::built_answers_as_given();
        value_in(self.parts, key)
    }
}

/// Returns the value of a key in an index.
pub fn get(bytes: &[u8], key: &[u8]) -> Option<usize>
    ensures { (pairs : Pairs) → IsIndex pairs bytes.now
        → result ≡ value_at simple_ascii pairs key.now }
{
    OpenedIndex::new(bytes).get(key)
}
