//! Items that are asked for by number, however they are kept.

ghost use Rattle.std.specs.Prelude.{◌≡◌, ◌<◌, Some, length, slice_get, ◌-◌, ◌↔◌, IfOk, IsTrue, All, option_map};
ghost use Rattle.zerotrie_base.specs.Items.{keyed, pairs_of};
ghost use Rattle.zerotrie_base.specs.Maps.{Pairs, Ascends};
ghost use Rattle.zerotrie_build.specs.Items.{pairs};
ghost use Rattle.zerotrie_build.specs.passes.Windows.{item_no};

use crate::order::{are_keys, is_ordered};
use std::alloc::{AllocError, Global};
use zerotrie_base::{Simple, TrieKey};

/// Items, each a key and its value, that are asked for by number. They are the same at every look.
pub(crate) trait IndexedItems<'a>: Copy {
    ghost pairs: { Self → Pairs };

    /// Returns how many items there are.
    fn len(self) -> usize
        ensures { result ≡ length (pairs self) };

    /// Returns the item of number `index`, counted from 0: the bytes of its key, and its value.
    fn get(self, index: usize) -> (&'a [u8], usize)
        requires { index < length (pairs self) }
        ensures { slice_get (pairs self) index ≡ Some (result.0.now, result.1) };
}

impl<'a> IndexedItems<'a> for ByteSliceWithIndices<'a> {
    ghost pairs = { λ items. pairs items };

    fn len(self) -> usize {
        ByteSliceWithIndices::len(self)
    }

    fn get(self, index: usize) -> (&'a [u8], usize) {
        ByteSliceWithIndices::get(self, index)
    }
}

impl<'a, Key: TrieKey> IndexedItems<'a> for &'a [(Key, usize)] {
    ghost pairs = { λ items. keyed Key.key items.now };

    fn len(self) -> usize {
        (*self).len()
    }

    fn get(self, index: usize) -> (&'a [u8], usize) {
        let (key, value) = &self[index];
        (key.key_bytes(), *value)
    }
}

/// Returns the item of the number, its key by its bytes. After the last are an empty key and zero.
pub(crate) fn item_at<Key: TrieKey>(given: &[(Key, usize)], index: usize) -> (&[u8], usize)
    ensures { (result.0.now, result.1) ≡ item_no (keyed Key.key given.now) index }
{
    match given.get(index) {
        Some((key, value)) => (key.key_bytes(), *value),
        None => (&[], 0),
    }
}

/// A slice of items, each a key and its value, whose keys are bytes or text.
///
/// ```
/// let items = [("ad", 22), ("adef", 33)];
/// let items = ByteSliceWithIndices::from_str_slice(&items);
/// assert_eq!(rt; items.get(1), (b"adef".as_slice(), 33));
/// ```
///
/// Every call returns what it would of the list of pairs of key bytes and value, in the order of the
/// slice. Only `to_vec_u8` allocates.
#[derive(Clone, Copy, Debug)]
pub enum ByteSliceWithIndices<'a> {
    /// Items whose keys are bytes.
    Bytes(&'a [(&'a [u8], usize)]),
    /// Items whose keys are text.
    Str(&'a [(&'a str, usize)]),
}

impl<'a> ByteSliceWithIndices<'a> {
    /// Returns the items of a slice whose keys are bytes.
    pub fn from_byte_slice(items: &'a [(&'a [u8], usize)]) -> Self
        ensures { pairs result ≡ pairs_of items.now }
    {
        Self::Bytes(items)
    }

    /// Returns the items of a slice whose keys are text.
    pub fn from_str_slice(items: &'a [(&'a str, usize)]) -> Self
        ensures { pairs result ≡ pairs_of items.now }
    {
        Self::Str(items)
    }

    /// Returns how many items there are.
    pub fn len(self) -> usize
        ensures { result ≡ length (pairs self.entry) }
    {
        match self {
            ByteSliceWithIndices::Bytes(items) => items.len(),
            ByteSliceWithIndices::Str(items) => items.len(),
        }
    }

    /// Returns the item of number `index`, counted from 0: the bytes of its key, and its value.
    pub fn get(self, index: usize) -> (&'a [u8], usize)
        requires { index < length (pairs self) }
        ensures { slice_get (pairs self.entry) index ≡ Some (result.0.now, result.1) }
    {
        match self {
            ByteSliceWithIndices::Bytes(items) => items[index],
            ByteSliceWithIndices::Str(items) => (items[index].0.as_bytes(), items[index].1),
        }
    }

    /// Returns the last item, or `None` if there is none.
    pub fn last(self) -> Option<(&'a [u8], usize)>
        ensures { option_map (λ e. (e.0.now, e.1)) result
            ≡ slice_get (pairs self.entry) (length (pairs self.entry) - 1) }
    {
        let count = self.len();
        if count == 0 {
            return None;
        }
        Some(self.get(count - 1))
    }

    /// Returns the items with their keys as bytes, in memory of their own. Does not copy the keys'
    /// bytes.
    ///
    /// The only error is out of memory.
    pub fn to_vec_u8(self, alloc: Global) -> Result<Vec<(&'a [u8], usize)>, AllocError>
        ensures { IfOk result (λ items. pairs_of items.items ≡ pairs self.entry) }
    {
        let mut items = Vec::with_capacity(alloc, self.len())?;
        for index in 0..self.len() {
            items.push(self.get(index))?;
        }
        Ok(items)
    }

    /// Returns whether the keys are strictly ascending by their bytes, so that none comes twice.
    pub fn is_sorted(self) -> bool
        ensures { IsTrue result ↔ Ascends (pairs self.entry) }
    {
        is_ordered::<Simple, Self>(self)
    }

    /// Returns whether every byte of every key is below 128.
    pub fn is_all_ascii(self) -> bool
        ensures { IsTrue result ↔ All (λ e. All (λ b. b < 128) e.0) (pairs self.entry) }
    {
        are_keys::<Simple, Self>(self)
    }
}
