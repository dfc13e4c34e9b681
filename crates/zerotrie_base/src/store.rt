//! Stores of bytes, and keys.

ghost use Rattle.std.specs.Prelude.{◌≡◌, ℕ, List};
ghost use Rattle.std.specs.Box.{boxed_slice_items};
ghost use Rattle.std.specs.Cow.{cow_slice_items};
ghost use Rattle.std.specs.String.{string_bytes};

use std::borrow::CowSlice;
use std::boxed::BoxedSlice;

/// A container of bytes, for example of a trie or a table.
///
/// ```
/// let store = [0x61, 0x81];
/// assert_eq!(rt; store.bytes().len(), 2);
/// ```
///
/// `bytes` returns the same bytes at each call. Slices, vectors, boxed slices, `CowSlice` and
/// arrays are stores.
pub trait TrieStore {
    ghost stored: { Self → List ℕ };

    /// Returns the bytes of the store. Does not allocate or copy.
    fn bytes(&self) -> &[u8]
        ensures { result.now ≡ stored self.now };
}

impl TrieStore for &[u8] {
    ghost stored = { λ s. s.now };

    fn bytes(&self) -> &[u8] {
        *self
    }
}

impl TrieStore for Vec<u8> {
    ghost stored = { λ s. s.items };

    fn bytes(&self) -> &[u8] {
        self.as_slice()
    }
}

impl TrieStore for BoxedSlice<u8> {
    ghost stored = { λ s. boxed_slice_items s };

    fn bytes(&self) -> &[u8] {
        self.as_slice()
    }
}

impl<'a> TrieStore for CowSlice<'a, u8> {
    ghost stored = { λ s. cow_slice_items s };

    fn bytes(&self) -> &[u8] {
        self.as_slice()
    }
}

impl<const N: usize> TrieStore for [u8; N] {
    ghost stored = { λ s. s };

    fn bytes(&self) -> &[u8] {
        self.as_slice()
    }
}

/// A store that another store converts into, with the same bytes.
///
/// ```
/// let store: CowSlice<u8> = ConvertStore::convert(Vec::from_slice(rt.alloc(), b"a\x81")?);
/// assert_eq!(rt; store.bytes(), b"a\x81".as_slice());
/// ```
///
/// Each store converts into itself, and a vector or a borrowed slice into a `CowSlice`.
pub trait ConvertStore<S: TrieStore>: TrieStore {
    /// Returns a store with the bytes of `store`. Does not allocate.
    fn convert(store: S) -> Self
        ensures { Self.stored result ≡ S.stored store };
}

impl<'a> ConvertStore<&'a [u8]> for &'a [u8] {
    fn convert(store: &'a [u8]) -> &'a [u8] {
        store
    }
}

impl ConvertStore<Vec<u8>> for Vec<u8> {
    fn convert(store: Vec<u8>) -> Vec<u8> {
        store
    }
}

impl ConvertStore<BoxedSlice<u8>> for BoxedSlice<u8> {
    fn convert(store: BoxedSlice<u8>) -> BoxedSlice<u8> {
        store
    }
}

impl<'a> ConvertStore<CowSlice<'a, u8>> for CowSlice<'a, u8> {
    fn convert(store: CowSlice<'a, u8>) -> CowSlice<'a, u8> {
        store
    }
}

impl<const N: usize> ConvertStore<[u8; N]> for [u8; N] {
    fn convert(store: [u8; N]) -> [u8; N] {
        store
    }
}

impl<'a> ConvertStore<Vec<u8>> for CowSlice<'a, u8> {
    fn convert(store: Vec<u8>) -> CowSlice<'a, u8> {
        CowSlice::Owned(store)
    }
}

impl<'a> ConvertStore<&'a [u8]> for CowSlice<'a, u8> {
    fn convert(store: &'a [u8]) -> CowSlice<'a, u8> {
        CowSlice::Borrowed(store)
    }
}

/// A key: a string or bytes, borrowed or owned.
///
/// ```
/// assert_eq!(rt; "ad".key_bytes(), b"ad".as_slice());
/// assert_eq!(rt; b"ad".key_bytes(), b"ad".as_slice());
/// ```
///
/// `key_bytes` returns the same bytes at each call.
pub trait TrieKey {
    ghost key: { Self → List ℕ };

    /// Returns the bytes of the key. Does not allocate or copy.
    fn key_bytes(&self) -> &[u8]
        ensures { result.now ≡ key self.now };
}

impl TrieKey for &str {
    ghost key = { λ k. k.now };

    fn key_bytes(&self) -> &[u8] {
        self.as_bytes()
    }
}

impl TrieKey for String {
    ghost key = { λ k. string_bytes k };

    fn key_bytes(&self) -> &[u8] {
        self.as_bytes()
    }
}

impl TrieKey for &[u8] {
    ghost key = { λ k. k.now };

    fn key_bytes(&self) -> &[u8] {
        &self[..]
    }
}

impl<const N: usize> TrieKey for &[u8; N] {
    ghost key = { λ k. k.now };

    fn key_bytes(&self) -> &[u8] {
        self.as_slice()
    }
}

impl TrieKey for Vec<u8> {
    ghost key = { λ k. k.items };

    fn key_bytes(&self) -> &[u8] {
        self.as_slice()
    }
}
