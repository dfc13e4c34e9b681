//! The type of an index.

ghost use Rattle.std.specs.Prelude.{◌≡◌, ◌↔◌, List, IfOk, IfErr, IsTrue};
ghost use Rattle.std.specs.Iterator.{IsFiniteIterable};
ghost use Rattle.std.specs.Option.{is_some};
ghost use Rattle.zerotrie_base.specs.Kind.{simple_ascii};
ghost use Rattle.zerotrie_base.specs.Items.{keyed};
ghost use Rattle.zerotrie_base.specs.Maps.{Pairs, value_at};
ghost use Rattle.zerotrie_base.specs.Routes.{HoldsOfItsPairs};
ghost use Rattle.zerotrie_index.specs.Layout.{IsIndex};
ghost use Rattle.zerotrie_index.specs.Built.{IsIndexOf, IsIndexBuild, IsSortedIndexBuild, IsIndexBuildOfAll};

use crate::builder::{build, build_all, build_sorted};
use crate::error::{NotAnIndex, ZeroIndexBuildError};
use crate::opened::OpenedIndex;
use crate::well_formed::is_well_formed;
use std::alloc::{AllocError, Global};
use zerotrie_base::{ConvertStore, TrieKey, TrieStore};

/// A map from byte strings to numbers for exact look-ups, as a sequence of bytes that is read in
/// place.
///
/// ```
/// let index = ZeroIndex::try_from_sorted_slice(rt.alloc(), &[("ad", 22), ("adef", 33)])?;
/// assert_eq!(rt; index.get(b"adef"), Some(33));
/// assert_eq!(rt; index.get(b"ade"), None);
/// ```
///
/// Any store of bytes can be an index. On malformed bytes results are unspecified; no call panics
/// or reads outside them. `try_from_bytes` takes none but those of an index.
#[derive(Drop)]
pub struct ZeroIndex<S> {
    /// The bytes of the index.
    pub store: S,
}

impl ZeroIndex<Vec<u8>> {
    /// Builds the index of a slice, whose keys must strictly ascend by their bytes.
    ///
    /// ```
    /// let unsorted = [("to", 1), ("in", 2)];
    /// let built = ZeroIndex::try_from_sorted_slice(rt.alloc(), &unsorted);
    /// assert!(rt; matches!(built, Err(ZeroIndexBuildError::Unsorted)));
    /// ```
    ///
    /// Errors: `Unsorted`, `Crowded`, `CapacityExceeded`, `OutOfMemory`; see `ZeroIndexBuildError`.
    pub fn try_from_sorted_slice<K: TrieKey>(
        alloc: Global,
        items: &[(K, usize)],
    ) -> Result<Self, ZeroIndexBuildError>
        ensures { IsSortedIndexBuild 0 (λ index. index.store.items) (keyed K.key items.now) result }
    {
        match build_sorted(alloc, 0, items) {
            Ok(store) => Ok(ZeroIndex { store }),
            Err(error) => Err(error),
        }
    }

    /// Builds the index of a slice in any order, whose keys must be distinct.
    ///
    /// ```
    /// let index = ZeroIndex::try_from_unsorted_slice(rt.alloc(), &[("to", 1), ("in", 2)])?;
    /// assert_eq!(rt; index.get(b"in"), Some(2));
    /// ```
    ///
    /// Errors: `DuplicateKey`, `Crowded`, `CapacityExceeded`, `OutOfMemory`; see
    /// `ZeroIndexBuildError`.
    pub fn try_from_unsorted_slice<K: TrieKey>(
        alloc: Global,
        items: &[(K, usize)],
    ) -> Result<Self, ZeroIndexBuildError>
        ensures { IsIndexBuild 0 (λ index. index.store.items) (keyed K.key items.now) result }
    {
        ZeroIndex::try_from_seed(alloc, 0, items)
    }

    /// Builds the index of a slice in any order, and tries seeds from this one on. Who does not
    /// know the seed can't choose keys that make the build return `Crowded`.
    ///
    /// ```
    /// let index = ZeroIndex::try_from_seed(rt.alloc(), 0x5EED, &[("to", 1), ("in", 2)])?;
    /// assert_eq!(rt; index.get(b"to"), Some(1));
    /// ```
    ///
    /// The errors are those of `try_from_unsorted_slice`.
    pub fn try_from_seed<K: TrieKey>(
        alloc: Global,
        seed: u64,
        items: &[(K, usize)],
    ) -> Result<Self, ZeroIndexBuildError>
        ensures { IsIndexBuild seed (λ index. index.store.items) (keyed K.key items.now) result }
    {
        match build(alloc, seed, items) {
            Ok(store) => Ok(ZeroIndex { store }),
            Err(error) => Err(error),
        }
    }

    /// Builds the index of all pairs of an iterator, in any order. Holds them all until the build
    /// is done.
    ///
    /// ```
    /// let index = ZeroIndex::try_from_iter(rt.alloc(), [("to", 1), ("in", 2)])?;
    /// assert_eq!(rt; index.get(b"in"), Some(2));
    /// let twice = ZeroIndex::try_from_iter(rt.alloc(), [("to", 1), ("to", 1)]);
    /// assert!(rt; matches!(twice, Err(ZeroIndexBuildError::DuplicateKey)));
    /// ```
    ///
    /// The errors are those of `try_from_unsorted_slice`.
    pub fn try_from_iter<K: TrieKey + Drop, U: IntoIterator<Item = (K, usize)>>(
        alloc: Global,
        iter: U,
    ) -> Result<Self, ZeroIndexBuildError>
    where
        U::IntoIter: Drop,
        requires { IsFiniteIterable U.into_iter_gives U.IntoIter.can_next U.IntoIter.remaining
            iter }
        ensures { IsIndexBuildOfAll
            (HoldsOfItsPairs U.into_iter_gives U.IntoIter.next_gives K.key iter)
            0 (λ index. index.store.items) result }
    {
        match build_all(alloc, 0, iter) {
            Ok(store) => Ok(ZeroIndex { store }),
            Err(error) => Err(error),
        }
    }
}

impl<S: TrieStore> ZeroIndex<S> {
    /// Takes bytes as an index. Does not validate them.
    ///
    /// ```
    /// let index = ZeroIndex::try_from_sorted_slice(rt.alloc(), &[("ad", 22)])?;
    /// let shipped = ZeroIndex::from_bytes(index.as_bytes());
    /// assert_eq!(rt; shipped.get(b"ad"), Some(22));
    /// ```
    pub fn from_bytes(store: S) -> Self
        ensures { result.store ≡ store }
    {
        ZeroIndex { store }
    }

    /// Takes bytes as an index if they are one.
    ///
    /// ```
    /// let index = ZeroIndex::try_from_sorted_slice(rt.alloc(), &[("ad", 22)])?;
    /// let shipped = ZeroIndex::try_from_bytes(index.as_bytes())?;
    /// assert_eq!(rt; shipped.get(b"ad"), Some(22));
    /// assert!(rt; ZeroIndex::try_from_bytes(b"no index".as_slice()).is_err());
    /// ```
    ///
    /// The error is `NotAnIndex` exactly if they aren't. Does not allocate, and reads each byte a
    /// bounded number of times.
    pub fn try_from_bytes(store: S) -> Result<Self, NotAnIndex>
    where
        S: Drop,
        ensures store { IfOk result (λ index. index.store ≡ store) }
        ensures ok { IfOk result (λ _. (pairs : Pairs) × IsIndex pairs (S.stored store)) }
        ensures err { IfErr result (λ _. (pairs : Pairs) → IsIndex pairs (S.stored store) → ⊥) }
    {
        if is_well_formed(store.bytes()) {
            Ok(ZeroIndex { store })
        } else {
            Err(NotAnIndex)
        }
    }

    /// Returns whether the bytes are an index of some pairs. Does not allocate.
    pub fn is_well_formed(&self) -> bool
        ensures { IsTrue result ↔ ((pairs : Pairs) × IsIndex pairs (S.stored self.now.store)) }
    {
        is_well_formed(self.store.bytes())
    }

    /// Returns the bytes.
    pub fn as_bytes(&self) -> &[u8]
        ensures { result.now ≡ S.stored self.now.store }
    {
        self.store.bytes()
    }

    /// Opens the index for many look-ups. Does not allocate.
    ///
    /// ```
    /// let index = ZeroIndex::try_from_sorted_slice(rt.alloc(), &[("ad", 22)])?;
    /// let opened = index.opened();
    /// assert_eq!(rt; (opened.get(b"ad"), opened.get(b"a")), (Some(22), None));
    /// ```
    pub fn opened(&self) -> OpenedIndex<'_>
        ensures { result ≡ S.stored self.now.store }
    {
        OpenedIndex::new(self.store.bytes())
    }

    /// Returns the value of a key. For many keys, ask an `OpenedIndex`.
    pub fn get(&self, key: &[u8]) -> Option<usize>
        ensures index { (pairs : Pairs) → IsIndex pairs (S.stored self.now.store)
            → result ≡ value_at simple_ascii pairs key.now }
        ensures given { (given : Pairs) → IsIndexOf given (S.stored self.now.store)
            → result ≡ value_at simple_ascii given key.now }
    {
        self.opened().get(key)
    }

    /// Returns whether a key is there.
    ///
    /// ```
    /// let index = ZeroIndex::try_from_sorted_slice(rt.alloc(), &[("ad", 22)])?;
    /// assert!(rt; index.contains_key(b"ad") && !index.contains_key(b"a"));
    /// ```
    pub fn contains_key(&self, key: &[u8]) -> bool
        ensures index { (pairs : Pairs) → IsIndex pairs (S.stored self.now.store)
            → result ≡ is_some (value_at simple_ascii pairs key.now) }
        ensures given { (given : Pairs) → IsIndexOf given (S.stored self.now.store)
            → result ≡ is_some (value_at simple_ascii given key.now) }
    {
        self.get(key).is_some()
    }

    /// Returns the index of the same bytes over another type of store. Does not allocate.
    ///
    /// ```
    /// let index = ZeroIndex::try_from_sorted_slice(rt.alloc(), &[("ad", 22)])?;
    /// let shared: ZeroIndex<CowSlice<'_, u8>> = index.convert_store();
    /// assert_eq!(rt; shared.get(b"ad"), Some(22));
    /// ```
    pub fn convert_store<X: ConvertStore<S>>(self) -> ZeroIndex<X>
        ensures { X.stored result.store ≡ S.stored self.store }
    {
        ZeroIndex {
            store: X::convert(self.store),
        }
    }

    /// Returns the index of these bytes, borrowed.
    pub fn as_borrowed(&self) -> ZeroIndex<&[u8]>
        ensures { result.store.now ≡ S.stored self.now.store }
    {
        ZeroIndex {
            store: self.store.bytes(),
        }
    }

    /// Returns a copy of the index that owns its bytes.
    ///
    /// An error means that an allocation failed.
    pub fn to_owned(&self, alloc: Global) -> Result<ZeroIndex<Vec<u8>>, AllocError>
        ensures { IfOk result (λ index. index.store.items ≡ S.stored self.now.store) }
    {
        let store = Vec::from_slice(alloc, self.store.bytes())?;
        Ok(ZeroIndex { store })
    }
}
