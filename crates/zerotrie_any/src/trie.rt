//! A trie whose kind is a value at run time: one of the three kinds that keep case.

ghost use Rattle.std.specs.Prelude.{◌≡◌, ◌==◌, ◌↔◌, IsTrue, IfOk, length, []};
ghost use Rattle.std.specs.FinMap.{empty};
ghost use Rattle.std.specs.Iterator.{IsFiniteIterable};
ghost use Rattle.std.specs.Ordering.{on, eq_of_both};
ghost use Rattle.std.specs.Cmp.Rules.{comparing};
ghost use Rattle.std.specs.Cmp.Lexicographic.{pointwise};
ghost use Rattle.std.proofs.Common.{rules};
ghost use Rattle.zerotrie_core.specs.Kind.{simple_ascii, tag};
ghost use Rattle.zerotrie_core.specs.Maps.{Map, look};
ghost use Rattle.zerotrie_core.specs.Texts.{Means};
ghost use Rattle.zerotrie_core.specs.Items.{pairs_of, keyed};
ghost use Rattle.zerotrie_core.specs.Routes.{ascending, in_order, any_order, IsBuild, HoldsOfItsPairs};
ghost use Rattle.zerotrie_any.specs.Auto.{auto_kind, IsAutoBuildOfAll};
ghost use Rattle.zerotrie_any.specs.Flavors.{flavor_kind};
ghost use Rattle.zerotrie_any.specs.Order.{IsByBytes};

use crate::kind::is_simple;
use crate::routes::{bytes_from_iter, bytes_from_slice, items_of};
use crate::text_key::TextKey;
use std::alloc::{AllocError, Global};
use std::collections::BTreeMap;
use std::fmt;
use zerotrie_core::{
    ConvertStore, Ext, Hash, Simple, Trie, TrieKey, TrieKind, TrieStore, ZeroTrieBuildError,
    ZeroTrieWithOptions, get,
};

/// The kinds that a `ZeroTrie` may have.
#[derive(Clone, Copy, Debug, PartialEq, Eq)]
pub enum ZeroTrieFlavor {
    /// ASCII keys, as `ZeroTrieSimpleAscii` has them.
    SimpleAscii,
    /// Keys of any bytes, as `ZeroTriePerfectHash` has them.
    PerfectHash,
    /// Keys of any bytes, also in more than 4 GB, as `ZeroTrieExtendedCapacity` has them.
    ExtendedCapacity,
}

// Calls a function at the kind of a flavor, whose type takes the place of `_`.
macro_rules! by_flavor {
    ($flavor:expr, $($f:ident)::+::<_ $(, $more:ty)*>($($arg:expr),* $(,)?)) => {
        match $flavor {
            $crate::ZeroTrieFlavor::SimpleAscii => {
                $($f)::+::<zerotrie_core::Simple $(, $more)*>($($arg),*)
            }
            $crate::ZeroTrieFlavor::PerfectHash => {
                $($f)::+::<zerotrie_core::Hash $(, $more)*>($($arg),*)
            }
            $crate::ZeroTrieFlavor::ExtendedCapacity => {
                $($f)::+::<zerotrie_core::Ext $(, $more)*>($($arg),*)
            }
        }
    };
}

pub(crate) use by_flavor;

/// A kind that a `ZeroTrie` may have: `Simple`, `Hash` or `Ext`.
pub trait HasFlavor: ZeroTrieWithOptions {
    /// Returns the kind as a value.
    fn flavor() -> ZeroTrieFlavor
        ensures { flavor_kind result ≡ Self.kind };
}

impl HasFlavor for Simple {
    fn flavor() -> ZeroTrieFlavor {
        ZeroTrieFlavor::SimpleAscii
    }
}

impl HasFlavor for Hash {
    fn flavor() -> ZeroTrieFlavor {
        ZeroTrieFlavor::PerfectHash
    }
}

impl HasFlavor for Ext {
    fn flavor() -> ZeroTrieFlavor {
        ZeroTrieFlavor::ExtendedCapacity
    }
}

/// A map from keys to numbers, whose kind is a value at run time: that of a `ZeroTrieSimpleAscii`,
/// a `ZeroTriePerfectHash` or a `ZeroTrieExtendedCapacity`.
///
/// ```
/// let trie = ZeroTrie::try_from_iter(rt.alloc(), [("abc", 11), ("xyz", 22), ("axyb", 33)])?;
/// assert_eq!(rt; trie.get(b"axyb"), Some(33));
/// assert_eq!(rt; trie.byte_len(), 18);
/// ```
///
/// Any kind and store of bytes can be a trie. On valid bytes, such as those of every build, each
/// call returns the result for their map. On malformed bytes results are unspecified; no call
/// panics or reads outside them. The trait `Trie` has further calls.
///
/// A build from pairs chooses the kind of `ZeroTrieSimpleAscii` if all keys are ASCII and there are
/// fewer than 512, and otherwise that of `ZeroTriePerfectHash`.
#[derive(Drop)]
pub struct ZeroTrie<S> {
    /// The kind of the trie.
    pub flavor: ZeroTrieFlavor,
    /// The bytes of the trie.
    pub store: S,
}

impl<S> ZeroTrie<S> {
    /// Returns the trie of the kind `K` over the bytes of this store. Does not validate them.
    pub fn of_kind<K: HasFlavor>(store: S) -> Self
        ensures kind { flavor_kind result.flavor ≡ K.kind }
        ensures store { result.store ≡ store }
    {
        ZeroTrie {
            flavor: K::flavor(),
            store,
        }
    }

    /// Returns the store of the trie.
    pub fn into_store(self) -> S
        ensures { result ≡ self.store }
    {
        let ZeroTrie { flavor: _, store } = self;
        store
    }
}

impl<S: TrieStore> ZeroTrie<S> {
    /// Returns the trie of the same bytes over another type of store. Does not allocate.
    pub fn convert_store<X: ConvertStore<S>>(self) -> ZeroTrie<X>
        ensures kind { result.flavor ≡ self.flavor }
        ensures bytes { X.stored result.store ≡ S.stored self.store }
    {
        ZeroTrie {
            flavor: self.flavor,
            store: X::convert(self.into_store()),
        }
    }

    /// Returns the value of the key, or `None` if the trie does not have it. Does not allocate.
    ///
    /// On malformed bytes the result is unspecified; it never panics or reads outside them.
    pub fn get(&self, key: &[u8]) -> Option<usize>
        ensures { (m : Map) → Means (flavor_kind self.now.flavor) (S.stored self.now.store) m
            → result ≡ look (flavor_kind self.now.flavor) m key.now }
    {
        let bytes = self.store.bytes();
        by_flavor!(self.flavor, get::<_>(bytes, key))
    }

    /// Returns whether there are no bytes, as in a trie with no keys.
    pub fn is_empty(&self) -> bool
        ensures { IsTrue result ↔ (S.stored self.now.store ≡ []) }
    {
        self.store.bytes().is_empty()
    }

    /// Returns the number of bytes.
    pub fn byte_len(&self) -> usize
        ensures { result ≡ length (S.stored self.now.store) }
    {
        self.store.bytes().len()
    }

    /// Returns the bytes of the trie.
    pub fn as_bytes(&self) -> &[u8]
        ensures { result.now ≡ S.stored self.now.store }
    {
        self.store.bytes()
    }

    /// Returns the same trie, which borrows these bytes.
    pub fn as_borrowed(&self) -> ZeroTrie<&[u8]>
        ensures kind { result.flavor ≡ self.now.flavor }
        ensures bytes { result.store.now ≡ S.stored self.now.store }
    {
        ZeroTrie {
            flavor: self.flavor,
            store: self.as_bytes(),
        }
    }

    /// Returns the same trie, which borrows these bytes, as `as_borrowed` does.
    pub fn as_borrowed_slice(&self) -> ZeroTrie<&[u8]>
        ensures kind { result.flavor ≡ self.now.flavor }
        ensures bytes { result.store.now ≡ S.stored self.now.store }
    {
        self.as_borrowed()
    }

    /// Returns the same trie over a copy of its bytes.
    ///
    /// ```
    /// let trie = ZeroTrie::of_kind::<Hash>(b"abc\x85".as_slice());
    /// assert_eq!(rt; trie.to_owned(rt.alloc())?.get(b"abc"), Some(5));
    /// ```
    ///
    /// An error means that an allocation failed.
    pub fn to_owned(&self, alloc: Global) -> Result<ZeroTrie<Vec<u8>>, AllocError>
        ensures kind { IfOk result (λ trie. trie.flavor ≡ self.now.flavor) }
        ensures bytes { IfOk result (λ trie. trie.store.items ≡ S.stored self.now.store) }
    {
        let store = Vec::from_slice(alloc, self.as_bytes())?;
        Ok(ZeroTrie {
            flavor: self.flavor,
            store,
        })
    }
}

impl<S: TrieStore> Trie for ZeroTrie<S> {
    ghost kind = { λ t. flavor_kind t.flavor };

    ghost bytes = { λ t. S.stored t.store };

    #[inline]
    fn trie_kind(&self) -> TrieKind {
        match self.flavor {
            ZeroTrieFlavor::SimpleAscii => TrieKind::Simple,
            ZeroTrieFlavor::PerfectHash => TrieKind::Hash,
            ZeroTrieFlavor::ExtendedCapacity => TrieKind::Ext,
        }
    }

    #[inline]
    fn as_bytes(&self) -> &[u8] {
        self.store.bytes()
    }
}

impl<'a> ZeroTrie<&'a [u8]> {
    /// Returns the trie with no keys. Does not allocate. Its kind is that of a build of no pairs.
    ///
    /// ```
    /// assert_eq!(rt; ZeroTrie::empty().get(b""), None);
    /// ```
    pub fn empty() -> Self
        ensures kind { flavor_kind result.flavor ≡ simple_ascii }
        ensures bytes { result.store.now ≡ [] }
        ensures map { Means simple_ascii result.store.now empty }
    {
        ZeroTrie::of_kind::<Simple>(&[])
    }
}

/// Builds the trie of a slice, of the kind `K`.
fn build_slice<K: HasFlavor>(
    alloc: Global,
    items: &[(&[u8], usize)],
) -> Result<ZeroTrie<Vec<u8>>, ZeroTrieBuildError>
    ensures kind { IfOk result (λ trie. flavor_kind trie.flavor ≡ K.kind) }
    ensures build { IsBuild ascending K.kind (λ trie. trie.store.items) (pairs_of items.now)
        result }
{
    let store = bytes_from_slice::<K>(alloc, items)?;
    Ok(ZeroTrie::of_kind::<K>(store))
}

/// Builds the trie of pairs in any order, of the kind `K`.
fn build_pairs<K: HasFlavor, Key: TrieKey + Drop>(
    alloc: Global,
    pairs: Vec<(Key, usize)>,
) -> Result<ZeroTrie<Vec<u8>>, ZeroTrieBuildError>
    ensures kind { IfOk result (λ trie. flavor_kind trie.flavor ≡ K.kind) }
    ensures build { IsBuild any_order K.kind (λ trie. trie.store.items) (keyed Key.key pairs.items)
        result }
{
    let store = bytes_from_iter::<K, Key, Vec<(Key, usize)>>(alloc, pairs)?;
    Ok(ZeroTrie::of_kind::<K>(store))
}

impl ZeroTrie<Vec<u8>> {
    /// Builds the trie of a map with string keys, `&str` or `String`. An empty map gives an empty
    /// trie.
    ///
    /// Errors: `CapacityExceeded`, `CouldNotSolvePerfectHash`, `OutOfMemory`; see
    /// `ZeroTrieBuildError`.
    pub fn try_from_btree_map_str<Key: TextKey>(
        alloc: Global,
        entries: &BTreeMap<Key, usize>,
    ) -> Result<Self, ZeroTrieBuildError>
        ensures kind { IfOk result (λ trie.
            flavor_kind trie.flavor ≡ auto_kind (keyed Key.key entries.now.entries)) }
        ensures build { let pairs = keyed Key.key entries.now.entries in
            IsBuild in_order (auto_kind pairs) (λ trie. trie.store.items) pairs result }
    {
        Self::try_from_btree_map(alloc, entries)
    }

    /// Builds the trie of a map. An empty map gives an empty trie.
    ///
    /// Errors: `Unsorted` (never if the keys are ordered by their bytes, as byte and string keys
    /// are), `CapacityExceeded`, `CouldNotSolvePerfectHash`, `OutOfMemory`; see
    /// `ZeroTrieBuildError`.
    pub fn try_from_btree_map<Key: TrieKey + Ord>(
        alloc: Global,
        entries: &BTreeMap<Key, usize>,
    ) -> Result<Self, ZeroTrieBuildError>
        ensures kind { IfOk result (λ trie.
            flavor_kind trie.flavor ≡ auto_kind (keyed Key.key entries.now.entries)) }
        ensures build { let pairs = keyed Key.key entries.now.entries in
            IsBuild ascending (auto_kind pairs) (λ trie. trie.store.items) pairs result }
        ensures by_bytes { let pairs = keyed Key.key entries.now.entries in IsByBytes Key.cmp
            Key.key
            → IsBuild in_order (auto_kind pairs) (λ trie. trie.store.items) pairs result }
    {
        let items = items_of(alloc, entries)?;
        Self::try_from_sorted_slice(alloc, items.as_slice())
    }

    /// Builds the trie of a slice, whose keys must ascend strictly by their bytes. An empty slice
    /// gives an empty trie.
    ///
    /// Errors: `Unsorted`, `CapacityExceeded`, `CouldNotSolvePerfectHash`, `OutOfMemory`; see
    /// `ZeroTrieBuildError`.
    pub fn try_from_sorted_slice(
        alloc: Global,
        items: &[(&[u8], usize)],
    ) -> Result<Self, ZeroTrieBuildError>
        ensures kind { IfOk result (λ trie.
            flavor_kind trie.flavor ≡ auto_kind (pairs_of items.now)) }
        ensures build { let pairs = pairs_of items.now in
            IsBuild ascending (auto_kind pairs) (λ trie. trie.store.items) pairs result }
    {
        if is_simple(items) {
            build_slice::<Simple>(alloc, items)
        } else {
            build_slice::<Hash>(alloc, items)
        }
    }

    /// Builds the trie of all pairs of an iterator, in any order. An empty iterator gives an empty
    /// trie.
    ///
    /// ```
    /// let trie = ZeroTrie::try_from_iter(rt.alloc(), [("å", 1), ("ø", 2)])?;
    /// assert_eq!(rt; trie.get("ø".as_bytes()), Some(2));
    /// ```
    ///
    /// Errors: `DuplicateKey`, `CapacityExceeded`, `CouldNotSolvePerfectHash`, `OutOfMemory`; see
    /// `ZeroTrieBuildError`.
    pub fn try_from_iter<Key: TrieKey + Drop, U: IntoIterator<Item = (Key, usize)>>(
        alloc: Global,
        iter: U,
    ) -> Result<Self, ZeroTrieBuildError>
    where
        U::IntoIter: Drop,
        requires { IsFiniteIterable U.into_iter_gives U.IntoIter.can_next U.IntoIter.remaining
            iter }
        ensures { IsAutoBuildOfAll (HoldsOfItsPairs U.into_iter_gives U.IntoIter.next_gives Key.key iter)
            (λ trie. flavor_kind trie.flavor) (λ trie. trie.store.items) result }
    {
        let pairs: Vec<(Key, usize)> = iter.into_iter().collect(alloc)?;
        if is_simple(pairs.as_slice()) {
            build_pairs::<Simple, Key>(alloc, pairs)
        } else {
            build_pairs::<Hash, Key>(alloc, pairs)
        }
    }
}

impl<S: Copy> Clone for ZeroTrie<S> {
    fn clone(&self) -> Result<Self, AllocError>
        ensures { result ≡ Ok self.now }
    {
        Ok(ZeroTrie {
            flavor: self.flavor,
            store: self.store,
        })
    }
}

impl<S: Copy> Copy for ZeroTrie<S> {}

/// Prints the kind and the number of bytes, as `ZeroTrie(SimpleAscii, 18 bytes)`.
impl<S: TrieStore> fmt::Debug for ZeroTrie<S> {
    fn fmt<W: fmt::Write>(&self, f: &mut fmt::Formatter<W>) -> fmt::Result {
        write!(f, "ZeroTrie({:?}, {} bytes)", self.flavor, self.byte_len())
    }
}

impl<'a> Default for ZeroTrie<&'a [u8]> {
    ghost is_default = { λ t. (flavor_kind t.flavor ≡ simple_ascii) × (t.store.now ≡ []) };

    fn default() -> Self {
        ZeroTrie::empty()
    }
}

impl<S: TrieStore> PartialEq for ZeroTrie<S> {
    ghost eq = { eq_of_both (on (λ x. tag (flavor_kind x.flavor)) ◌==◌) (on (λ x. S.stored x.store) (pointwise ◌==◌)) };

    ghost laws = { Prim.search (comparing, rules) };

    fn eq(&self, other: &Self) -> bool
        ensures { IsTrue result ↔ (self.now.flavor ≡ other.now.flavor)
            × (S.stored self.now.store ≡ S.stored other.now.store) }
    {
        self.flavor == other.flavor && self.store.bytes() == other.store.bytes()
    }
}

impl<S: TrieStore> Eq for ZeroTrie<S> {
    ghost laws = { Prim.search (comparing, rules) };
}
