//! The tries over ASCII keys: one type, with an alias for each kind.

ghost use Rattle.std.specs.Prelude.{◌≡◌, ◌==◌, ◌↔◌, IsTrue, IfOk, length, []};
ghost use Rattle.std.specs.FinMap.{empty};
ghost use Rattle.std.specs.Cmp.{on_equiv, on_per};
ghost use Rattle.std.specs.Cmp as cmp;
ghost use Rattle.std.specs.Cmp.Lexicographic.{pointwise, nat_list_eq_equiv};
ghost use Rattle.std.specs.Iterator.{IsFiniteIterable};
ghost use Rattle.zerotrie_core.specs.Kind.{simple_ascii, IsAscii};
ghost use Rattle.zerotrie_core.specs.Maps.{Map, look};
ghost use Rattle.zerotrie_core.specs.Texts.{Means};
ghost use Rattle.zerotrie_core.specs.Items.{pairs_of, keyed};
ghost use Rattle.zerotrie_core.specs.Routes.{ascending, in_order, IsBuild, IsLength, HoldsOfItsPairs, IsBuildOfAll};
ghost use Rattle.zerotrie_any.specs.Flavors.{flavor_kind};
ghost use Rattle.zerotrie_any.specs.Order.{IsByBytes};

use std::alloc::{AllocError, Global};
use std::collections::BTreeMap;
use std::fmt;
use std::marker::PhantomData;
use zerotrie_any::{TextKey, ZeroTrie, bytes_from_iter, bytes_from_map, bytes_from_slice};
use zerotrie_build::{ByteSliceWithIndices, encoded_len};
use zerotrie_core::{
    ConvertStore, Ignore, Simple, Trie, TrieKey, TrieKind, TrieStore, ZeroTrieBuildError,
    ZeroTrieBuilderOptions, ZeroTrieWithOptions, get, laws,
};

/// A map from ASCII keys to numbers, as a sequence of bytes that is read in place. `K` is its kind.
///
/// Use it by the name of a kind: `ZeroTrieSimpleAscii` or `ZeroAsciiIgnoreCaseTrie`.
///
/// Any store of bytes can be a trie. On valid bytes, such as those of every build, each call
/// returns the result for their map. On malformed bytes results are unspecified; no call panics or
/// reads outside them. A map has one encoding in each of these kinds, so tries of one map have
/// equal bytes. The trait `Trie` has further calls.
#[derive(Drop)]
pub struct AsciiTrie<K, S> {
    /// The bytes of the trie.
    pub store: S,
    kind: PhantomData<K>,
}

/// A map from ASCII keys to numbers.
///
/// ```
/// let trie = ZeroTrieSimpleAscii::from_bytes(b"abc\x85");
/// assert_eq!(rt; trie.get(b"abc"), Some(5));
/// assert_eq!(rt; trie.get(b"ab"), None);
/// ```
///
/// The edges of a branch ascend by their bytes.
pub type ZeroTrieSimpleAscii<S> = AsciiTrie<Simple, S>;

/// A map from ASCII keys to numbers whose look-ups ignore case: keys that differ only in the case
/// of letters are the same.
///
/// ```
/// let trie = ZeroAsciiIgnoreCaseTrie::from_bytes(b"aBc\x85");
/// assert_eq!(rt; trie.get(b"abc"), Some(5));
/// assert_eq!(rt; trie.get(b"ABC"), Some(5));
/// assert_eq!(rt; trie.get(b"ab"), None);
/// ```
///
/// The bytes keep the case of each key. The edges of a branch ascend by their bytes in lower case.
///
/// # Keys that differ in case
///
/// At the first byte where two keys differ, they must differ in more than case. So a trie can't
/// have a name in two spellings, nor both `Accept-CH` and `Accept-Charset`, which first differ at
/// `H` and `h`, nor both `DAV` and `Date`. A build of such keys returns the error `MixedCase`.
///
/// ```
/// let names = [("Accept-CH", 1), ("Accept-Charset", 2)];
/// let error = ZeroAsciiIgnoreCaseTrie::try_from_iter(rt.alloc(), names).err();
/// assert!(rt; error == Some(ZeroTrieBuildError::MixedCase));
/// ```
///
/// Lower-case such keys first. Look-ups find them in any case.
///
/// ```
/// let mut names = Vec::new(rt.alloc());
/// for (name, number) in [("Accept-CH", 1), ("Accept-Charset", 2), ("DAV", 3), ("Date", 4)] {
///     names.push((name.to_ascii_lowercase(rt.alloc())?, number))?;
/// }
/// let trie = ZeroAsciiIgnoreCaseTrie::try_from_iter(rt.alloc(), names)?;
/// assert_eq!(rt; trie.get(b"Accept-CH"), Some(1));
/// assert_eq!(rt; trie.get(b"DATE"), Some(4));
/// ```
pub type ZeroAsciiIgnoreCaseTrie<S> = AsciiTrie<Ignore, S>;

impl<K, S> AsciiTrie<K, S> {
    /// Returns the trie over the bytes of this store. Does not validate them.
    pub fn from_store(store: S) -> Self
        ensures { result.store ≡ store }
    {
        AsciiTrie {
            store,
            kind: PhantomData,
        }
    }

    /// Returns the store of the trie.
    pub fn into_store(self) -> S
        ensures { result ≡ self.store }
    {
        let AsciiTrie { store, kind: _ } = self;
        store
    }
}

impl<K, S: TrieStore> AsciiTrie<K, S> {
    /// Returns the trie of the same bytes over another type of store. Does not allocate.
    ///
    /// ```
    /// let trie = ZeroTrieSimpleAscii::from_bytes(b"abc\x85");
    /// let shared: ZeroTrieSimpleAscii<CowSlice<'_, u8>> = trie.convert_store();
    /// assert_eq!(rt; shared.get(b"abc"), Some(5));
    /// ```
    pub fn convert_store<X: ConvertStore<S>>(self) -> AsciiTrie<K, X>
        ensures { X.stored result.store ≡ S.stored self.store }
    {
        AsciiTrie::from_store(X::convert(self.into_store()))
    }

    /// Returns whether there are no bytes, as in a trie with no keys.
    pub fn is_empty(&self) -> bool
        ensures { IsTrue result ↔ (S.stored self.now.store ≡ []) }
    {
        self.as_bytes().is_empty()
    }

    /// Returns the number of bytes.
    pub fn byte_len(&self) -> usize
        ensures { result ≡ length (S.stored self.now.store) }
    {
        self.as_bytes().len()
    }

    /// Returns the bytes of the trie.
    pub fn as_bytes(&self) -> &[u8]
        ensures { result.now ≡ S.stored self.now.store }
    {
        self.store.bytes()
    }

    /// Returns the same trie, which borrows these bytes.
    pub fn as_borrowed(&self) -> AsciiTrie<K, &[u8]>
        ensures { result.store.now ≡ S.stored self.now.store }
    {
        AsciiTrie::from_bytes(self.as_bytes())
    }

    /// Returns the same trie, which borrows these bytes, as `as_borrowed` does.
    pub fn as_borrowed_slice(&self) -> AsciiTrie<K, &[u8]>
        ensures { result.store.now ≡ S.stored self.now.store }
    {
        self.as_borrowed()
    }

    /// Returns the same trie over a copy of its bytes.
    ///
    /// ```
    /// let trie = ZeroTrieSimpleAscii::from_bytes(b"abc\x85");
    /// assert_eq!(rt; trie.to_owned(rt.alloc())?.get(b"abc"), Some(5));
    /// ```
    ///
    /// An error means that an allocation failed.
    pub fn to_owned(&self, alloc: Global) -> Result<AsciiTrie<K, Vec<u8>>, AllocError>
        ensures { IfOk result (λ trie. trie.store.items ≡ S.stored self.now.store) }
    {
        let store = Vec::from_slice(alloc, self.as_bytes())?;
        Ok(AsciiTrie::from_store(store))
    }
}

impl<K: AsciiKind, S: TrieStore> Trie for AsciiTrie<K, S> {
    ghost kind = { λ _. K.kind };

    ghost bytes = { λ t. S.stored t.store };

    #[inline(always)]
    fn trie_kind(&self) -> TrieKind {
        ZeroTrieBuilderOptions::of::<K>().kind()
    }

    #[inline(always)]
    fn as_bytes(&self) -> &[u8] {
        self.store.bytes()
    }
}

impl<K: AsciiKind, S: TrieStore> AsciiTrie<K, S> {
    /// Returns the value of the key, or `None` if the trie does not have it. Does not allocate.
    ///
    /// ```
    /// let trie = ZeroTrieSimpleAscii::from_bytes(b"abc\x85");
    /// assert_eq!(rt; trie.get(b"abc"), Some(5));
    /// assert_eq!(rt; trie.get(b"ab"), None);
    /// ```
    ///
    /// On malformed bytes the result is unspecified; it never panics or reads outside them.
    ///
    /// `get` is inlined at every call site (about 3 KB), and so are `get_str`, `contains_key` and a
    /// cursor's `step`. To have its code once, call it from a function of your own that is
    /// `#[inline(never)]`.
    #[inline(always)]
    pub fn get(&self, key: &[u8]) -> Option<usize>
        ensures { (m : Map) → Means K.kind (S.stored self.now.store) m
            → result ≡ look K.kind m key.now }
    {
        get::<K>(self.as_bytes(), key)
    }
}

impl<S> ZeroTrieSimpleAscii<S> {
    /// Returns the same trie as a `ZeroTrie`.
    pub fn into_zerotrie(self) -> ZeroTrie<S>
        ensures kind { flavor_kind result.flavor ≡ simple_ascii }
        ensures store { result.store ≡ self.store }
    {
        ZeroTrie::of_kind::<Simple>(self.into_store())
    }
}

impl<'a, K> AsciiTrie<K, &'a [u8]> {
    /// Returns the trie over these bytes. Does not validate them.
    ///
    /// ```
    /// let trie = ZeroTrieSimpleAscii::from_bytes(b"in\x83to\x84");
    /// assert_eq!(rt; trie.get(b"into"), Some(4));
    /// ```
    pub fn from_bytes(bytes: &'a [u8]) -> Self
        ensures { result.store.now ≡ bytes.now }
    {
        AsciiTrie::from_store(bytes)
    }
}

impl<'a, K: AsciiKind> AsciiTrie<K, &'a [u8]> {
    /// Returns the trie with no keys. Does not allocate.
    ///
    /// ```
    /// assert_eq!(rt; ZeroTrieSimpleAscii::empty().get(b""), None);
    /// ```
    pub fn empty() -> Self
        ensures bytes { result.store.now ≡ [] }
        ensures map { Means K.kind result.store.now empty }
    {
        AsciiTrie::from_bytes(&[])
    }
}

impl<K: AsciiKind> AsciiTrie<K, Vec<u8>> {
    /// Returns the length in bytes of the trie of a slice, whose keys must ascend strictly by their
    /// bytes. Does not build it.
    ///
    /// ```
    /// let items: [(&[u8], usize); 2] = [(b"ad", 22), (b"adef", 33)];
    /// assert_eq!(rt; ZeroTrieSimpleAscii::encoded_len(rt.alloc(), &items)?, 8);
    /// ```
    ///
    /// Errors: `Unsorted`, `NonAsciiError`, `MixedCase` (if case is ignored), `CapacityExceeded`,
    /// `OutOfMemory`; see `ZeroTrieBuildError`.
    pub fn encoded_len(alloc: Global, items: &[(&[u8], usize)]) -> Result<usize, ZeroTrieBuildError>
        ensures { IsLength ascending K.kind (pairs_of items.now) result }
    {
        let items = ByteSliceWithIndices::from_byte_slice(items);
        encoded_len(alloc, items, ZeroTrieBuilderOptions::of::<K>())
    }

    /// Returns the length in bytes of the trie of a slice, as `encoded_len` does, for `str` keys.
    ///
    /// ```
    /// let items = [("ad", 22), ("adef", 33)];
    /// assert_eq!(rt; ZeroTrieSimpleAscii::encoded_len_str(rt.alloc(), &items)?, 8);
    /// ```
    pub fn encoded_len_str(
        alloc: Global,
        items: &[(&str, usize)],
    ) -> Result<usize, ZeroTrieBuildError>
        ensures { IsLength ascending K.kind (pairs_of items.now) result }
    {
        let items = ByteSliceWithIndices::from_str_slice(items);
        encoded_len(alloc, items, ZeroTrieBuilderOptions::of::<K>())
    }

    /// Builds the trie of a map with string keys, `&str` or `String`. An empty map gives an empty
    /// trie.
    ///
    /// ```
    /// let mut map: BTreeMap<&str, usize> = BTreeMap::new(rt.alloc());
    /// map.insert("ad", 22)?;
    /// let trie = ZeroTrieSimpleAscii::try_from_btree_map_str(rt.alloc(), &map)?;
    /// assert_eq!(rt; trie.get(b"ad"), Some(22));
    /// ```
    ///
    /// Errors: `NonAsciiError`, `MixedCase` (if case is ignored), `CapacityExceeded`,
    /// `OutOfMemory`; see `ZeroTrieBuildError`.
    pub fn try_from_btree_map_str<Key: TextKey>(
        alloc: Global,
        entries: &BTreeMap<Key, usize>,
    ) -> Result<Self, ZeroTrieBuildError>
        ensures { IsBuild in_order K.kind (λ trie. trie.store.items)
            (keyed Key.key entries.now.entries) result }
    {
        Self::try_from_btree_map(alloc, entries)
    }

    /// Builds the trie of a map. An empty map gives an empty trie.
    ///
    /// Errors: `Unsorted` (never if the keys are ordered by their bytes, as byte and string keys
    /// are), `NonAsciiError`, `MixedCase` (if case is ignored), `CapacityExceeded`, `OutOfMemory`;
    /// see `ZeroTrieBuildError`.
    pub fn try_from_btree_map<Key: TrieKey + Ord>(
        alloc: Global,
        entries: &BTreeMap<Key, usize>,
    ) -> Result<Self, ZeroTrieBuildError>
        ensures build { IsBuild ascending K.kind (λ trie. trie.store.items)
            (keyed Key.key entries.now.entries) result }
        ensures by_bytes { IsByBytes Key.cmp Key.key
            → IsBuild in_order K.kind (λ trie. trie.store.items) (keyed Key.key entries.now.entries)
            result }
    {
        let store = bytes_from_map::<K, Key>(alloc, entries)?;
        Ok(AsciiTrie::from_store(store))
    }

    /// Builds the trie of a slice, whose keys must ascend strictly by their bytes, also if case is
    /// ignored. An empty slice gives an empty trie.
    ///
    /// ```
    /// let items: [(&[u8], usize); 2] = [(b"ad", 22), (b"adef", 33)];
    /// let trie = ZeroTrieSimpleAscii::try_from_sorted_slice(rt.alloc(), &items)?;
    /// assert_eq!(rt; trie.get(b"adef"), Some(33));
    /// ```
    ///
    /// Errors: `Unsorted`, `NonAsciiError`, `MixedCase` (if case is ignored), `CapacityExceeded`,
    /// `OutOfMemory`; see `ZeroTrieBuildError`.
    pub fn try_from_sorted_slice(
        alloc: Global,
        items: &[(&[u8], usize)],
    ) -> Result<Self, ZeroTrieBuildError>
        ensures { IsBuild ascending K.kind (λ trie. trie.store.items) (pairs_of items.now) result }
    {
        let store = bytes_from_slice::<K>(alloc, items)?;
        Ok(AsciiTrie::from_store(store))
    }

    /// Builds the trie of all pairs of an iterator, in any order. An empty iterator gives an empty
    /// trie.
    ///
    /// ```
    /// let trie = ZeroTrieSimpleAscii::try_from_iter(rt.alloc(), [("xyz", 22), ("abc", 11)])?;
    /// assert_eq!(rt; trie.get(b"abc"), Some(11));
    /// ```
    ///
    /// Errors: `DuplicateKey`, `NonAsciiError`, `MixedCase` (if case is ignored),
    /// `CapacityExceeded`, `OutOfMemory`; see `ZeroTrieBuildError`.
    pub fn try_from_iter<Key: TrieKey + Drop, U: IntoIterator<Item = (Key, usize)>>(
        alloc: Global,
        iter: U,
    ) -> Result<Self, ZeroTrieBuildError>
    where
        U::IntoIter: Drop,
        requires { IsFiniteIterable U.into_iter_gives U.IntoIter.can_next U.IntoIter.remaining
            iter }
        ensures { IsBuildOfAll (HoldsOfItsPairs U.into_iter_gives U.IntoIter.next_gives Key.key iter)
            K.kind (λ trie. trie.store.items) result }
    {
        let store = bytes_from_iter::<K, Key, U>(alloc, iter)?;
        Ok(AsciiTrie::from_store(store))
    }
}

impl<K, S: Copy> Clone for AsciiTrie<K, S> {
    fn clone(&self) -> Result<Self, AllocError>
        ensures { result ≡ Ok self.now }
    {
        Ok(AsciiTrie::from_store(self.store))
    }
}

impl<K, S: Copy> Copy for AsciiTrie<K, S> {}

/// Prints the name of the kind and the number of bytes, as `ZeroTrieSimpleAscii(17 bytes)`.
impl<K: AsciiKind, S: TrieStore> fmt::Debug for AsciiTrie<K, S> {
    fn fmt<W: fmt::Write>(&self, f: &mut fmt::Formatter<W>) -> fmt::Result {
        let name = if K::IGNORE_CASE {
            "ZeroAsciiIgnoreCaseTrie"
        } else {
            "ZeroTrieSimpleAscii"
        };
        write!(f, "{name}({} bytes)", self.byte_len())
    }
}

impl<'a, K> Default for AsciiTrie<K, &'a [u8]> {
    ghost is_default = { λ t. t.store.now ≡ [] };

    fn default() -> Self {
        AsciiTrie::from_bytes(&[])
    }
}

impl<K: AsciiKind, S: TrieStore> PartialEq for AsciiTrie<K, S> {
    ghost eq = { λ x y. pointwise ◌==◌ (S.stored x.store) (S.stored y.store) };

    ghost laws = { on_per (λ x. S.stored x.store) (cmp.partial_equiv_from_equiv nat_list_eq_equiv) };

    fn eq(&self, other: &Self) -> bool
        ensures bytes { IsTrue result ↔ (S.stored self.now.store ≡ S.stored other.now.store) }
        ensures maps { (m n : Map) → Means K.kind (S.stored self.now.store) m
            → Means K.kind (S.stored other.now.store) n → IsTrue result ↔ (m ≡ n) }
    {
        laws::equal_exactly_if_maps_are();
        self.as_bytes() == other.as_bytes()
    }
}

impl<K: AsciiKind, S: TrieStore> Eq for AsciiTrie<K, S> {
    ghost laws = { on_equiv (λ x. S.stored x.store) nat_list_eq_equiv };
}

/// A kind of trie over ASCII keys: `Simple` or `Ignore`. Each branch has a sorted table, so a map
/// has one encoding.
pub trait AsciiKind: ZeroTrieWithOptions {
    ghost ascii: { IsAscii Self.kind };
}

impl AsciiKind for Simple {
    ghost ascii = { tt };
}

impl AsciiKind for Ignore {
    ghost ascii = { tt };
}

impl<K: ZeroTrieWithOptions, S> ZeroTrieWithOptions for AsciiTrie<K, S> {
    const USE_PHF: bool = K::USE_PHF;

    const SPANS: bool = K::SPANS;

    const EXTENDED: bool = K::EXTENDED;

    const IGNORE_CASE: bool = K::IGNORE_CASE;

    const TAG: u8 = K::TAG;

    ghost USE_PHF = { K.USE_PHF };

    ghost SPANS = { K.SPANS };

    ghost EXTENDED = { K.EXTENDED };

    ghost IGNORE_CASE = { K.IGNORE_CASE };

    ghost TAG = { K.TAG };

    ghost kind = { K.kind };

    ghost flags_are = { K.flags_are };

    ghost tag_is = { K.tag_is };

    ghost lawful = { K.lawful };
}
