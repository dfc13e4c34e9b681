//! Cursors, which follow a key byte by byte.

ghost use Rattle.std.specs.Prelude.{⊤, ◌≡◌, ◌≢◌, ◌≤◌, ◌↔◌, [], ℕ, length, IsTrue, IfSome, IfNone, IfOk};
ghost use Rattle.std.specs.Option.{option_map};
ghost use Rattle.zerotrie_core.specs.Maps.{Pairs};
ghost use Rattle.zerotrie_core.specs.Texts.{Lists};
ghost use Rattle.zerotrie_core.specs.Listings.{to_come};
ghost use Rattle.zerotrie_core.specs.Places.{nowhere, ListsAt, IsStep, IsTake, IsProbe, FollowsRun};
ghost use Rattle.zerotrie_core.specs.Skips.{IsGrouped};
ghost use Rattle.zerotrie_any.specs.Walks.{IsWalk};

use crate::trie::{HashedKind, HashedTrie};
use std::alloc::{AllocError, Global};
use std::marker::{Model, PhantomData};
use zerotrie_any::{CursorAnswer, CursorOp, walk};
use zerotrie_core::{
    ByteProbeResult, Ext, Hash, SpanCursor, TrieStore, ZeroTrieIterator, ZeroTrieStream,
};

/// A cursor in a trie over keys of any bytes. `K` is the kind.
///
/// Use it by the name of a kind: `ZeroTriePerfectHashCursor` or `ZeroTrieExtendedCapacityCursor`.
///
/// It represents what remains of all keys that begin with the bytes that were stepped. It borrows
/// from the trie's bytes and does not allocate. Each clone moves on its own. On malformed bytes
/// results are unspecified; no call panics or reads outside them.
///
/// The cursor may be inside a span, whose bytes are one edge after another with no value between
/// them.
#[derive(Debug, Drop)]
pub struct HashedCursor<'a, K> {
    place: SpanCursor<'a>,
    kind: PhantomData<K>,
}

/// A cursor in a `ZeroTriePerfectHash`.
///
/// ```
/// let trie = ZeroTriePerfectHash::from_bytes(b"\xA2\xC3\xA5\x85");
/// let mut cursor = trie.cursor();
/// assert_eq!(rt; cursor.step(0xC3), Some(0xC3));
/// assert_eq!(rt; cursor.step(0xA5), Some(0xA5));
/// assert_eq!(rt; cursor.take_value(), Some(5));
/// ```
pub type ZeroTriePerfectHashCursor<'a> = HashedCursor<'a, Hash>;

/// A cursor in a `ZeroTrieExtendedCapacity`.
///
/// ```
/// let trie = ZeroTrieExtendedCapacity::from_bytes(b"ab\x85");
/// let mut cursor = trie.cursor();
/// assert_eq!(rt; cursor.step(b'a'), Some(b'a'));
/// assert_eq!(rt; cursor.step(b'a'), None);
/// assert!(rt; cursor.is_empty());
/// ```
pub type ZeroTrieExtendedCapacityCursor<'a> = HashedCursor<'a, Ext>;

impl<'a, K> Model for HashedCursor<'a, K> {
    ghost use Rattle.zerotrie_core.specs.Places.{Place};

    ghost Value = { Place };

    ghost view = { λ c. c.place };
}

impl<'a, K> HashedCursor<'a, K> {
    fn new(trie: &'a [u8]) -> Self
        ensures { result ≡ record { run = []; trie = trie.now } }
    {
        HashedCursor {
            place: SpanCursor::new(trie),
            kind: PhantomData,
        }
    }
}

impl<'a, K: HashedKind> HashedCursor<'a, K> {
    /// Returns the trie of what remains of the keys. It borrows from the trie's bytes, so it may
    /// outlive the cursor.
    ///
    /// ```
    /// let trie = ZeroTriePerfectHash::from_bytes(b"a\xA2\xC3\xA5\x85");
    /// let mut cursor = trie.cursor();
    /// cursor.step(b'a');
    /// let suffixes = cursor.into_suffix_trie().ok_or("inside a span")?;
    /// assert_eq!(rt; suffixes.get(b"\xC3\xA5"), Some(5));
    /// ```
    ///
    /// Returns `None` inside a span, where the bytes that remain are not a trie.
    pub fn into_suffix_trie(self) -> Option<HashedTrie<K, &'a [u8]>>
        ensures some { IfSome result (λ t.
            (self.entry.run ≡ []) × (t.store.now ≡ self.entry.trie)) }
        ensures none { IfNone result (self.entry.run ≢ []) }
        ensures lists { IfSome result (λ t. (pairs : Pairs) → ListsAt K.kind self.entry pairs
            → Lists K.kind t.store.now pairs) }
    {
        let trie = self.place.rest()?;
        Some(HashedTrie::from_bytes(trie))
    }

    /// Returns a lending iterator over what remains of the keys, with their values: each key is
    /// borrowed from one buffer. Does not change the cursor. The cursor may be inside a span.
    ///
    /// ```
    /// let trie = ZeroTriePerfectHash::from_bytes(b"a\xA2\xC3\xA5\x85");
    /// let mut cursor = trie.cursor();
    /// cursor.step(b'a');
    /// cursor.step(0xC3);
    /// let mut pairs = cursor.stream(rt.alloc())?;
    /// assert!(rt; pairs.advance()?);
    /// assert_eq!(rt; (pairs.key(), pairs.value()), (b"\xA5".as_slice(), 5));
    /// ```
    ///
    /// An error means that an allocation failed.
    pub fn stream(&self, alloc: Global) -> Result<ZeroTrieStream<'a>, AllocError>
        ensures lists { IfOk result (λ s. (pairs : Pairs) → ListsAt K.kind self.now pairs
            → s.left ≡ to_come pairs) }
        ensures most { IfOk result (λ s. length s.left.pairs ≤ length self.now.trie) }
        ensures grouped { IfOk result (λ s. (pairs : Pairs) → ListsAt K.kind self.now pairs
            → IsGrouped s) }
    {
        ZeroTrieStream::from_cursor::<K>(alloc, self.place.clone()?)
    }

    /// Returns an iterator over what remains of the keys, with their values. Does not change the
    /// cursor. The cursor may be inside a span. An error means that an allocation failed.
    pub fn iter(&self, alloc: Global) -> Result<ZeroTrieIterator<'a>, AllocError>
        ensures lists { IfOk result (λ it. (pairs : Pairs) → ListsAt K.kind self.now pairs
            → it ≡ to_come pairs) }
        ensures most { IfOk result (λ it. length it.pairs ≤ length self.now.trie) }
    {
        ZeroTrieIterator::from_cursor::<K>(alloc, self.place.clone()?)
    }

    /// Returns whether nothing remains: there is no value and no edge.
    pub fn is_empty(&self) -> bool
        ensures exact { IsTrue result ↔ (self.now ≡ nowhere) }
        ensures pairs { (pairs : Pairs) → ListsAt K.kind self.now pairs → IsTrue result
            ↔ (pairs ≡ []) }
    {
        self.place.is_empty()
    }

    /// Takes the value of the key that ends here, so that a second call returns `None`. If there is
    /// none, returns `None` and leaves the cursor unchanged.
    pub fn take_value(&mut self) -> Option<usize>
        ensures meaning { IsTake K.kind (ListsAt K.kind self.old) result (ListsAt K.kind self.new) }
        ensures run { self.new.run ≡ self.old.run }
        ensures none { IfNone result (self.new ≡ self.old) }
    {
        self.place.take_value()
    }

    /// Follows the edge for this byte, past a value if there is one, and returns the byte. If there
    /// is no such edge, returns `None`, and the cursor becomes empty.
    #[inline(always)]
    pub fn step(&mut self, byte: u8) -> Option<u8>
        ensures meaning { IsStep K.kind (ListsAt K.kind self.old) byte result
            (ListsAt K.kind self.new) }
        ensures run { IfSome result (λ edge. FollowsRun K.kind self.old edge self.new) }
        ensures empty { IfNone result (self.new ≡ nowhere) }
    {
        self.place.step::<K>(byte)
    }

    /// Follows the edge with this index, past a value if there is one, and returns its byte and the
    /// number of edges here.
    ///
    /// ```
    /// let trie = ZeroTriePerfectHash::from_bytes(b"\xC2ab\x01\x85\x86");
    /// let mut cursor = trie.cursor();
    /// let edge = ByteProbeResult { byte: b'b', total_siblings: 2 };
    /// assert_eq!(rt; cursor.probe(1), Some(edge));
    /// assert_eq!(rt; cursor.probe(0), None);
    /// ```
    ///
    /// The edges of a branch are numbered in the order of its table. A literal or a byte of a span
    /// is one edge. If no edge has this index, returns `None`, and the cursor becomes empty.
    pub fn probe(&mut self, index: usize) -> Option<ByteProbeResult>
        ensures meaning { IsProbe (ListsAt K.kind self.old) index
            (option_map {U = ℕ × ℕ} (λ r. (r.byte, r.total_siblings)) result)
            (ListsAt K.kind self.new) }
        ensures run { IfSome result (λ r. FollowsRun K.kind self.old r.byte self.new) }
        ensures empty { IfNone result (self.new ≡ nowhere) }
    {
        self.place.probe::<K>(index)
    }
}

impl<'a, K> Clone for HashedCursor<'a, K> {
    ghost is_clone = { λ x y. y ≡ x };

    ghost is_infallible = { λ _. ⊤ };

    fn clone(&self) -> Result<Self, AllocError> {
        Ok(HashedCursor {
            place: self.place.clone()?,
            kind: PhantomData,
        })
    }
}

impl<K: HashedKind, S: TrieStore> HashedTrie<K, S> {
    /// Returns a cursor at the beginning of all keys.
    pub fn cursor(&self) -> HashedCursor<'_, K>
        ensures { result ≡ record { run = []; trie = S.stored self.now.store } }
    {
        HashedCursor::new(self.as_bytes())
    }

    /// Makes these calls on a new cursor, one after another, and returns their results.
    ///
    /// ```
    /// let trie = ZeroTriePerfectHash::from_bytes(b"a\x85");
    /// let answers = trie.walk(rt.alloc(), &[CursorOp::Step(b'a'), CursorOp::Take])?;
    /// assert_eq!(rt; answers[0], CursorAnswer::Stepped(Some(b'a')));
    /// assert_eq!(rt; answers[1], CursorAnswer::Taken(Some(5)));
    /// ```
    ///
    /// An error means that an allocation failed.
    pub fn walk(&self, alloc: Global, ops: &[CursorOp]) -> Result<Vec<CursorAnswer>, AllocError>
        ensures { IfOk result (λ answers.
            IsWalk K.kind (S.stored self.now.store) ops.now answers.items) }
    {
        walk::<K>(alloc, self.as_bytes(), ops)
    }
}

impl<'a, K: HashedKind> HashedTrie<K, &'a [u8]> {
    /// Returns a cursor at the beginning of all keys. It borrows from the trie's bytes, so it may
    /// outlive the trie.
    pub fn into_cursor(self) -> HashedCursor<'a, K>
        ensures { result ≡ record { run = []; trie = self.entry.store.now } }
    {
        HashedCursor::new(self.into_store())
    }
}
