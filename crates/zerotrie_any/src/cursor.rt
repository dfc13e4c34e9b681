//! Cursors, which follow a key byte by byte.

ghost use Rattle.std.specs.Prelude.{⊤, ◌≡◌, ◌≢◌, ◌≤◌, ◌↔◌, [], ℕ, length, IsTrue, IfSome, IfNone, IfOk};
ghost use Rattle.std.specs.Option.{option_map};
ghost use Rattle.zerotrie_core.specs.Maps.{Pairs};
ghost use Rattle.zerotrie_core.specs.Texts.{Lists};
ghost use Rattle.zerotrie_core.specs.Listings.{to_come};
ghost use Rattle.zerotrie_core.specs.Places.{nowhere, IsStep, IsTake, IsProbe, FollowsRun};
ghost use Rattle.zerotrie_core.specs.Skips.{IsGrouped};
ghost use Rattle.zerotrie_any.specs.Stands.{in_front, ListsFrom};
ghost use Rattle.zerotrie_any.specs.Flavors.{flavor_kind};
ghost use Rattle.zerotrie_any.specs.Walks.{IsWalk};

use crate::trie::{ZeroTrie, ZeroTrieFlavor, by_flavor};
use crate::walks::{CursorAnswer, CursorOp, walk};
use std::alloc::{AllocError, Global};
use std::marker::Model;
use zerotrie_core::{ByteProbeResult, SpanCursor, TrieStore, ZeroTrieIterator, ZeroTrieStream};

/// A cursor in a `ZeroTrie`.
///
/// ```
/// let trie = ZeroTrie::of_kind::<Hash>(b"a\xA2\xC3\xA5\x85".as_slice());
/// let mut cursor = trie.cursor();
/// assert_eq!(rt; cursor.step(b'a'), Some(b'a'));
/// assert_eq!(rt; cursor.step(b'b'), None);
/// assert!(rt; cursor.is_empty());
/// ```
///
/// It represents what remains of all keys that begin with the bytes that were stepped. It borrows
/// from the trie's bytes and does not allocate. Each clone moves on its own. On malformed bytes
/// results are unspecified; no call panics or reads outside them.
///
/// The cursor may be inside a span, whose bytes are one edge after another with no value between
/// them.
#[derive(Debug, Drop)]
pub struct ZeroTrieCursor<'a> {
    flavor: ZeroTrieFlavor,
    place: SpanCursor<'a>,
}

impl<'a> Model for ZeroTrieCursor<'a> {
    ghost use Rattle.zerotrie_any.specs.Stands.{Stand};

    ghost Value = { Stand };

    ghost view = { λ c. record { flavor = c.flavor; place = c.place } };
}

impl<'a> ZeroTrieCursor<'a> {
    fn new(flavor: ZeroTrieFlavor, bytes: &'a [u8]) -> Self
        ensures { result ≡ in_front flavor bytes.now }
    {
        ZeroTrieCursor {
            flavor,
            place: SpanCursor::new(bytes),
        }
    }

    /// Returns the trie of what remains of the keys. It borrows from the trie's bytes, so it may
    /// outlive the cursor.
    ///
    /// ```
    /// let trie = ZeroTrie::of_kind::<Simple>(b"in\x83to\x84".as_slice());
    /// let mut cursor = trie.cursor();
    /// cursor.step(b'i');
    /// let suffixes = cursor.into_suffix_trie().ok_or("inside a span")?;
    /// assert_eq!(rt; suffixes.get(b"nto"), Some(4));
    /// ```
    ///
    /// Returns `None` inside a span, where the bytes that remain are not a trie.
    pub fn into_suffix_trie(self) -> Option<ZeroTrie<&'a [u8]>>
        ensures some { IfSome result (λ t.
            (self.entry.place.run ≡ []) × (t.store.now ≡ self.entry.place.trie)) }
        ensures kind { IfSome result (λ t. t.flavor ≡ self.entry.flavor) }
        ensures none { IfNone result (self.entry.place.run ≢ []) }
        ensures lists { IfSome result (λ t. (pairs : Pairs) → ListsFrom self.entry pairs
            → Lists (flavor_kind t.flavor) t.store.now pairs) }
    {
        let store = self.place.rest()?;
        Some(ZeroTrie {
            flavor: self.flavor,
            store,
        })
    }

    /// Returns a lending iterator over what remains of the keys, with their values: each key is
    /// borrowed from one buffer. Does not change the cursor. The cursor may be inside a span.
    ///
    /// ```
    /// let trie = ZeroTrie::of_kind::<Simple>(b"in\x83to\x84".as_slice());
    /// let mut cursor = trie.cursor();
    /// cursor.step(b'i');
    /// let mut pairs = cursor.stream(rt.alloc())?;
    /// assert!(rt; pairs.advance()?);
    /// assert_eq!(rt; (pairs.key(), pairs.value()), (b"n".as_slice(), 3));
    /// ```
    ///
    /// An error means that an allocation failed.
    pub fn stream(&self, alloc: Global) -> Result<ZeroTrieStream<'a>, AllocError>
        ensures lists { IfOk result (λ s. (pairs : Pairs) → ListsFrom self.now pairs
            → s.left ≡ to_come pairs) }
        ensures most { IfOk result (λ s. length s.left.pairs ≤ length self.now.place.trie) }
        ensures grouped { IfOk result (λ s. (pairs : Pairs) → ListsFrom self.now pairs
            → IsGrouped s) }
    {
        let place = self.place.clone()?;
        by_flavor!(self.flavor, ZeroTrieStream::from_cursor::<_>(alloc, place))
    }

    /// Returns an iterator over what remains of the keys, with their values. Does not change the
    /// cursor. The cursor may be inside a span. An error means that an allocation failed.
    pub fn iter(&self, alloc: Global) -> Result<ZeroTrieIterator<'a>, AllocError>
        ensures lists { IfOk result (λ it. (pairs : Pairs) → ListsFrom self.now pairs
            → it ≡ to_come pairs) }
        ensures most { IfOk result (λ it. length it.pairs ≤ length self.now.place.trie) }
    {
        let place = self.place.clone()?;
        by_flavor!(
            self.flavor,
            ZeroTrieIterator::from_cursor::<_>(alloc, place)
        )
    }

    /// Returns whether nothing remains: there is no value and no edge.
    pub fn is_empty(&self) -> bool
        ensures exact { IsTrue result ↔ (self.now.place ≡ nowhere) }
        ensures pairs { (pairs : Pairs) → ListsFrom self.now pairs → IsTrue result ↔ (pairs ≡ []) }
    {
        self.place.is_empty()
    }

    /// Takes the value of the key that ends here, so that a second call returns `None`. If there is
    /// none, returns `None` and leaves the cursor unchanged.
    pub fn take_value(&mut self) -> Option<usize>
        ensures kind { self.new.flavor ≡ self.old.flavor }
        ensures meaning { IsTake (flavor_kind self.old.flavor) (ListsFrom self.old) result
            (ListsFrom self.new) }
        ensures run { self.new.place.run ≡ self.old.place.run }
        ensures none { IfNone result (self.new ≡ self.old) }
    {
        self.place.take_value()
    }

    /// Follows the edge for this byte, past a value if there is one, and returns the byte. If there
    /// is no such edge, returns `None`, and the cursor becomes empty.
    pub fn step(&mut self, byte: u8) -> Option<u8>
        ensures kind { self.new.flavor ≡ self.old.flavor }
        ensures meaning { IsStep (flavor_kind self.old.flavor) (ListsFrom self.old) byte result
            (ListsFrom self.new) }
        ensures run { IfSome result (λ edge.
            FollowsRun (flavor_kind self.old.flavor) self.old.place edge self.new.place) }
        ensures empty { IfNone result (self.new.place ≡ nowhere) }
    {
        by_flavor!(self.flavor, SpanCursor::step::<_>(&mut self.place, byte))
    }

    /// Follows the edge with this index, past a value if there is one, and returns its byte and the
    /// number of edges here.
    ///
    /// ```
    /// let trie = ZeroTrie::of_kind::<Simple>(b"\xC2ab\x01\x85\x86".as_slice());
    /// let mut cursor = trie.cursor();
    /// let edge = ByteProbeResult { byte: b'b', total_siblings: 2 };
    /// assert_eq!(rt; cursor.probe(1), Some(edge));
    /// assert_eq!(rt; cursor.take_value(), Some(6));
    /// ```
    ///
    /// The edges of a branch are numbered in the order of its table. A literal or a byte of a span
    /// is one edge. If no edge has this index, returns `None`, and the cursor becomes empty.
    pub fn probe(&mut self, index: usize) -> Option<ByteProbeResult>
        ensures kind { self.new.flavor ≡ self.old.flavor }
        ensures meaning { IsProbe (ListsFrom self.old) index
            (option_map {U = ℕ × ℕ} (λ r. (r.byte, r.total_siblings)) result) (ListsFrom self.new) }
        ensures run { IfSome result
            (λ r. FollowsRun (flavor_kind self.old.flavor) self.old.place r.byte self.new.place) }
        ensures empty { IfNone result (self.new.place ≡ nowhere) }
    {
        by_flavor!(self.flavor, SpanCursor::probe::<_>(&mut self.place, index))
    }
}

impl<'a> Clone for ZeroTrieCursor<'a> {
    ghost is_clone = { λ x y. y ≡ x };

    ghost is_infallible = { λ _. ⊤ };

    fn clone(&self) -> Result<Self, AllocError> {
        Ok(ZeroTrieCursor {
            flavor: self.flavor,
            place: self.place.clone()?,
        })
    }
}

impl<S: TrieStore> ZeroTrie<S> {
    /// Returns a cursor at the beginning of all keys.
    pub fn cursor(&self) -> ZeroTrieCursor<'_>
        ensures { result ≡ in_front self.now.flavor (S.stored self.now.store) }
    {
        ZeroTrieCursor::new(self.flavor, self.as_bytes())
    }

    /// Makes these calls on a new cursor, one after another, and returns their results.
    ///
    /// ```
    /// let trie = ZeroTrie::of_kind::<Ext>(b"a\x85".as_slice());
    /// let answers = trie.walk(rt.alloc(), &[CursorOp::Step(b'a'), CursorOp::Take])?;
    /// assert_eq!(rt; answers[0], CursorAnswer::Stepped(Some(b'a')));
    /// assert_eq!(rt; answers[1], CursorAnswer::Taken(Some(5)));
    /// ```
    ///
    /// An error means that an allocation failed.
    pub fn walk(&self, alloc: Global, ops: &[CursorOp]) -> Result<Vec<CursorAnswer>, AllocError>
        ensures { IfOk result (λ answers.
            IsWalk (flavor_kind self.now.flavor) (S.stored self.now.store)
            ops.now answers.items) }
    {
        let bytes = self.as_bytes();
        by_flavor!(self.flavor, walk::<_>(alloc, bytes, ops))
    }
}

impl<'a> ZeroTrie<&'a [u8]> {
    /// Returns a cursor at the beginning of all keys. It borrows from the trie's bytes, so it may
    /// outlive the trie.
    pub fn into_cursor(self) -> ZeroTrieCursor<'a>
        ensures { result ≡ in_front self.entry.flavor self.entry.store.now }
    {
        ZeroTrieCursor::new(self.flavor, self.store)
    }
}
