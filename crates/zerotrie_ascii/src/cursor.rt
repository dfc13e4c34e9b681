//! Cursors, which follow a key byte by byte.

ghost use Rattle.std.specs.Prelude.{⊤, ◌≡◌, ◌≤◌, length, ◌↔◌, ◌∷◌, [], ℕ, List, None, IsTrue, IfNone, IfOk, IsOk, OnErr, is_ok, MatchResult, nat_lt};
ghost use Rattle.std.specs.Fn.{FnOnceReturnsAtMut};
ghost use Rattle.std.specs.Option.{option_map};
ghost use Rattle.zerotrie_core.specs.Kind.{simple_ascii, ignore_case};
ghost use Rattle.zerotrie_core.specs.Maps.{Pairs};
ghost use Rattle.zerotrie_core.specs.Texts.{Lists};
ghost use Rattle.zerotrie_core.specs.Listings.{to_come};
ghost use Rattle.zerotrie_core.specs.Places.{IsStep, IsTake, IsProbe};
ghost use Rattle.zerotrie_core.specs.Skips.{IsGrouped};
ghost use Rattle.zerotrie_any.specs.Auto.{is_ascii};
ghost use Rattle.zerotrie_any.specs.Walks.{IsWalk};
ghost use Rattle.zerotrie_ascii.specs.ListedTexts.{AreTexts};
ghost use Rattle.zerotrie_ascii.specs.Writing.{ascii_front, StepsBy, HasValue};

use crate::list::ZeroTrieStringIterator;
use crate::trie::{AsciiKind, AsciiTrie};
use std::alloc::{AllocError, Global};
use std::fmt;
use std::marker::{Model, PhantomData};
use zerotrie_any::{CursorAnswer, CursorOp, walk};
use zerotrie_core::{
    AsciiProbeResult, Ignore, Simple, TrieStore, ZeroTrieStream, probe, step, take_value,
};

/// A cursor in a trie over ASCII keys. `K` is the kind.
///
/// Use it by the name of a kind: `ZeroTrieSimpleAsciiCursor` or `ZeroAsciiIgnoreCaseTrieCursor`.
///
/// It represents what remains of all keys that begin with the bytes that were stepped. It borrows
/// from the trie's bytes and does not allocate. Each clone moves on its own. On malformed bytes
/// results are unspecified; no call panics or reads outside them.
#[derive(Debug, Drop)]
pub struct AsciiCursor<'a, K> {
    trie: &'a [u8],
    kind: PhantomData<K>,
}

/// A cursor in a `ZeroTrieSimpleAscii`.
///
/// ```
/// let trie = ZeroTrieSimpleAscii::from_bytes(b"abc\x80def\x81");
/// let mut cursor = trie.cursor();
/// cursor.step(b'a');
/// cursor.step(b'b');
/// cursor.step(b'c');
/// assert_eq!(rt; cursor.take_value(), Some(0));
/// cursor.step(b'x');
/// assert!(rt; cursor.is_empty());
/// ```
pub type ZeroTrieSimpleAsciiCursor<'a> = AsciiCursor<'a, Simple>;

/// A cursor in a `ZeroAsciiIgnoreCaseTrie`.
///
/// ```
/// let trie = ZeroAsciiIgnoreCaseTrie::from_bytes(b"aB\x85");
/// let mut cursor = trie.cursor();
/// assert_eq!(rt; cursor.step(b'A'), Some(b'a'));
/// assert_eq!(rt; cursor.step(b'b'), Some(b'B'));
/// assert_eq!(rt; cursor.take_value(), Some(5));
/// ```
pub type ZeroAsciiIgnoreCaseTrieCursor<'a> = AsciiCursor<'a, Ignore>;

impl<'a, K> Model for AsciiCursor<'a, K> {
    ghost use Rattle.std.specs.Prelude.{ℕ, List};

    ghost Value = { List ℕ };

    ghost view = { λ c. c.trie.now };
}

impl<'a, K> AsciiCursor<'a, K> {
    fn new(trie: &'a [u8]) -> Self
        ensures { result ≡ trie.now }
    {
        AsciiCursor {
            trie,
            kind: PhantomData,
        }
    }

    /// Returns the trie of what remains of the keys. It borrows from the trie's bytes, so it may
    /// outlive the cursor.
    ///
    /// ```
    /// let trie = ZeroTrieSimpleAscii::from_bytes(b"abc\x80def\x81");
    /// let mut cursor = trie.cursor();
    /// cursor.step(b'a');
    /// assert_eq!(rt; cursor.into_suffix_trie().get(b"bcdef"), Some(1));
    /// ```
    pub fn into_suffix_trie(self) -> AsciiTrie<K, &'a [u8]>
        ensures { result.store.now ≡ self.entry }
    {
        let AsciiCursor { trie, kind: _ } = self;
        AsciiTrie::from_bytes(trie)
    }
}

impl<'a, K: AsciiKind> AsciiCursor<'a, K> {
    /// Returns a lending iterator over what remains of the keys, with their values: each key is
    /// borrowed from one buffer. Does not change the cursor.
    ///
    /// ```
    /// let trie = ZeroTrieSimpleAscii::from_bytes(b"in\x83to\x84");
    /// let mut cursor = trie.cursor();
    /// cursor.step(b'i');
    /// let mut pairs = cursor.stream(rt.alloc());
    /// assert!(rt; pairs.advance()?);
    /// assert_eq!(rt; (pairs.key(), pairs.value()), (b"n".as_slice(), 3));
    /// ```
    ///
    /// Does not allocate before the first pair, nor for each pair.
    pub fn stream(&self, alloc: Global) -> ZeroTrieStream<'a>
        ensures lists { (pairs : Pairs) → Lists K.kind self.now pairs
            → result.left ≡ to_come pairs }
        ensures most { length result.left.pairs ≤ length self.now }
        ensures grouped { (pairs : Pairs) → Lists K.kind self.now pairs → IsGrouped result }
    {
        ZeroTrieStream::new::<K>(alloc, self.trie)
    }

    /// Returns an iterator over what remains of the keys, with their values. Does not change the
    /// cursor.
    pub fn iter(&self, alloc: Global) -> ZeroTrieStringIterator<'a>
        ensures lists { (pairs : Pairs) → Lists K.kind self.now pairs → result ≡ to_come pairs }
        ensures texts { (pairs : Pairs) → Lists K.kind self.now pairs → AreTexts pairs }
        ensures most { length result.pairs ≤ length self.now }
    {
        ZeroTrieStringIterator::new::<K>(alloc, self.trie)
    }

    /// Returns whether nothing remains: there is no value and no edge.
    pub fn is_empty(&self) -> bool
        ensures exact { IsTrue result ↔ (self.now ≡ []) }
        ensures pairs { (pairs : Pairs) → Lists K.kind self.now pairs → IsTrue result
            ↔ (pairs ≡ []) }
    {
        self.trie.is_empty()
    }

    /// Takes the value of the key that ends here, so that a second call returns `None`. If there is
    /// none, returns `None` and leaves the cursor unchanged.
    pub fn take_value(&mut self) -> Option<usize>
        ensures meaning { IsTake K.kind (Lists K.kind self.old) result (Lists K.kind self.new) }
        ensures none { IfNone result (self.new ≡ self.old) }
    {
        take_value(&mut self.trie)
    }

    #[inline(always)]
    fn step_edge(&mut self, byte: u8) -> Option<u8>
        ensures meaning { IsStep K.kind (Lists K.kind self.old) byte result
            (Lists K.kind self.new) }
        ensures empty { IfNone result (self.new ≡ []) }
    {
        step::<K>(&mut self.trie, byte)
    }
}

impl<'a> AsciiCursor<'a, Simple> {
    /// Follows the edge for this byte, past a value if there is one. If there is no such edge, the
    /// cursor becomes empty.
    #[inline(always)]
    pub fn step(&mut self, byte: u8)
        ensures { StepsBy simple_ascii self.old (byte ∷ []) self.new }
    {
        self.step_edge(byte);
    }
}

impl<'a> AsciiCursor<'a, Ignore> {
    /// Follows the edge for this byte, ignoring case, past a value if there is one, and returns the
    /// byte as stored. If there is no such edge, returns `None`, and the cursor becomes empty.
    #[inline(always)]
    pub fn step(&mut self, byte: u8) -> Option<u8>
        ensures meaning { IsStep ignore_case (Lists ignore_case self.old) byte result
            (Lists ignore_case self.new) }
        ensures empty { IfNone result (self.new ≡ []) }
    {
        self.step_edge(byte)
    }
}

impl<'a, K: AsciiKind> AsciiCursor<'a, K> {
    /// Follows the edge with this index, past a value if there is one, and returns its byte and the
    /// number of edges here.
    ///
    /// ```
    /// let trie = ZeroTrieSimpleAscii::from_bytes(b"\xC2ab\x01\x85\x86");
    /// let mut cursor = trie.cursor();
    /// let edge = AsciiProbeResult { byte: b'b', total_siblings: 2 };
    /// assert_eq!(rt; cursor.probe(1), Some(edge));
    /// assert_eq!(rt; cursor.probe(0), None);
    /// ```
    ///
    /// The edges of a branch are numbered in the order of its table. A literal is one edge. If no
    /// edge has this index, returns `None`, and the cursor becomes empty.
    pub fn probe(&mut self, index: usize) -> Option<AsciiProbeResult>
        ensures meaning { IsProbe (Lists K.kind self.old) index
            (option_map {U = ℕ × ℕ} (λ r. (r.byte, r.total_siblings)) result)
            (Lists K.kind self.new) }
        ensures empty { IfNone result (self.new ≡ []) }
    {
        probe::<K>(&mut self.trie, index)
    }

    /// Steps by an ASCII character. Any other character is an error and leaves the cursor
    /// unchanged.
    pub fn write_char(&mut self, c: char) -> fmt::Result
        ensures exact { is_ok result ≡ nat_lt c 128 }
        ensures ok { IsOk result → StepsBy K.kind self.old (c ∷ []) self.new }
        ensures err { OnErr result (self.new ≡ self.old) }
    {
        if !c.is_ascii() {
            return Err(fmt::Error);
        }
        self.step_edge(c as u8);
        Ok(())
    }
}

impl<'a, K> Clone for AsciiCursor<'a, K> {
    ghost is_clone = { λ x y. y ≡ x };

    ghost is_infallible = { λ _. ⊤ };

    fn clone(&self) -> Result<Self, AllocError> {
        Ok(AsciiCursor::new(self.trie))
    }
}

/// Steps by each byte of what is written, so that `write!` follows what it prints.
impl<'a, K: AsciiKind> fmt::Write for AsciiCursor<'a, K> {
    ghost use Rattle.zerotrie_ascii.specs.Writing.{StepsBy};

    ghost write_str_gives = { λ s bytes t. StepsBy K.kind s bytes t };

    /// Steps by each byte before the first that is not ASCII, which is an error.
    fn write_str(&mut self, s: &str) -> fmt::Result
        ensures ok { IsOk result → StepsBy K.kind self.old s.now self.new }
        ensures exact { is_ok result ≡ is_ascii s.now }
        ensures after { StepsBy K.kind self.old (ascii_front s.now) self.new }
    {
        for byte in s.as_bytes() {
            if !byte.is_ascii() {
                return Err(fmt::Error);
            }
            self.step_edge(*byte);
        }
        Ok(())
    }
}

impl<K: AsciiKind, S: TrieStore> AsciiTrie<K, S> {
    /// Returns a cursor at the beginning of all keys.
    pub fn cursor(&self) -> AsciiCursor<'_, K>
        ensures { result ≡ S.stored self.now.store }
    {
        AsciiCursor::new(self.as_bytes())
    }

    /// Returns the value of the key that a closure writes to a cursor, or `None` if the closure
    /// fails.
    ///
    /// ```
    /// use std::fmt::Write;
    ///
    /// let trie = ZeroTrieSimpleAscii::from_bytes(b"abc\x85");
    /// assert_eq!(rt; trie.get_with_write_fn(|cursor| write!(cursor, "a{}", "bc")), Some(5));
    /// ```
    ///
    /// The value is the one at the cursor after the closure. The closure may also take values and
    /// probe, or replace the cursor by another.
    pub fn get_with_write_fn<'a, F: FnOnce(&mut AsciiCursor<'a, K>) -> fmt::Result>(
        &'a self,
        write: F,
    ) -> Option<usize>
        requires { F.IsAlwaysCallable write }
        ensures { (fresh : List ℕ) × (left : List ℕ) × (answer : _)
            × (fresh ≡ S.stored self.now.store)
            × FnOnceReturnsAtMut F.FnOnce write fresh answer left
            × MatchResult answer (λ _. HasValue K.kind left result) (λ _. result ≡ None) }
    {
        let mut cursor = self.cursor();
        match write(&mut cursor) {
            Ok(()) => cursor.take_value(),
            Err(_) => None,
        }
    }

    /// Makes these calls on a new cursor, one after another, and returns their results.
    ///
    /// ```
    /// let trie = ZeroTrieSimpleAscii::from_bytes(b"a\x85");
    /// let answers = trie.walk(rt.alloc(), &[CursorOp::Step(b'a'), CursorOp::Take])?;
    /// assert_eq!(rt; answers[0], CursorAnswer::Stepped(Some(b'a')));
    /// assert_eq!(rt; answers[1], CursorAnswer::Taken(Some(5)));
    /// ```
    ///
    /// An error means that an allocation failed.
    pub fn walk(&self, alloc: Global, ops: &[CursorOp]) -> Result<Vec<CursorAnswer>, AllocError>
        ensures { IfOk result (λ answers.
            IsWalk K.kind (S.stored self.now.store) ops.now answers.items) }
    {
        walk::<K>(alloc, self.as_bytes(), ops)
    }
}

impl<'a, K: AsciiKind> AsciiTrie<K, &'a [u8]> {
    /// Returns a cursor at the beginning of all keys. It borrows from the trie's bytes, so it may
    /// outlive the trie.
    pub fn into_cursor(self) -> AsciiCursor<'a, K>
        ensures { result ≡ self.entry.store.now }
    {
        AsciiCursor::new(self.into_store())
    }
}
