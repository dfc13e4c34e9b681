//! The cursor of any kind, which may be inside a span.

ghost use Rattle.std.specs.Prelude.{◌≡◌, ◌≢◌, ◌↔◌, ◌≤◌, ◌+◌, ◌++◌, ℕ, [], length, IfSome, IfNone, IsTrue};
ghost use Rattle.std.specs.Option.{option_map};
ghost use Rattle.zerotrie_base.specs.Kind.{Kind};
ghost use Rattle.zerotrie_base.specs.Maps.{Pairs};
ghost use Rattle.zerotrie_base.specs.Texts.{Lists};
ghost use Rattle.zerotrie_core.specs.Places.{Place, nowhere, ListsBehind, ListsAt, IsStep, IsTake, IsProbe, FollowsRun};
ghost use Rattle.zerotrie_core.specs.cursor.Edges.{LiesBehind, place_along, place_after};

use crate::cursor::take_value;
use crate::edges::{Along, edge_like, edge_numbered, run_edge_like, run_edge_numbered};
use std::marker::Model;
use zerotrie_base::ZeroTrieWithOptions;

/// The result of a probe in a trie of any kind.
#[derive(Clone, Copy, Debug, PartialEq, Eq)]
pub struct ByteProbeResult {
    /// The byte of the edge.
    pub byte: u8,
    /// The number of edges, this one included.
    pub total_siblings: u16,
}

/// A cursor in a trie of any kind.
///
/// It is between two bytes of a key, and may be inside the run of a span. There each byte of the
/// rest of the run is one edge, with no value between them.
///
/// It borrows two slices of the store, the rest of the run and the trie after it, and never
/// allocates. On malformed bytes its results are unspecified; it never panics or reads outside
/// them.
#[derive(Clone, Debug, Drop)]
pub struct SpanCursor<'a> {
    run: &'a [u8],
    trie: &'a [u8],
}

impl<'a> Model for SpanCursor<'a> {
    ghost use Rattle.zerotrie_core.specs.Places.{Place};

    ghost Value = { Place };

    ghost view = { λ c. record { run = c.run.now; trie = c.trie.now } };
}

/// Like `edge_like`, after the rest of a run.
#[inline(always)]
pub(crate) fn like_at<'a, K: ZeroTrieWithOptions>(
    run: &'a [u8],
    trie: &'a [u8],
    byte: u8,
) -> Option<Along<'a>>
    ensures step { IsStep K.kind (ListsBehind K.kind run.now trie.now) byte
        (option_map (λ a. a.edge) result) (ListsAt K.kind (place_along result)) }
    ensures run { IfSome result (λ a. FollowsRun K.kind
        (record { run = run.now; trie = trie.now }) a.edge (place_after a)) }
    ensures lies { LiesBehind (run.now ++ trie.now) result }
{
    if run.is_empty() {
        edge_like::<K>(trie, byte)
    } else {
        run_edge_like::<K>(run, trie, byte)
    }
}

/// Like `edge_numbered`, after the rest of a run.
#[inline(always)]
pub(crate) fn numbered_at<'a, K: ZeroTrieWithOptions>(
    run: &'a [u8],
    trie: &'a [u8],
    index: usize,
) -> Option<(Along<'a>, usize)>
    ensures probe { IsProbe (ListsBehind K.kind run.now trie.now) index
        (option_map {U = ℕ × ℕ} (λ r. (r.0.edge, r.1)) result)
        (ListsAt K.kind (place_along (option_map (λ r. r.0) result))) }
    ensures run { IfSome result (λ r. FollowsRun K.kind
        (record { run = run.now; trie = trie.now }) r.0.edge (place_after r.0)) }
    ensures lies { LiesBehind (run.now ++ trie.now) (option_map (λ r. r.0) result) }
    ensures few { IfSome result (λ r. r.1 ≤ 256) }
{
    if run.is_empty() {
        edge_numbered::<K>(trie, index)
    } else {
        run_edge_numbered(run, trie, index)
    }
}

impl<'a> SpanCursor<'a> {
    #[inline(always)]
    fn behind(along: Along<'a>) -> Self
        ensures { result ≡ record { run = along.entry.run.now; trie = along.entry.trie.now } }
    {
        SpanCursor {
            run: along.run,
            trie: along.trie,
        }
    }

    /// Returns a cursor at the beginning of a trie.
    #[inline]
    pub fn new(bytes: &'a [u8]) -> Self
        ensures { result ≡ record { run = []; trie = bytes.now } }
    {
        SpanCursor {
            run: &[],
            trie: bytes,
        }
    }

    /// Returns a cursor at the beginning of a run, each byte of which is an edge, and of the trie
    /// after it.
    #[inline]
    pub fn from_parts(run: &'a [u8], trie: &'a [u8]) -> Self
        ensures { result ≡ record { run = run.now; trie = trie.now } }
    {
        SpanCursor { run, trie }
    }

    /// Returns the rest of the run that the cursor is in, which is empty outside of spans, and the
    /// trie after it.
    #[inline]
    pub fn parts(&self) -> (&'a [u8], &'a [u8])
        ensures run { result.0.now ≡ self.now.run }
        ensures trie { result.1.now ≡ self.now.trie }
    {
        (self.run, self.trie)
    }

    /// Returns whether no key continues from here. An empty cursor has no value either.
    #[inline]
    pub fn is_empty(&self) -> bool
        ensures exact { IsTrue result ↔ (self.now ≡ nowhere) }
        ensures pairs { (kind : Kind) (pairs : Pairs) → ListsAt kind self.now pairs
            → IsTrue result ↔ (pairs ≡ []) }
    {
        self.run.is_empty() && self.trie.is_empty()
    }

    /// Returns the trie of what all keys have from here on, or `None` inside a span.
    #[inline]
    pub fn rest(&self) -> Option<&'a [u8]>
        ensures some { IfSome result (λ trie. (self.now.run ≡ []) × (trie.now ≡ self.now.trie)) }
        ensures none { IfNone result (self.now.run ≢ []) }
        ensures lists { IfSome result (λ trie. (kind : Kind) (pairs : Pairs)
            → ListsAt kind self.now pairs → Lists kind trie.now pairs) }
    {
        self.run.is_empty().then_some(self.trie)
    }

    /// Takes the value of the empty key. Returns `None` if there is none, and then changes nothing.
    #[inline]
    pub fn take_value(&mut self) -> Option<usize>
        ensures meaning { (kind : Kind)
            → IsTake kind (ListsAt kind self.old) result (ListsAt kind self.new) }
        ensures run { self.new.run ≡ self.old.run }
        ensures none { IfNone result (self.new ≡ self.old) }
    {
        if self.run.is_empty() {
            take_value(&mut self.trie)
        } else {
            None
        }
    }

    /// Follows the edge that equals the byte in this kind, and returns the byte of the edge.
    ///
    /// Skips a value before the edge. If no edge equals the byte, returns `None` and leaves the
    /// cursor empty.
    #[inline(always)]
    pub fn step<K: ZeroTrieWithOptions>(&mut self, byte: u8) -> Option<u8>
        ensures meaning { IsStep K.kind (ListsAt K.kind self.old) byte result
            (ListsAt K.kind self.new) }
        ensures run { IfSome result (λ edge. FollowsRun K.kind self.old edge self.new) }
        ensures shorter { length self.new.run + length self.new.trie
            ≤ length self.old.run + length self.old.trie }
        ensures empty { IfNone result (self.new ≡ nowhere) }
    {
        let Some(along) = like_at::<K>(self.run, self.trie, byte) else {
            *self = SpanCursor::new(&[]);
            return None;
        };
        *self = SpanCursor::behind(along);
        Some(along.edge)
    }

    /// Follows the edge with this number, and returns its byte and the number of edges.
    ///
    /// Skips a value before the edge. If there is no edge with this number, returns `None` and
    /// leaves the cursor empty.
    #[inline]
    pub fn probe<K: ZeroTrieWithOptions>(&mut self, index: usize) -> Option<ByteProbeResult>
        ensures meaning { IsProbe (ListsAt K.kind self.old) index
            (option_map {U = ℕ × ℕ} (λ r. (r.byte, r.total_siblings)) result)
            (ListsAt K.kind self.new) }
        ensures run { IfSome result (λ r. FollowsRun K.kind self.old r.byte self.new) }
        ensures empty { IfNone result (self.new ≡ nowhere) }
    {
        let Some((along, edges)) = numbered_at::<K>(self.run, self.trie, index) else {
            *self = SpanCursor::new(&[]);
            return None;
        };
        *self = SpanCursor::behind(along);
        Some(ByteProbeResult {
            byte: along.edge,
            total_siblings: edges as u16,
        })
    }
}
