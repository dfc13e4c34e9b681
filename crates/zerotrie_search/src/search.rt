//! The pairs of a listing whose keys an automaton accepts.

ghost use Rattle.std.specs.Prelude.{◌≡◌, ◌≤◌, ◌<◌, ◌+◌, [], false, true, IfOk};
ghost use Rattle.zerotrie_core.specs.Listings.{ListsOne, MemoryOnly, item_of};
ghost use Rattle.zerotrie_core.specs.WellFormed.{IsWellFormed};
ghost use Rattle.zerotrie_search.specs.Searches.{accepted_left};
ghost use Rattle.zerotrie_search.specs.Sorted.{Ends, moved};
ghost use Rattle.zerotrie_search.specs.Trails.{IsTrail, IsFront, trail_bytes};

use crate::automaton::Automaton;
use crate::sorted::{Reached, ZeroTrieSorted};
use crate::trail::{Verdict, last_state, read};
use std::alloc::{AllocError, Allocator, Global};
use std::marker::Model;

/// Lists the pairs of a sorted listing whose keys an automaton accepts, in the order of bytes, each key
/// borrowed from one buffer.
///
/// ```
/// use std::ops::Bound;
///
/// // the keys "ab", "ac" and "b" with values 1, 2 and 3
/// let bytes = b"\xC2ab\x06\xC2bc\x01\x81\x82\x83";
/// let (from, to) = (Bound::Unbounded, Bound::Excluded(b"b".as_slice()));
/// let sorted = ZeroTrieSorted::new::<Simple>(rt.alloc(), bytes, from, to)?;
/// let near = Levenshtein::new(b"c", 1).ok_or("a long word")?;
/// let mut search = ZeroTrieSearch::new(rt.alloc(), sorted, near);
/// assert!(rt; search.advance()?);
/// assert_eq!(rt; (search.key(), search.value()), (b"ac".as_slice(), 2));
/// assert_eq!(rt; search.automaton().distance(search.state()), Some(1));
/// assert!(rt; !search.advance()?);
/// ```
///
/// It goes from node to node. Once no accepted key begins with the bytes so far, it leaves out the pairs
/// that begin with them and reads no node of them. Of a branch it enters no target whose edge the
/// automaton does not want. It allocates for the longest key alone: the listing, and one state a byte,
/// which keys that begin alike share. If an allocation for a state fails, it reads the next key from an
/// earlier byte.
#[derive(Drop)]
pub struct ZeroTrieSearch<'a, 'p, T: Automaton, A: Allocator = Global> {
    pairs: ZeroTrieSorted<'a, 'p, A>,
    automaton: T,
    trail: Vec<(u8, T::State), A>,
    state: T::State,
}

impl<'a, 'p, T: Automaton, A: Allocator> Model for ZeroTrieSearch<'a, 'p, T, A> {
    ghost use Rattle.std.specs.Prelude.{◌≡◌, [], false};
    ghost use Rattle.zerotrie_search.specs.Searches.{accepted_left};
    ghost use Rattle.zerotrie_search.specs.Sorted.{Searching};
    ghost use Rattle.zerotrie_search.specs.Trails.{IsTrail, IsFront, trail_bytes};

    ghost Value = { Searching T T.State };

    ghost view = { λ s. record {
      sorted = s.pairs;
      left = accepted_left (T.accepts s.automaton) s.pairs.left;
      automaton = s.automaton;
      state = s.state;
    } };

    ghost invariant = { λ s.
        IsTrail (T.IsAfter s.automaton) (T.accepts_from s.automaton) (T.accepts s.automaton)
        [] s.trail.items
        × (s.pairs.left.ended ≡ false → IsFront (trail_bytes s.trail.items) s.pairs.key) };
}

impl<'a, 'p, T: Automaton, A: Allocator> ZeroTrieSearch<'a, 'p, T, A> {
    /// Moves to the next pair whose key is accepted, and returns whether there is one. An error
    /// ends the search.
    ///
    /// The only error is a failed allocation for a longer key. On malformed bytes the result is
    /// unspecified; it never panics or reads outside them, and lists at most as many pairs as bytes.
    pub fn advance(&mut self) -> Result<bool, AllocError>
        ensures lists { IsWellFormed self.old.sorted.kind self.old.sorted.bytes
            → ListsOne (λ key. key) MemoryOnly self.old.left
            (item_of result (self.new.sorted.key, self.new.sorted.value)) self.new.left }
        ensures automaton { self.new.automaton ≡ self.old.automaton }
        ensures state { IfOk result (λ found. found ≡ true
            → T.IsAfter self.new.automaton self.new.sorted.key self.new.state) }
        ensures accepted { IfOk result (λ found. found ≡ true
            → T.accepts self.new.automaton self.new.sorted.key ≡ true) }
        ensures ends { Ends result self.old.left self.new.left }
        ensures most { moved result + self.new.sorted.most ≤ self.old.sorted.most }
        ensures work { IfOk result (λ found. found ≡ true
            → self.new.sorted.work < self.old.sorted.work) }
        ensures kind { self.new.sorted.kind ≡ self.old.sorted.kind }
        ensures bytes { self.new.sorted.bytes ≡ self.old.sorted.bytes }
    {
        next_accepted(
            &self.automaton,
            &mut self.pairs,
            &mut self.trail,
            &mut self.state,
        )
    }

    /// Returns the key of the current pair, the one that the last call of `advance` moved to.
    /// Before the first call and after the end, it is not a key of the trie.
    #[inline]
    pub fn key(&self) -> &[u8]
        ensures { result.now ≡ self.now.sorted.key }
    {
        self.pairs.key()
    }

    /// Returns the value of the current pair.
    #[inline]
    pub fn value(&self) -> usize
        ensures { result ≡ self.now.sorted.value }
    {
        self.pairs.value()
    }

    /// Returns the automaton.
    #[inline]
    pub fn automaton(&self) -> &T
        ensures { result.now ≡ self.now.automaton }
    {
        &self.automaton
    }

    /// Returns the state of the automaton after the key of the current pair.
    #[inline]
    pub fn state(&self) -> T::State
        ensures { result ≡ self.now.state }
    {
        self.state
    }
}

impl<'a, 'p, T: Automaton, A: Allocator + Copy> ZeroTrieSearch<'a, 'p, T, A> {
    /// Lists the pairs of a sorted listing whose keys are accepted. It does not allocate before the
    /// first call of `advance`.
    pub fn new(alloc: A, pairs: ZeroTrieSorted<'a, 'p, A>, automaton: T) -> Self
        ensures left { result.left ≡ accepted_left (T.accepts automaton) pairs.entry.left }
        ensures sorted { result.sorted ≡ pairs.entry }
        ensures automaton { result.automaton ≡ automaton }
    {
        let state = automaton.start();
        ZeroTrieSearch {
            pairs,
            automaton,
            trail: Vec::new(alloc),
            state,
        }
    }
}

/// Leaves out the targets of the branch that was opened last whose edges the automaton does not want, as
/// far as memory was there for the states.
#[inline]
fn only_wanted<'a, 'p, T: Automaton, A: Allocator>(
    automaton: &T,
    pairs: &mut ZeroTrieSorted<'a, 'p, A>,
    trail: &[(u8, T::State)],
)
    requires trail { IsTrail (T.IsAfter automaton.now) (T.accepts_from automaton.now)
        (T.accepts automaton.now) [] trail.now }
    requires front { IsFront (trail_bytes trail.now) pairs.old.key }
    ensures left { IsWellFormed pairs.old.kind pairs.old.bytes
        → accepted_left (T.accepts automaton.now) pairs.new.left
        ≡ accepted_left (T.accepts automaton.now) pairs.old.left }
    ensures ended { pairs.new.left.ended ≡ pairs.old.left.ended }
    ensures less { pairs.new.work ≤ pairs.old.work }
    ensures key { pairs.new.key ≡ pairs.old.key }
    ensures most { pairs.new.most ≡ pairs.old.most }
    ensures kind { pairs.new.kind ≡ pairs.old.kind }
    ensures bytes { pairs.new.bytes ≡ pairs.old.bytes }
{
    if trail.len() < pairs.key().len() {
        return;
    }
    if let Some(wanted) = automaton.wanted(last_state(automaton, trail)) {
        pairs.only(&wanted);
    }
}

/// Moves a sorted listing to the next pair whose key is accepted.
fn next_accepted<'a, 'p, T: Automaton, A: Allocator>(
    automaton: &T,
    pairs: &mut ZeroTrieSorted<'a, 'p, A>,
    trail: &mut Vec<(u8, T::State), A>,
    state: &mut T::State,
) -> Result<bool, AllocError>
    requires trail { IsTrail (T.IsAfter automaton.now) (T.accepts_from automaton.now)
        (T.accepts automaton.now) [] trail.old.items }
    requires front { pairs.old.left.ended ≡ false
        → IsFront (trail_bytes trail.old.items) pairs.old.key }
    ensures trail { IsTrail (T.IsAfter automaton.now) (T.accepts_from automaton.now)
        (T.accepts automaton.now) [] trail.new.items }
    ensures front { pairs.new.left.ended ≡ false
        → IsFront (trail_bytes trail.new.items) pairs.new.key }
    ensures lists { IsWellFormed pairs.old.kind pairs.old.bytes
        → ListsOne (λ key. key) MemoryOnly
        (accepted_left (T.accepts automaton.now) pairs.old.left)
        (item_of result (pairs.new.key, pairs.new.value))
        (accepted_left (T.accepts automaton.now) pairs.new.left) }
    ensures state { IfOk result (λ found. found ≡ true
        → T.IsAfter automaton.now pairs.new.key state.new) }
    ensures accepted { IfOk result (λ found. found ≡ true
        → T.accepts automaton.now pairs.new.key ≡ true) }
    ensures ends { Ends result pairs.old.left pairs.new.left }
    ensures most { moved result + pairs.new.most ≤ pairs.old.most }
    ensures work { IfOk result (λ found. found ≡ true → pairs.new.work < pairs.old.work) }
    ensures kind { pairs.new.kind ≡ pairs.old.kind }
    ensures bytes { pairs.new.bytes ≡ pairs.old.bytes }
{
    loop {
        match pairs.advance_node()? {
            Reached::End => return Ok(false),
            Reached::Branch => only_wanted(automaton, pairs, trail.as_slice()),
            Reached::Bytes(kept) => match read(automaton, pairs.key(), kept, trail) {
                Verdict::Alive(_after) => {}
                Verdict::Dead(depth) => pairs.leave(depth),
            },
            Reached::Pair => {
                let key = pairs.key();
                match read(automaton, key, key.len(), trail) {
                    Verdict::Dead(depth) => pairs.leave(depth),
                    Verdict::Alive(after) => {
                        if automaton.is_match(after) {
                            *state = after;
                            return Ok(true);
                        }
                    }
                }
            }
        }
    }
}
