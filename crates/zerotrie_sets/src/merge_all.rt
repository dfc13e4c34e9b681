//! Any number of streams merged: a row for each key of any of them.

ghost use Rattle.std.specs.Prelude.{◌≡◌, ◌<◌, ℕ, List, length, map, IfOk, IfErr, IsTrue, false};
ghost use Rattle.std.specs.Option.{option_map, option_flatten};
ghost use Rattle.std.specs.List.{slice_get};
ghost use Rattle.zerotrie_sets.specs.Streams.{Advances, coming};
ghost use Rattle.zerotrie_sets.specs.Inputs.{MergesOne};
ghost use Rattle.zerotrie_sets.specs.Rows.{all_joined, first_of, last_of, EachAscends, IsMergeAll};
ghost use Rattle.zerotrie_sets.specs.Selections.{present, as_one, selected, IsNoOne, IsRuleError};
ghost use Rattle.zerotrie_sets.specs.declared.selection.RuleError.{RuleError};
ghost use Rattle.zerotrie_sets.specs.ManyInputs.{pendings, after_key, key_at, lesser, found_as, IsLeast, IsLeastAt, listed_all, AllFetched};

use crate::input::Input;
use crate::selection::{Rule, RuleError, Selection};
use std::alloc::{AllocError, Allocator, Global};
use std::cmp::Ordering;
use std::marker::Model;
use zerotrie_core::PairStream;

/// Lists the keys of any number of streams in the order of bytes, each key once, with the value
/// that each stream has for it.
///
/// ```
/// let mut streams = Vec::new(rt.alloc());
/// streams.push(SortedSlice::new(&[(b"a", 1), (b"c", 2)]).ok_or("not sorted")?)?;
/// streams.push(SortedSlice::new(&[(b"b", 3)]).ok_or("not sorted")?)?;
/// streams.push(SortedSlice::new(&[(b"a", 4)]).ok_or("not sorted")?)?;
/// let mut rows = MergeAll::new(rt.alloc(), streams)?;
/// assert!(rt; rows.advance()?);
/// assert_eq!(rt; rows.key(), b"a".as_slice());
/// assert_eq!(rt; (rows.value(0), rows.value(1), rows.value(2)), (Some(1), None, Some(4)));
/// assert_eq!(rt; (rows.first(), rows.last()), (Some(1), Some(4)));
/// ```
///
/// It allocates for the streams at first, and then no more, apart from what the streams do. A step
/// compares the least key so far with the key of each stream.
#[derive(Drop)]
pub struct MergeAll<S: PairStream, A: Allocator = Global> {
    inputs: Vec<Input<S>, A>,
    // The number of the first input with the current key.
    at: usize,
    ended: bool,
}

impl<S: PairStream, A: Allocator> Model for MergeAll<S, A> {
    ghost use Rattle.zerotrie_sets.specs.Streams.{coming};
    ghost use Rattle.zerotrie_sets.specs.Rows.{MergingAll, all_joined};
    ghost use Rattle.zerotrie_sets.specs.Selections.{present, as_one, selected, IsNoOne, IsRuleError};
    ghost use Rattle.zerotrie_sets.specs.declared.selection.RuleError.{RuleError};
    ghost use Rattle.zerotrie_sets.specs.ManyInputs.{pendings, key_at, listed_all};

    ghost Value = { MergingAll };

    ghost view = { λ s. record {
      current = (key_at S.current s.inputs.items s.at, listed_all S.current s.inputs.items);
      left = coming s.ended (all_joined (pendings S.left S.current s.inputs.items));
    } };
}

impl<S: PairStream + Drop, A: Allocator + Copy> MergeAll<S, A> {
    /// Merges streams. Does not advance them before the first call of `advance`.
    pub fn new(alloc: A, streams: Vec<S, A>) -> Result<Self, AllocError>
        ensures always { IfOk result (λ rows. rows.left
            ≡ coming false (all_joined (map (λ s. (S.left s).pairs) streams.items))) }
        ensures is { IfOk result (λ rows. EachAscends (map (λ s. (S.left s).pairs) streams.items)
            → IsMergeAll (map (λ s. (S.left s).pairs) streams.items) rows.left.items) }
    {
        crate::laws::rows_of_all_are_of_maps();
        let mut inputs = Vec::new(alloc);
        for stream in streams {
            inputs.push(Input::new(stream))?;
        }
        Ok(MergeAll {
            inputs,
            at: 0,
            ended: false,
        })
    }
}

impl<S: PairStream, A: Allocator> MergeAll<S, A> {
    /// Moves to the next key, and returns whether there is one. An error ends the merge. The only
    /// error is a failed allocation in a stream: a merge of slices never fails.
    pub fn advance(&mut self) -> Result<bool, AllocError>
        ensures advances { Advances self.old.left result self.new.current self.new.left }
        ensures fails { IfErr result (λ _. IsTrue S.can_fail) }
    {
        if self.ended {
            return Ok(false);
        }
        self.ended = true;
        let found = next_row(&mut self.inputs, &mut self.at)?;
        self.ended = !found;
        Ok(found)
    }

    /// Returns the current key, the one that the last call of `advance` moved to. Before the first
    /// call and after the end, it is not a key of the streams.
    pub fn key(&self) -> &[u8]
        ensures { result.now ≡ self.now.current.0 }
    {
        match self.inputs.get(self.at) {
            Some(input) => input.stream.key(),
            None => &[],
        }
    }

    /// Returns the value that a stream has for the current key, if it has the key. The streams are
    /// numbered from 0 on.
    pub fn value(&self, stream: usize) -> Option<usize>
        ensures { result ≡ option_flatten (slice_get self.now.current.1 stream) }
    {
        match self.inputs.get(stream) {
            Some(input) => input.listed(),
            None => None,
        }
    }

    /// Returns the value of the first stream that has the current key, as in a union that keeps the
    /// first.
    pub fn first(&self) -> Option<usize>
        ensures { result ≡ first_of self.now.current.1 }
    {
        first_listed(&self.inputs)
    }

    /// Returns the value of the last stream that has the current key, as in a union that keeps the
    /// last.
    pub fn last(&self) -> Option<usize>
        ensures { result ≡ last_of self.now.current.1 }
    {
        last_listed(&self.inputs)
    }

    /// Returns the value that a selection has for the current key, which is what the rule makes of
    /// the values of the streams that have the key, or `None` if the selection does not take it.
    ///
    /// ```
    /// let mut streams = Vec::new(rt.alloc());
    /// streams.push(SortedSlice::new(&[(b"a", 1), (b"c", 2)]).ok_or("not sorted")?)?;
    /// streams.push(SortedSlice::new(&[(b"a", 3), (b"b", 4)]).ok_or("not sorted")?)?;
    /// let mut rows = MergeAll::new(rt.alloc(), streams)?;
    /// assert!(rt; rows.advance()?);
    /// assert_eq!(rt; rows.selected(Selection::Union, Rule::Sum)?, Some(4));
    /// assert_eq!(rt; rows.selected(Selection::Difference, Rule::Sum)?, None);
    /// let several = rows.selected(Selection::Union, Rule::Refuse);
    /// assert!(rt; matches!(several, Err(RuleError::SeveralValues)));
    /// ```
    pub fn selected(&self, selection: Selection, rule: Rule) -> Result<Option<usize>, RuleError>
        ensures ok { IfOk result (λ value. value ≡ selected selection rule self.now.current.1) }
        ensures allowed { IfOk result (λ _. (e : RuleError)
            → IsRuleError selection rule self.now.current.1 e → ⊥) }
        ensures err { IfErr result (IsRuleError selection rule self.now.current.1) }
    {
        let first = self.value(0).is_some();
        if selection.takes(first, count_listed(&self.inputs), self.inputs.len()) {
            one_listed(&self.inputs, rule)
        } else {
            Ok(None)
        }
    }
}

/// Returns how many values were listed.
fn count_listed<S: PairStream>(inputs: &[Input<S>]) -> usize
    ensures { result ≡ length (present (listed_all S.current inputs.now)) }
{
    let mut count = 0;
    for input in inputs {
        count += usize::from(input.listed().is_some());
    }
    count
}

/// Returns what a rule makes of the values that were listed.
fn one_listed<S: PairStream>(inputs: &[Input<S>], rule: Rule) -> Result<Option<usize>, RuleError>
    ensures ok { IfOk result (λ one.
        one ≡ as_one rule (present (listed_all S.current inputs.now))) }
    ensures allowed { IfOk result (λ _. (e : RuleError)
        → IsNoOne rule (present (listed_all S.current inputs.now)) e → ⊥) }
    ensures err { IfErr result (IsNoOne rule (present (listed_all S.current inputs.now))) }
{
    let mut one = None;
    for input in inputs {
        match rule.one_more(one, input.listed()) {
            Ok(more) => one = more,
            Err(error) => return Err(error),
        }
    }
    Ok(one)
}

/// Returns the first value that was listed.
fn first_listed<S: PairStream>(inputs: &[Input<S>]) -> Option<usize>
    ensures { result ≡ first_of (listed_all S.current inputs.now) }
{
    for input in inputs {
        let value = input.listed();
        if value.is_some() {
            return value;
        }
    }
    None
}

/// Returns the last value that was listed.
fn last_listed<S: PairStream>(inputs: &[Input<S>]) -> Option<usize>
    ensures { result ≡ last_of (listed_all S.current inputs.now) }
{
    let mut last = None;
    for input in inputs {
        last = input.listed().or(last);
    }
    last
}

/// Moves each input to its first pair that is still to be listed.
fn fetch_all<S: PairStream>(inputs: &mut [Input<S>]) -> Result<(), AllocError>
    ensures fetches { IfOk result (λ _. AllFetched inputs.new
        × (pendings S.left S.current inputs.new ≡ pendings S.left S.current inputs.old)) }
    ensures fails { IfErr result (λ _. IsTrue S.can_fail) }
{
    for input in inputs.iter_mut() {
        input.fetch()?;
    }
    Ok(())
}

/// The least key that waits, and which inputs have it.
#[derive(Clone, Copy, Debug)]
struct Least<'k> {
    /// The number of the first one.
    at: usize,
    key: &'k [u8],
    /// No other input has the key.
    alone: bool,
}

/// Returns the lesser of the least key so far and that of an input, if one waits there.
fn lesser<'k>(least: Option<Least<'k>>, at: usize, waiting: Option<&'k [u8]>) -> Option<Least<'k>>
    ensures { found_as result
        ≡ lesser (found_as least.entry) at (option_map (λ k. k.now) waiting.entry) }
{
    let Some(key) = waiting else {
        return least;
    };
    let first = Least {
        at,
        key,
        alone: true,
    };
    let Some(before) = least else {
        return Some(first);
    };
    match key.cmp(before.key) {
        Ordering::Less => Some(first),
        Ordering::Equal => Some(Least {
            alone: false,
            ..before
        }),
        Ordering::Greater => Some(before),
    }
}

/// Returns the least key that waits.
fn find_least<S: PairStream>(inputs: &[Input<S>]) -> Option<Least<'_>>
    ensures { IsLeast S.current (found_as result) inputs.now }
{
    let mut least: Option<Least<'_>> = None;
    for at in 0..inputs.len() {
        least = lesser(least, at, inputs[at].waiting());
    }
    least
}

/// Lists the pairs that wait with this key.
fn list_all<S: PairStream>(inputs: &mut [Input<S>], key: &[u8])
    ensures { inputs.new ≡ map (after_key S.current key.now) inputs.old }
{
    for input in inputs.iter_mut() {
        input.list_key(key);
    }
}

/// Lists the pairs that wait with the key of the input at a place: that one, and those after it
/// unless it is alone.
fn list_least<S: PairStream>(inputs: &mut [Input<S>], at: usize, alone: bool)
    requires { at < length inputs.old }
    ensures { (key : List ℕ) → IsLeastAt S.current key alone at inputs.old
        → (inputs.new ≡ map (after_key S.current key) inputs.old)
        × (key_at S.current inputs.new at ≡ key) }
{
    inputs[at].list();
    if alone {
        return;
    }
    let (front, others) = inputs.split_at_mut(at + 1);
    list_all(others, front[at].stream.key());
}

/// Moves to the next row, and returns whether there is one.
fn next_row<S: PairStream>(inputs: &mut [Input<S>], at: &mut usize) -> Result<bool, AllocError>
    ensures merges { IfOk result (MergesOne
        (all_joined (pendings S.left S.current inputs.old))
        (key_at S.current inputs.new at.new, listed_all S.current inputs.new)
        (all_joined (pendings S.left S.current inputs.new))) }
    ensures fails { IfErr result (λ _. IsTrue S.can_fail) }
{
    fetch_all(inputs)?;
    let Some(least) = find_least(inputs) else {
        return Ok(false);
    };
    let alone = least.alone;
    *at = least.at;
    list_least(inputs, *at, alone);
    Ok(true)
}
