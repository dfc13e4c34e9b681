//! Which pairs are kept of those that have one key.

ghost use Rattle.std.specs.Prelude.{◌≡◌, ◌≤◌, ◌<◌, ◌+◌, ◌^◌, ◌++◌, ◌∷◌, ◌||◌, ℕ, List, [], length, not, if◌then◌else◌, IfOk, IfErr, IfSome, IfNone, OnOk, Some, None};
ghost use Rattle.std.specs.Bool.{OnTrue, OnFalse};
ghost use Rattle.std.specs.Str.{bytes_eq};
ghost use Rattle.zerotrie_core.specs.Items.{pairs_of};
ghost use Rattle.zerotrie_making.specs.Kept.{numbered, firsts, lasts, merged, has_seen, place_in, with_next, AreSmall, IsKept, IsNextTooLarge};
ghost use Rattle.zerotrie_making.specs.Made.{IsNotMerged};
ghost use Rattle.zerotrie_sets.specs.Selections.{one_of_two};
ghost use Rattle.zerotrie_sets.specs.declared.selection.Rule.TheVariants as rules;

use crate::error::{MakeError, numbered};
use std::alloc::{AllocError, Global};
use std::collections::BTreeMap;
use zerotrie_sets::Rule;

/// What is done with pairs that have one key.
#[derive(Clone, Copy, PartialEq, Eq, Debug)]
pub enum Duplicates {
    /// They are an error.
    Refuse,
    /// The first of them is kept.
    First,
    /// The last of them is kept.
    Last,
    /// The first of them is kept, with the sum of their values. A sum of 2^64 or more is an error.
    Sum,
    /// The first of them is kept, with the least of their values.
    Min,
    /// The first of them is kept, with the greatest of their values.
    Max,
}

/// Pairs that are kept, and their numbers among all pairs, from 1 on.
#[derive(Drop)]
pub(crate) struct Kept<'a> {
    pub(crate) numbers: Vec<usize>,
    pub(crate) items: Vec<(&'a [u8], usize)>,
}

/// Adds a key to those that were seen, and returns whether it is new.
fn is_new<'a>(seen: &mut BTreeMap<&'a [u8], ()>, key: &'a [u8]) -> Result<bool, AllocError>
    ensures new { IfOk result (λ new. new ≡ not (has_seen seen.old key.now)) }
    ensures seen { OnOk result ((q : List ℕ)
        → has_seen seen.new q ≡ (bytes_eq key.now q || has_seen seen.old q)) }
{
    match seen.insert(key, ()) {
        Ok(earlier) => Ok(earlier.is_none()),
        Err(_) => Err(AllocError),
    }
}

/// Adds a pair to those that are kept, unless its key was seen.
fn add_new<'a>(
    seen: &mut BTreeMap<&'a [u8], ()>,
    kept: &mut Kept<'a>,
    number: usize,
    item: (&'a [u8], usize),
) -> Result<(), AllocError>
    ensures numbers { OnOk result (kept.new.numbers.items ≡ kept.old.numbers.items
        ++ (if has_seen seen.old item.entry.0.now then [] else number ∷ [])) }
    ensures items { OnOk result (pairs_of kept.new.items.items ≡ pairs_of kept.old.items.items
        ++ (if has_seen seen.old item.entry.0.now then [] else (item.entry.0.now, item.entry.1) ∷ [])) }
    ensures seen { OnOk result ((q : List ℕ)
        → has_seen seen.new q ≡ (bytes_eq item.entry.0.now q || has_seen seen.old q)) }
{
    if is_new(seen, item.0)? {
        kept.numbers.push(number)?;
        kept.items.push(item)?;
    }
    Ok(())
}

/// Keeps the pairs whose keys no pair before them has.
pub(crate) fn firsts<'a>(alloc: Global, all: &[(&'a [u8], usize)]) -> Result<Kept<'a>, AllocError>
    ensures { IfOk result (IsKept (firsts [] (numbered 1 (pairs_of all.now)))) }
{
    let mut seen = BTreeMap::new(alloc);
    let mut kept = Kept {
        numbers: Vec::new(alloc),
        items: Vec::new(alloc),
    };
    let mut done = 0;
    while done < all.len() {
        add_new(&mut seen, &mut kept, done + 1, all[done])?;
        done += 1;
    }
    Ok(kept)
}

/// Keeps the pairs whose keys no pair after them has.
pub(crate) fn lasts<'a>(alloc: Global, all: &[(&'a [u8], usize)]) -> Result<Kept<'a>, AllocError>
    ensures { IfOk result (IsKept (lasts (numbered 1 (pairs_of all.now)))) }
{
    let mut seen = BTreeMap::new(alloc);
    let mut kept = Kept {
        numbers: Vec::new(alloc),
        items: Vec::new(alloc),
    };
    let mut left = all.len();
    while left > 0 {
        add_new(&mut seen, &mut kept, left, all[left - 1])?;
        left -= 1;
    }
    kept.numbers.reverse();
    kept.items.reverse();
    Ok(kept)
}

/// Returns what a rule makes of a value and the next one. `None` if it is a sum of 2^64 or more.
fn one_of_two(rule: Rule, value: usize, next: usize) -> Option<usize>
    ensures some { IfSome result (λ one. one ≡ one_of_two rule value next) }
    ensures small { IfSome result (λ one. one < 2 ^ 64) }
    ensures none { IfNone result ((rule ≡ rules.Sum) × (2 ^ 64 ≤ value + next)) }
{
    match rule {
        Rule::First | Rule::Equal | Rule::Refuse => Some(value),
        Rule::Last => Some(next),
        Rule::Sum => value.checked_add(next),
        Rule::Min => Some(value.min(next)),
        Rule::Max => Some(value.max(next)),
    }
}

/// Adds a pair whose key is new.
fn add_first<'a>(
    places: &mut BTreeMap<&'a [u8], usize>,
    kept: &mut Kept<'a>,
    number: usize,
    item: (&'a [u8], usize),
) -> Result<(), AllocError>
    ensures numbers { OnOk result (kept.new.numbers.items ≡ kept.old.numbers.items ++ number ∷ []) }
    ensures items { OnOk result (pairs_of kept.new.items.items ≡ pairs_of kept.old.items.items
        ++ (item.entry.0.now, item.entry.1) ∷ []) }
    ensures places { OnOk result ((q : List ℕ) → place_in places.new q
        ≡ (if bytes_eq item.entry.0.now q then Some (length kept.old.items.items) else place_in places.old q)) }
    ensures small { OnOk result (AreSmall (pairs_of kept.old.items.items)
        → AreSmall (pairs_of kept.new.items.items)) }
{
    match places.insert(item.0, kept.items.len()) {
        Ok(_earlier) => {
            kept.numbers.push(number)?;
            kept.items.push(item)?;
            Ok(())
        }
        Err(_) => Err(AllocError),
    }
}

/// Merges a value into the item at a place, by the rule. Returns whether that is no sum of 2^64 or
/// more.
fn merge_at<'a>(items: &mut Vec<(&'a [u8], usize)>, rule: Rule, place: usize, next: usize) -> bool
    requires { place < length items.now.items }
    ensures merged { OnTrue result ((key : List ℕ) → pairs_of items.new.items
        ≡ with_next rule (Some place) (key, next) (pairs_of items.old.items)) }
    ensures small { OnTrue result (AreSmall (pairs_of items.old.items)
        → AreSmall (pairs_of items.new.items)) }
    ensures too_large { OnFalse result ((key : List ℕ)
        → IsNextTooLarge rule (Some place) (key, next) (pairs_of items.old.items)) }
{
    let (key, value) = items[place];
    match one_of_two(rule, value, next) {
        Some(one) => {
            items[place] = (key, one);
            true
        }
        None => false,
    }
}

/// Keeps the first pair of each key, with what the rule makes of the values of all pairs that have the
/// key.
pub(crate) fn merged<'a>(
    alloc: Global,
    rule: Rule,
    all: &[(&'a [u8], usize)],
) -> Result<Kept<'a>, MakeError>
    ensures ok { IfOk result (IsKept (merged rule (pairs_of all.now))) }
    ensures err { IfErr result (IsNotMerged rule (pairs_of all.now)) }
{
    let mut places = BTreeMap::new(alloc);
    let mut kept = Kept {
        numbers: Vec::new(alloc),
        items: Vec::new(alloc),
    };
    let mut done = 0;
    while done < all.len() {
        let (key, value) = all[done];
        let place = places.get(key).copied();
        match place {
            None => add_first(&mut places, &mut kept, done + 1, all[done])?,
            Some(place) => {
                if !merge_at(&mut kept.items, rule, place, value) {
                    return Err(MakeError::SumTooLarge(numbered(alloc, None, all, done)?));
                }
            }
        }
        done += 1;
    }
    Ok(kept)
}
