//! Unions, intersections and differences of tries.

ghost use Rattle.std.specs.Prelude.{◌≡◌, ◌⊎◌, [], None, map, Any, IfOk, IfErr, OnOk, IfSome, IfNone};
ghost use Rattle.zerotrie_core.specs.Kinds.{kind_of as kind_that_is};
ghost use Rattle.zerotrie_core.specs.Maps.{Pairs, Ascends};
ghost use Rattle.zerotrie_core.specs.Routes.{ascending, IsBuild};
ghost use Rattle.zerotrie_core.specs.WellFormed.{IsWellFormed};
ghost use Rattle.zerotrie_sets.specs.Merges.{if_some};
ghost use Rattle.zerotrie_sets.specs.Rows.{EachAscends};
ghost use Rattle.zerotrie_sets.specs.Selections.{selected, selected_rows, IsRuleError, SomeRowErrs};
ghost use Rattle.zerotrie_sets.specs.declared.selection.RuleError.{RuleError};
ghost use Rattle.zerotrie_c.specs.Listed.{IsFlat};
ghost use Rattle.zerotrie_c.specs.Numbers.{kind_of};
ghost use Rattle.zerotrie_c.specs.Statuses.{unknown_kind};
ghost use Rattle.std.specs.List.{AllZip};
ghost use Rattle.zerotrie_c.specs.Sets.{unknown_selection, selection_with, rule_with, plan_with, set_status_of, IsTrieOf, AreOfTrie, AreAdded, AreSelected, IsSetError, IsCombineTold};
ghost use Rattle.zerotrie_c.specs.declared.sets.SetError.TheVariants as error;

use crate::builds::{bytes_of_sorted, hand_out_trie};
use crate::flat::items_between;
use crate::listings::Flat;
use crate::numbers::{
    DUPLICATE_KEY, MALFORMED_TRIE, OUT_OF_MEMORY, SUM_TOO_LARGE, UNKNOWN_KIND, UNKNOWN_SELECTION,
    kind_of, trie_of,
};
use std::alloc::{AllocError, AllocFailed, Global};
use zerotrie_core::{TrieKind, TrieRef, ZeroTrieBuildError};
use zerotrie_sets::laws::{row_errors_are_of_keys, selections_are_of_maps};
use zerotrie_sets::{MergeAll, Rule, RuleError, Selection, SortedTrie};

/// A trie, with C's layout: the number of its kind, and its bytes.
#[repr(C)]
#[derive(Clone, Copy)]
pub struct Source<'a> {
    pub kind: u32,
    pub nodes: &'a [u8],
}

/// Why tries are not combined.
#[derive(Clone, Copy, Debug, PartialEq, Eq)]
pub enum SetError {
    UnknownKind,
    Malformed,
    Rule(RuleError),
    OutOfMemory,
}

impl From<AllocError> for SetError {
    ghost use Rattle.zerotrie_c.specs.declared.sets.SetError.TheVariants.{OutOfMemory};

    ghost from_gives = { λ _ e. e ≡ OutOfMemory };

    fn from(_cause: AllocError) -> SetError {
        SetError::OutOfMemory
    }
}

impl<T: Drop> From<AllocFailed<T>> for SetError {
    ghost use Rattle.zerotrie_c.specs.declared.sets.SetError.TheVariants.{OutOfMemory};

    ghost from_gives = { λ _ e. e ≡ OutOfMemory };

    fn from(_cause: AllocFailed<T>) -> SetError {
        SetError::OutOfMemory
    }
}

/// Returns the selection with this number, or `None` if none has it.
fn selection_with(number: u32) -> Option<Selection>
    ensures { result ≡ selection_with number }
{
    match number {
        0 => Some(Selection::Union),
        1 => Some(Selection::Intersection),
        2 => Some(Selection::Difference),
        3 => Some(Selection::SymmetricDifference),
        _ => None,
    }
}

/// Returns the rule with this number, or `None` if none has it.
fn rule_with(number: u32) -> Option<Rule>
    ensures { result ≡ rule_with number }
{
    match number {
        0 => Some(Rule::First),
        1 => Some(Rule::Last),
        2 => Some(Rule::Sum),
        3 => Some(Rule::Min),
        4 => Some(Rule::Max),
        5 => Some(Rule::Refuse),
        6 => Some(Rule::Equal),
        _ => None,
    }
}

/// Returns the selection and the rule with these numbers, or `None` if a number is that of none.
fn plan_with(selection: u32, rule: u32) -> Option<(Selection, Rule)>
    ensures { result ≡ plan_with selection rule }
{
    let selection = selection_with(selection)?;
    let rule = rule_with(rule)?;
    Some((selection, rule))
}

/// Returns the status of an error.
pub fn set_status_of(error: SetError) -> u32
    ensures { result ≡ set_status_of error }
{
    match error {
        SetError::UnknownKind => UNKNOWN_KIND,
        SetError::Malformed => MALFORMED_TRIE,
        SetError::Rule(RuleError::SeveralValues | RuleError::DifferentValues) => DUPLICATE_KEY,
        SetError::Rule(RuleError::SumTooLarge) => SUM_TOO_LARGE,
        SetError::OutOfMemory => OUT_OF_MEMORY,
    }
}

/// Returns the tries of kinds that are known.
fn tries_of<'a>(alloc: Global, sources: &[Source<'a>]) -> Result<Vec<TrieRef<'a>>, SetError>
    ensures ok { IfOk result (λ tries. AllZip IsTrieOf sources.now tries.items) }
    ensures err { IfErr result (λ e. (e ≡ error.OutOfMemory) ⊎ ((e ≡ error.UnknownKind)
        × Any (λ source. kind_of source.kind ≡ None) sources.now)) }
{
    let mut tries = Vec::with_capacity(alloc, sources.len())?;
    for source in sources {
        let Some(trie) = trie_of(source.kind, source.nodes) else {
            return Err(SetError::UnknownKind);
        };
        tries.push(trie)?;
    }
    Ok(tries)
}

/// Returns the pairs of a trie in the order of bytes.
fn stream_of<'t>(alloc: Global, trie: &'t TrieRef<'_>) -> Result<SortedTrie<'t, 't>, SetError>
    ensures pairs { IfOk result (λ s. AreOfTrie trie.now s.left.pairs) }
    ensures ascend { IfOk result (λ s. Ascends s.left.pairs) }
    ensures err { IfErr result (λ e. (e ≡ error.OutOfMemory) ⊎ ((e ≡ error.Malformed)
        × (IsWellFormed (kind_that_is trie.now.kind) trie.now.bytes.now → ⊥))) }
{
    match SortedTrie::of(alloc, trie) {
        Ok(Some(stream)) => Ok(stream),
        Ok(None) => Err(SetError::Malformed),
        Err(_) => Err(SetError::OutOfMemory),
    }
}

/// Returns the pairs of each trie in the order of bytes.
fn streams_of<'t>(
    alloc: Global,
    tries: &'t [TrieRef<'_>],
) -> Result<Vec<SortedTrie<'t, 't>>, SetError>
    ensures lists { IfOk result (λ streams.
        AllZip AreOfTrie tries.now (map {B = Pairs} (λ s. s.left.pairs) streams.items)) }
    ensures ascend { IfOk result (λ streams.
        EachAscends (map {B = Pairs} (λ s. s.left.pairs) streams.items)) }
    ensures err { IfErr result (λ e. (e ≡ error.OutOfMemory) ⊎ ((e ≡ error.Malformed)
        × Any (λ trie. IsWellFormed (kind_that_is trie.kind) trie.bytes.now → ⊥) tries.now)) }
{
    let mut streams = Vec::with_capacity(alloc, tries.len())?;
    for trie in tries {
        match stream_of(alloc, trie) {
            Ok(stream) => streams.push(stream)?,
            Err(error) => return Err(error),
        }
    }
    Ok(streams)
}

/// Adds the current key of a merge, if it is selected.
fn add_selected(
    selection: Selection,
    rule: Rule,
    rows: &MergeAll<SortedTrie<'_, '_>>,
    flat: &mut Flat,
) -> Result<(), SetError>
    ensures added { OnOk result (AreAdded
        (if_some rows.now.current.0 (selected selection rule rows.now.current.1) [])
        flat.old.keys.items flat.new.keys.items flat.old.ends.items flat.new.ends.items
        flat.old.values.items flat.new.values.items) }
    ensures allowed { OnOk result
        ((e : RuleError) → IsRuleError selection rule rows.now.current.1 e → ⊥) }
    ensures err { IfErr result (λ e. (e ≡ error.OutOfMemory) ⊎ ((cause : RuleError)
        × (e ≡ error.Rule cause) × IsRuleError selection rule rows.now.current.1 cause)) }
{
    match rows.selected(selection, rule) {
        Ok(Some(value)) => {
            flat.push(rows.key(), value)?;
            Ok(())
        }
        Ok(None) => Ok(()),
        Err(cause) => Err(SetError::Rule(cause)),
    }
}

/// Returns what is selected of the rows of a merge.
fn selected_of(
    alloc: Global,
    selection: Selection,
    rule: Rule,
    mut rows: MergeAll<SortedTrie<'_, '_>>,
) -> Result<Flat, SetError>
    ensures ok { IfOk result (λ f. IsFlat (selected_rows selection rule rows.entry.left.items)
        f.keys.items f.ends.items f.values.items) }
    ensures allowed { IfOk result (λ _.
        (e : RuleError) → SomeRowErrs selection rule rows.entry.left.items e → ⊥) }
    ensures err { IfErr result (λ e. (e ≡ error.OutOfMemory) ⊎ ((cause : RuleError)
        × (e ≡ error.Rule cause) × SomeRowErrs selection rule rows.entry.left.items cause)) }
{
    let mut flat = Flat::new(alloc);
    while rows.advance()? {
        match add_selected(selection, rule, &rows, &mut flat) {
            Ok(()) => {}
            Err(error) => return Err(error),
        }
    }
    Ok(flat)
}

/// Returns what is selected of tries.
fn combined_of(
    alloc: Global,
    selection: Selection,
    rule: Rule,
    sources: &[Source<'_>],
) -> Result<Flat, SetError>
    ensures ok { IfOk result (λ f. (pairs : Pairs) × AreSelected selection rule sources.now pairs
        × IsFlat pairs f.keys.items f.ends.items f.values.items) }
    ensures err { IfErr result (IsSetError selection rule sources.now) }
{
    selections_are_of_maps();
    row_errors_are_of_keys();
    let tries = match tries_of(alloc, sources) {
        Ok(tries) => tries,
        Err(error) => return Err(error),
    };
    let streams = match streams_of(alloc, tries.as_slice()) {
        Ok(streams) => streams,
        Err(error) => return Err(error),
    };
    let rows = MergeAll::new(alloc, streams)?;
    match selected_of(alloc, selection, rule, rows) {
        Ok(flat) => Ok(flat),
        Err(error) => Err(error),
    }
}

/// Returns the bytes of the trie of pairs whose keys ascend.
fn bytes_of_flat(
    alloc: Global,
    kind: TrieKind,
    listed: &Flat,
) -> Result<Vec<u8>, ZeroTrieBuildError>
    ensures { (pairs : Pairs)
        → IsFlat pairs listed.now.keys.items listed.now.ends.items listed.now.values.items
        → IsBuild ascending (kind_that_is kind) (λ bytes. bytes.items) pairs result }
{
    let items = items_between(
        alloc,
        listed.keys.as_slice(),
        listed.ends.as_slice(),
        listed.values.as_slice(),
    )?;
    bytes_of_sorted(alloc, kind, items.as_slice())
}

/// Builds the trie of a union, an intersection or a difference of tries of any kinds, in one pass
/// over their pairs in the order of bytes. Writes it to the beginning of `out` if there is room,
/// and sets `len` to its length.
///
/// `selection` is the number of which keys are taken, and `rule` of which value a key gets that
/// more than one trie has. Keys are compared as they are stored. An error is a key that more than
/// one trie has if the rule refuses that, or has with different values if it wants equal ones, a
/// sum of 2^64 or more, bytes that are not valid, or one of a build. Then nothing is written.
#[unsafe(no_mangle)]
pub extern "C" fn zerotrie_combine(
    alloc: Global,
    selection: u32,
    rule: u32,
    tries: &[Source<'_>],
    kind: u32,
    out: &mut [u8],
    len: &mut usize,
) -> u32
    ensures known { IfSome (kind_of kind) (λ k. IfSome (plan_with selection rule) (λ p.
        IsCombineTold p.0 p.1 k tries.now result len.old len.new out.old out.new)) }
    ensures unplanned { IfSome (kind_of kind) (λ _. IfNone (plan_with selection rule)
        ((result ≡ unknown_selection) × (len.new ≡ len.old) × (out.new ≡ out.old))) }
    ensures unknown { IfNone (kind_of kind) ((result ≡ unknown_kind) × (len.new ≡ len.old)
        × (out.new ≡ out.old)) }
{
    let Some(kind) = kind_of(kind) else {
        return UNKNOWN_KIND;
    };
    let Some((selection, rule)) = plan_with(selection, rule) else {
        return UNKNOWN_SELECTION;
    };
    match combined_of(alloc, selection, rule, tries) {
        Ok(selected) => hand_out_trie(bytes_of_flat(alloc, kind, &selected), out, len),
        Err(error) => set_status_of(error),
    }
}
