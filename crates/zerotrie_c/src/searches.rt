//! Searches, a part at a time.

ghost use Rattle.std.specs.Prelude.{◌≡◌, ◌≢◌, ◌≤◌, ℕ, length, IfOk, IfErr, IfSome, IfNone};
ghost use Rattle.std.specs.Option.{option_map};
ghost use Rattle.std.specs.Range.Bound.{bound_map};
ghost use Rattle.zerotrie_core.specs.Kinds.{kind_of as kind_that_is};
ghost use Rattle.zerotrie_core.specs.declared.TrieKind.TheVariants.{Ignore};
ghost use Rattle.std.specs.declared.ops.Bound.TheVariants.{Unbounded};
ghost use Rattle.zerotrie_core.specs.Maps.{Map, Pairs};
ghost use Rattle.zerotrie_core.specs.Texts.{Means};
ghost use Rattle.zerotrie_core.specs.WellFormed.{IsWellFormed};
ghost use Rattle.zerotrie_search.specs.Automata.{any_accepts, any_edits_to, any_most, edits_to, finds_in, ignores_case, most_by};
ghost use Rattle.zerotrie_search.specs.Searches.{accepted};
ghost use Rattle.zerotrie_search.specs.Sorted.{within};
ghost use Rattle.zerotrie_c.specs.Numbers.{kind_of};
ghost use Rattle.zerotrie_c.specs.Statuses.{unknown_kind, IsUnwritten};
ghost use Rattle.zerotrie_c.specs.Listed.{part, IsListedSome};
ghost use Rattle.zerotrie_c.specs.Searched.{asks, bound_after, bound_with, finds_given, search_by, IsSearchChecked, IsSearchFault, IsSearchedSome, IsWordFault, IsRightWord};

use crate::folding;
use crate::folding::FoldedTexts;
use crate::numbers::{
    DONE, MALFORMED_SEARCH, OUT_OF_MEMORY, SEARCH_TOO_LONG, TOO_MANY_EDITS, UNKNOWN_KIND,
    UNKNOWN_SEARCH, trie_of,
};
use crate::parts::{Page, fill};
use std::alloc::Global;
use std::ops::Bound;
use zerotrie_core::TrieKind;
use zerotrie_search::{
    AnyAutomaton, Automaton, BeginsWith, Both, ByKind, KeyRange, KindPrefix, Search as _, SearchBy,
    WordError, ZeroTrieSearch, ZeroTrieSorted, by_automaton,
};

/// What is searched, with C's layout. `by` is the number of how keys are found, and the bounds are
/// numbers too.
#[repr(C)]
#[derive(Clone, Copy)]
pub struct Search<'q> {
    pub by: u32,
    pub edits: u32,
    pub from_bound: u32,
    pub to_bound: u32,
    pub text: &'q [u8],
    pub to: &'q [u8],
    pub beginnings: bool,
}

/// Returns the bound with this number at a key, or `None` if no bound has it.
pub fn bound_with(number: u32, key: &[u8]) -> Option<Bound<&[u8]>>
    ensures { option_map (bound_map (λ b. b.now)) result ≡ bound_with number key.now }
{
    match number {
        0 => Some(Bound::Unbounded),
        1 => Some(Bound::Included(key)),
        2 => Some(Bound::Excluded(key)),
        _ => None,
    }
}

/// Returns how a word finds keys, by the number of the search, or `None` if no search of a word has it.
pub fn search_by(number: u32, edits: u32) -> Option<SearchBy>
    ensures { result ≡ search_by number edits }
{
    match number {
        1 => Some(SearchBy::Glob),
        2 => Some(SearchBy::Subsequence),
        3 => Some(SearchBy::Fuzzy(edits)),
        4 => Some(SearchBy::FuzzyChars(edits)),
        5 => Some(SearchBy::Swaps(edits)),
        6 => Some(SearchBy::SwapsChars(edits)),
        7 => Some(SearchBy::GlobChars),
        _ => None,
    }
}

/// Returns the automaton of a word for keys as a kind compares them, or the status of what is wrong with
/// the word.
pub fn word_of(kind: TrieKind, by: SearchBy, word: &[u8]) -> Result<AnyAutomaton<'_>, u32>
    ensures ok { IfOk result (λ any.
        any_accepts any ≡ finds_in (ignores_case (kind_that_is kind)) by word.now) }
    ensures edits { IfOk result (λ any.
        (any_edits_to any ≡ edits_to (ignores_case (kind_that_is kind)) by word.now)
        × (any_most any ≡ most_by by)) }
    ensures right { IfOk result (λ _. IsRightWord by word.now) }
    ensures fault { IfErr result (IsWordFault by word.now) }
{
    match AnyAutomaton::by_kind(kind, by, word) {
        Ok(any) => Ok(any),
        Err(WordError::Malformed) => Err(MALFORMED_SEARCH),
        Err(WordError::TooLong) => Err(SEARCH_TOO_LONG),
        Err(WordError::TooManyEdits) => Err(TOO_MANY_EDITS),
    }
}

/// Returns the automaton of a search for keys as a kind compares them, or the status of its fault.
fn sought_of<'q>(kind: TrieKind, search: &Search<'q>) -> Result<AnyAutomaton<'q>, u32>
    ensures ok { IfOk result (λ sought.
        any_accepts sought ≡ finds_given (ignores_case (kind_that_is kind)) search.now) }
    ensures faultless { IfOk result (λ _. (fault : ℕ) → IsSearchFault search.now fault → ⊥) }
    ensures fault { IfErr result (IsSearchFault search.now) }
{
    if let Some(by) = search_by(search.by, search.edits) {
        return word_of(kind, by, search.text);
    }
    if search.by != 0 {
        return Err(UNKNOWN_SEARCH);
    }
    let from = bound_with(search.from_bound, search.text).ok_or(UNKNOWN_SEARCH)?;
    let to = bound_with(search.to_bound, search.to).ok_or(UNKNOWN_SEARCH)?;
    Ok(AnyAutomaton::Range(KeyRange { from, to }))
}

/// Returns the automaton of a search with its texts as a kind compares them. Where case counts it is
/// that of the search with its texts as they are, which is not made again.
fn folded_of<'q>(
    kind: TrieKind,
    sought: AnyAutomaton<'q>,
    folded: &Search<'q>,
) -> Result<AnyAutomaton<'q>, u32>
    requires { kind ≢ Ignore
        → any_accepts sought ≡ finds_given (ignores_case (kind_that_is kind)) folded.now }
    ensures ok { IfOk result (λ sought.
        any_accepts sought ≡ finds_given (ignores_case (kind_that_is kind)) folded.now) }
    ensures fault { IfErr result (IsSearchFault folded.now) }
{
    if folding::ignores_case(kind) {
        sought_of(kind, folded)
    } else {
        Ok(sought)
    }
}

/// Returns the status of a search without a trie: `DONE` if it has a meaning, and else its fault,
/// which is what `zerotrie_search_some` returns for it.
#[unsafe(no_mangle)]
pub extern "C" fn zerotrie_search_check(search: &Search<'_>) -> u32
    ensures { IsSearchChecked search.now result }
{
    match sought_of(TrieKind::Simple, search) {
        Ok(_) => DONE,
        Err(status) => status,
    }
}

/// Returns the lower bound of what a listing has left: above the last key that it gave, if it goes on.
fn bound_after(goes_on: bool, last: &[u8]) -> Bound<&[u8]>
    ensures { bound_map (λ b. b.now) result ≡ bound_after goes_on last.now }
{
    if goes_on {
        Bound::Excluded(last)
    } else {
        Bound::Unbounded
    }
}

/// What is searched: the pairs that are left, of these the keys with a prefix, and whether keys need only
/// begin with one that is found.
#[derive(Drop)]
struct Asked<'t, 'p> {
    pairs: ZeroTrieSorted<'t, 'p>,
    prefix: KindPrefix<'p>,
    beginnings: bool,
}

/// Writes the next pairs whose keys an automaton accepts as their kind compares them.
fn fill_accepted<T: Automaton + Drop>(
    alloc: Global,
    asked: Asked<'_, '_>,
    automaton: T,
    next_len: usize,
    keys: &mut [u8],
    ends: &mut [usize],
    values: &mut [usize],
) -> Page
    ensures listed { IsWellFormed asked.entry.pairs.kind asked.entry.pairs.bytes
        → IsListedSome (accepted (asks asked.entry (T.accepts automaton)) asked.entry.pairs.left.pairs)
        result.status (part keys.old ends.old values.old 0 next_len)
        (part keys.new ends.new values.new result.count result.next_len) }
    ensures any { (pairs : Pairs) × (length pairs ≤ asked.entry.pairs.most)
        × IsListedSome pairs result.status (part keys.old ends.old values.old 0 next_len)
        (part keys.new ends.new values.new result.count result.next_len)
        × (accepted (asks asked.entry (T.accepts automaton)) pairs ≡ pairs) }
{
    let (pairs, prefix) = (asked.pairs, asked.prefix);
    if asked.beginnings {
        let begins = Both(BeginsWith(ByKind(prefix.kind, automaton)), prefix);
        let begun = ZeroTrieSearch::new(alloc, pairs, begins);
        return fill(Ok(begun), next_len, keys, ends, values);
    }
    if folding::ignores_case(prefix.kind) {
        let folds = Both(ByKind(prefix.kind, automaton), prefix);
        let folded = ZeroTrieSearch::new(alloc, pairs, folds);
        return fill(Ok(folded), next_len, keys, ends, values);
    }
    let search = ZeroTrieSearch::new(alloc, pairs, Both(automaton, prefix));
    fill(Ok(search), next_len, keys, ends, values)
}

/// Writes the next pairs that are sought, with keys as their kind compares them.
fn fill_sought(
    alloc: Global,
    asked: Asked<'_, '_>,
    sought: AnyAutomaton<'_>,
    next_len: usize,
    keys: &mut [u8],
    ends: &mut [usize],
    values: &mut [usize],
) -> Page
    ensures listed { IsWellFormed asked.entry.pairs.kind asked.entry.pairs.bytes
        → IsListedSome (accepted (asks asked.entry (any_accepts sought.entry)) asked.entry.pairs.left.pairs)
        result.status (part keys.old ends.old values.old 0 next_len)
        (part keys.new ends.new values.new result.count result.next_len) }
    ensures any { (pairs : Pairs) × (length pairs ≤ asked.entry.pairs.most)
        × IsListedSome pairs result.status (part keys.old ends.old values.old 0 next_len)
        (part keys.new ends.new values.new result.count result.next_len)
        × (accepted (asks asked.entry (any_accepts sought.entry)) pairs ≡ pairs) }
{
    by_automaton!(sought, automaton => fill_accepted(
        alloc, asked, automaton, next_len, keys, ends, values,
    ))
}

/// Writes the pairs that a search finds, of those whose keys begin with a prefix, in the order of bytes
/// in every kind, as many as the rooms have places for: a range, a pattern, bytes in their order, or a word
/// with few edits, and with `beginnings` also the keys that begin with one that it finds.
///
/// If `goes_on`, it continues above the key `last`. The rooms, `count`, `next_len` and the status are as in
/// `zerotrie_list_some`. In the kind that ignores case, keys, bounds and words are compared in lower case,
/// and the letters of a pattern are taken in both cases. A search that has no meaning is refused, and then
/// nothing is written.
///
/// On malformed bytes it does the same for some pairs that the search finds, at most as many as there are
/// bytes.
#[unsafe(no_mangle)]
pub extern "C" fn zerotrie_search_some(
    alloc: Global,
    kind: u32,
    bytes: &[u8],
    prefix: &[u8],
    search: &Search<'_>,
    goes_on: bool,
    last: &[u8],
    keys: &mut [u8],
    ends: &mut [usize],
    values: &mut [usize],
    count: &mut usize,
    next_len: &mut usize,
) -> u32
    ensures known { IfSome (kind_of kind) (λ k. (m : Map) → Means k bytes.now m
        → IsSearchedSome k search.now prefix.now (within (bound_after goes_on last.now) Unbounded m) result
        (part keys.old ends.old values.old count.old next_len.old)
        (part keys.new ends.new values.new count.new next_len.new)) }
    ensures any { IfSome (kind_of kind) (λ k. (pairs : Pairs) × (length pairs ≤ length bytes.now)
        × IsSearchedSome k search.now prefix.now pairs result
        (part keys.old ends.old values.old count.old next_len.old)
        (part keys.new ends.new values.new count.new next_len.new)) }
    ensures unknown { IfNone (kind_of kind) ((result ≡ unknown_kind)
        × IsUnwritten (part keys.old ends.old values.old count.old next_len.old)
        (part keys.new ends.new values.new count.new next_len.new)) }
{
    let Some(trie) = trie_of(kind, bytes) else {
        return UNKNOWN_KIND;
    };
    let sought = match sought_of(trie.kind, search) {
        Ok(sought) => sought,
        Err(status) => return status,
    };
    let Ok(texts) = FoldedTexts::new(alloc, trie.kind, search) else {
        let none = Page::new(OUT_OF_MEMORY, 0, *next_len);
        return none.unpack(count, next_len);
    };
    let sought = match folded_of(trie.kind, sought, &texts.in_place_of(search)) {
        Ok(sought) => sought,
        Err(status) => return status,
    };
    let Ok(pairs) = trie.stream_sorted(alloc, bound_after(goes_on, last), Bound::Unbounded) else {
        return Page::new(OUT_OF_MEMORY, 0, *next_len).unpack(count, next_len);
    };
    let asked = Asked {
        pairs,
        prefix: KindPrefix {
            kind: trie.kind,
            prefix,
        },
        beginnings: search.beginnings,
    };
    fill_sought(alloc, asked, sought, *next_len, keys, ends, values).unpack(count, next_len)
}
