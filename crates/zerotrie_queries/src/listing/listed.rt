//! Which pairs are listed: the choice, made once, and returned as a listing.

ghost use Rattle.std.specs.Prelude.{◌≡◌, ◌==◌, ◌&&◌, ℕ, List, is_some, length, not, true, None, IfOk};
ghost use Rattle.std.proofs.Common.{suc};
ghost use Rattle.std.specs.FinMap.{entries};
ghost use Rattle.std.specs.Range.Bound.{bound_map};
ghost use Rattle.zerotrie_core.specs.Kinds.{kind_of};
ghost use Rattle.zerotrie_core.specs.Maps.{Map, Pairs, begins_with, map_of};
ghost use Rattle.zerotrie_core.specs.Texts.{Means};
ghost use Rattle.zerotrie_core.specs.declared.TrieKind.{TrieKind};
ghost use Rattle.zerotrie_index.specs.Tries.{folded_key};
ghost use Rattle.zerotrie_search.specs.Automata.{any_accepts, any_edits_to, any_most, free_if};
ghost use Rattle.zerotrie_search.specs.Nearest.{nearest};
ghost use Rattle.zerotrie_queries.specs.Chosen.{AreBelow, AreWordsOf, IsFolded, at_edits, begins_of, chosen, closest, edits_matched, edits_of, is_chosen, is_in, is_kept, is_matched, measured};
ghost use Rattle.zerotrie_queries.specs.Found.{found_from};
ghost use Rattle.zerotrie_queries.specs.Listed.{Gives, first_picked};
ghost use Rattle.zerotrie_queries.specs.Near.{edits_from};
ghost use Rattle.zerotrie_queries.specs.Kept.{keeps, may_keep};
ghost use Rattle.zerotrie_queries.specs.Pairs.{AreChosenValid, AreFirstValid, IsValid, left_of, left_of_chosen, left_of_first};
ghost use Rattle.zerotrie_queries.specs.Ranked.{topped};
ghost use Rattle.zerotrie_queries.specs.Sorted.{AreWithin, found_between, is_prefix_alone, is_unbounded, picked};
ghost use Rattle.zerotrie_queries.specs.declared.question.Order.TheVariants.{ByBytes, Closest, Nearest, Stored};

use crate::filtered::next_accepted;
use crate::first_pairs::FirstPairs;
use crate::folding::FoldedWords;
use crate::found::Found;
use crate::kept::{Conditions, conditions};
use crate::listing::greatest::HeldPairs;
use crate::near::Near;
use crate::question::{Choice, ListQuery, Order};
use std::alloc::{AllocError, Global};
use std::ops::Bound;
use zerotrie_core::{Trie, TrieKind, TrieRef, ZeroTrieStream};
use zerotrie_search::{
    AnyAutomaton, Automaton, BeginsWith, ByKind, Fuzzy, Glob, GlobChars, KeyRange, Levenshtein,
    LevenshteinChars, Osa, OsaChars, Search, StartsWith, Subsequence, TrieListing, ZeroTrieNearest,
    ZeroTrieSearch,
};

/// The pairs that a word finds, in the order of bytes.
type WordPairs<'t, 'q, W> = ZeroTrieSearch<'t, 'q, ByKind<Found<W>>>;

/// The pairs that edits of a word find, the nearest first.
type NearPairs<'t, W> = ZeroTrieNearest<'t, ByKind<Near<W>>>;

/// The pairs with a prefix in the order of the trie, those of which the conditions of a choice hold, those
/// that a word finds, or some that are held.
#[derive(Drop)]
pub(crate) enum ListedPairs<'t, 'q> {
    Plain(ZeroTrieStream<'t>),
    Kept(ZeroTrieSearch<'t, 'q, Conditions<'q>>),
    Prefix(WordPairs<'t, 'q, StartsWith<'q>>),
    Range(WordPairs<'t, 'q, KeyRange<'q>>),
    Glob(WordPairs<'t, 'q, Glob<'q>>),
    GlobChars(WordPairs<'t, 'q, GlobChars<'q>>),
    Subsequence(WordPairs<'t, 'q, Subsequence<'q>>),
    Fuzzy(WordPairs<'t, 'q, Levenshtein>),
    FuzzyChars(WordPairs<'t, 'q, LevenshteinChars>),
    Swaps(WordPairs<'t, 'q, Osa>),
    SwapsChars(WordPairs<'t, 'q, OsaChars>),
    NearFuzzy(NearPairs<'t, Levenshtein>),
    NearFuzzyChars(NearPairs<'t, LevenshteinChars>),
    NearSwaps(NearPairs<'t, Osa>),
    NearSwapsChars(NearPairs<'t, OsaChars>),
    Held(HeldPairs),
}

/// Evaluates an expression with the listing that there is, under a name.
macro_rules! by_pairs {
    ($any:expr, $pairs:ident => $result:expr) => {
        match $any {
            ListedPairs::Plain($pairs) => $result,
            ListedPairs::Kept($pairs) => $result,
            ListedPairs::Prefix($pairs) => $result,
            ListedPairs::Range($pairs) => $result,
            ListedPairs::Glob($pairs) => $result,
            ListedPairs::GlobChars($pairs) => $result,
            ListedPairs::Subsequence($pairs) => $result,
            ListedPairs::Fuzzy($pairs) => $result,
            ListedPairs::FuzzyChars($pairs) => $result,
            ListedPairs::Swaps($pairs) => $result,
            ListedPairs::SwapsChars($pairs) => $result,
            ListedPairs::NearFuzzy($pairs) => $result,
            ListedPairs::NearFuzzyChars($pairs) => $result,
            ListedPairs::NearSwaps($pairs) => $result,
            ListedPairs::NearSwapsChars($pairs) => $result,
            ListedPairs::Held($pairs) => $result,
        }
    };
}

impl<'t, 'q> TrieListing for ListedPairs<'t, 'q> {
    ghost use Rattle.zerotrie_queries.specs.Pairs.{IsValid, most_of, now_of, left_of};

    ghost IsValid = { λ s. IsValid s };

    ghost left = { λ s. left_of s };

    ghost current = { λ s. now_of s };

    ghost most = { λ s. most_of s };

    fn advance(&mut self) -> Result<bool, AllocError> {
        by_pairs!(self, pairs => TrieListing::advance(pairs))
    }

    fn key(&self) -> &[u8] {
        by_pairs!(self, pairs => pairs.key())
    }

    fn value(&self) -> usize {
        by_pairs!(self, pairs => pairs.value())
    }
}

/// The pairs that are chosen: of those that a word finds, those of which the other conditions hold, or all
/// without any. It reads the others, too.
#[derive(Drop)]
pub(crate) struct ChosenPairs<'t, 'q> {
    pub(crate) pairs: ListedPairs<'t, 'q>,
    pub(crate) condition: Option<Conditions<'q>>,
}

impl<'t, 'q> TrieListing for ChosenPairs<'t, 'q> {
    ghost use Rattle.zerotrie_queries.specs.Pairs.{AreChosenValid, left_of_chosen, most_of, now_of};

    ghost IsValid = { λ s. AreChosenValid s };

    ghost left = { λ s. left_of_chosen s };

    ghost current = { λ s. now_of s.pairs };

    ghost most = { λ s. most_of s.pairs };

    fn advance(&mut self) -> Result<bool, AllocError> {
        next_accepted(&mut self.pairs, &self.condition)
    }

    fn key(&self) -> &[u8] {
        self.pairs.key()
    }

    fn value(&self) -> usize {
        self.pairs.value()
    }
}

/// Lists the pairs between two bounds that the word of a choice finds. `word` finds what it does.
fn by_word<'t, 'q, W: Automaton + Drop>(
    alloc: Global,
    trie: &'t TrieRef<'_>,
    choice: Choice<'q>,
    part: KeyRange<'q>,
    word: W,
) -> Result<WordPairs<'t, 'q, W>, AllocError>
    requires { (key : List ℕ)
        → found_from (begins_of choice.sought) (W.accepts word) (folded_key (kind_of trie.now.kind) key)
        ≡ is_matched trie.now.kind choice.sought key }
    ensures { IfOk result (Gives ⟦<WordPairs<'t, 'q, W> as TrieListing>⟧.IsValid
        ⟦<WordPairs<'t, 'q, W> as TrieListing>⟧.left
        (found_between part.entry (is_matched trie.now.kind choice.entry.sought))
        trie.now.kind trie.now.bytes.now) }
{
    let found = Found {
        word: BeginsWith(word),
        begins: choice.begins(),
    };
    trie.search_range(alloc, part.from, part.to, ByKind(trie.kind, found))
}

/// Returns the automaton of the word of a choice, as a kind compares keys. Without a word it accepts all
/// keys, and with a malformed one none.
#[tactic(auto, using(crate::proofs::FoldLemmas::found_folded, crate::proofs::FoldLemmas::none_found))]
fn automaton_of<'q>(kind: TrieKind, choice: Choice<'q>) -> AnyAutomaton<'q>
    requires { IsFolded kind choice }
    ensures { (key : List ℕ)
        → found_from (begins_of choice.entry.sought) (any_accepts result) (folded_key (kind_of kind) key)
        ≡ is_matched kind choice.entry.sought key }
{
    let Some(sought) = choice.sought else {
        return AnyAutomaton::Prefix(StartsWith(b""));
    };
    match sought.automaton(kind) {
        Some(any) => any,
        None => AnyAutomaton::Range(KeyRange {
            from: Bound::Excluded(b""),
            to: Bound::Excluded(b""),
        }),
    }
}

/// Lists the pairs between two bounds that the word of a choice finds.
fn found<'t, 'q>(
    alloc: Global,
    trie: &'t TrieRef<'_>,
    choice: Choice<'q>,
    part: KeyRange<'q>,
) -> Result<ListedPairs<'t, 'q>, AllocError>
    requires { IsFolded trie.now.kind choice }
    ensures { IfOk result (Gives IsValid left_of
        (found_between part.entry (is_matched trie.now.kind choice.entry.sought))
        trie.now.kind trie.now.bytes.now) }
{
    match automaton_of(trie.kind, choice) {
        AnyAutomaton::Prefix(word) => {
            Ok(ListedPairs::Prefix(by_word(alloc, trie, choice, part, word)?))
        }
        AnyAutomaton::Range(word) => {
            Ok(ListedPairs::Range(by_word(alloc, trie, choice, part, word)?))
        }
        AnyAutomaton::Glob(word) => {
            Ok(ListedPairs::Glob(by_word(alloc, trie, choice, part, word)?))
        }
        AnyAutomaton::GlobChars(word) => {
            Ok(ListedPairs::GlobChars(by_word(alloc, trie, choice, part, word)?))
        }
        AnyAutomaton::Subsequence(word) => {
            Ok(ListedPairs::Subsequence(by_word(alloc, trie, choice, part, word)?))
        }
        AnyAutomaton::Fuzzy(word) => {
            Ok(ListedPairs::Fuzzy(by_word(alloc, trie, choice, part, word)?))
        }
        AnyAutomaton::FuzzyChars(word) => {
            Ok(ListedPairs::FuzzyChars(by_word(alloc, trie, choice, part, word)?))
        }
        AnyAutomaton::Swaps(word) => {
            Ok(ListedPairs::Swaps(by_word(alloc, trie, choice, part, word)?))
        }
        AnyAutomaton::SwapsChars(word) => {
            Ok(ListedPairs::SwapsChars(by_word(alloc, trie, choice, part, word)?))
        }
    }
}

/// Returns whether a range has no bounds.
fn is_unbounded(range: KeyRange<'_>) -> bool
    ensures unbounded { result ≡ is_unbounded range.entry }
    ensures all { result ≡ true → (kind : TrieKind) → (key : List ℕ) → is_in kind range.entry key ≡ true }
{
    match (range.from, range.to) {
        (Bound::Unbounded, Bound::Unbounded) => true,
        (Bound::Unbounded, Bound::Included(_) | Bound::Excluded(_))
        | (Bound::Included(_) | Bound::Excluded(_), _) => false,
    }
}

/// Returns whether a choice has no condition but a prefix and that of its word.
fn is_by_prefix(choice: Choice<'_>) -> bool
    ensures prefix { result ≡ not (is_some choice.entry.without) && is_unbounded choice.entry.range }
    ensures kept { result ≡ true → (kind : TrieKind) → (key : List ℕ)
        → is_kept kind choice.entry key ≡ begins_with (kind_of kind) choice.entry.prefix.now key }
{
    choice.without.is_none() && is_unbounded(choice.range)
}

/// Returns whether a choice has no condition but a prefix.
fn is_prefix_alone(choice: Choice<'_>) -> bool
    ensures alone { result ≡ is_prefix_alone choice.entry }
    ensures chosen { result ≡ true → (kind : TrieKind) → (key : List ℕ)
        → is_chosen kind choice.entry key ≡ begins_with (kind_of kind) choice.entry.prefix.now key }
{
    choice.sought.is_none() && is_by_prefix(choice)
}

/// Returns whether a choice has no condition but that of its word.
fn has_no_conditions(choice: Choice<'_>) -> bool
    ensures { result ≡ true → (kind : TrieKind) → (key : List ℕ)
        → is_kept kind choice.entry key ≡ true }
{
    choice.prefix.is_empty() && is_by_prefix(choice)
}

/// Returns the automaton of the keys of which the conditions of a choice hold but that of its word, or
/// `None` if they hold of all.
fn condition_of<'q>(kind: TrieKind, choice: Choice<'q>) -> Option<Conditions<'q>>
    requires { IsFolded kind choice }
    ensures { (key : List ℕ) → may_keep keeps result key ≡ is_kept kind choice.entry key }
{
    if has_no_conditions(choice) {
        return None;
    }
    Some(conditions(kind, choice))
}

/// Returns two bounds between which all keys are that are chosen. `above` is above all keys that begin
/// with the prefix.
#[tactic(auto, using(crate::proofs::SortedLemmas::range_within, crate::proofs::SortedLemmas::all_within, crate::proofs::SortedLemmas::prefix_within))]
fn bounds<'q>(kind: TrieKind, choice: Choice<'q>, above: Bound<&'q [u8]>) -> KeyRange<'q>
    requires folded { IsFolded kind choice }
    requires above { AreBelow choice.prefix.now (bound_map (λ b. b.now) above) }
    ensures { AreWithin kind choice.entry (bound_map (λ b. b.now) result.from)
        (bound_map (λ b. b.now) result.to) }
{
    match (kind, is_unbounded(choice.range)) {
        (TrieKind::Ignore, _) => KeyRange {
            from: Bound::Unbounded,
            to: Bound::Unbounded,
        },
        (TrieKind::Simple | TrieKind::Hash | TrieKind::Ext, true) => KeyRange {
            from: Bound::Included(choice.prefix),
            to: above,
        },
        (TrieKind::Simple | TrieKind::Hash | TrieKind::Ext, false) => choice.range,
    }
}

/// Lists the pairs between two bounds whose keys are chosen. The choice has no word.
fn unsought<'t, 'q>(
    alloc: Global,
    trie: &'t TrieRef<'_>,
    choice: Choice<'q>,
    part: KeyRange<'q>,
) -> Result<ListedPairs<'t, 'q>, AllocError>
    requires folded { IsFolded trie.now.kind choice }
    requires within { AreWithin trie.now.kind choice (bound_map (λ b. b.now) part.from)
        (bound_map (λ b. b.now) part.to) }
    requires none { choice.sought ≡ None }
    ensures { IfOk result (Gives IsValid left_of (picked ByBytes trie.now.kind choice.entry)
        trie.now.kind trie.now.bytes.now) }
{
    let kept = conditions(trie.kind, choice);
    let pairs = trie.search_range(alloc, part.from, part.to, kept)?;
    Ok(ListedPairs::Kept(pairs))
}

/// Lists the pairs whose keys are chosen, in the order of their bytes.
fn sorted<'t, 'q>(
    alloc: Global,
    trie: &'t TrieRef<'_>,
    choice: Choice<'q>,
    above: Bound<&'q [u8]>,
) -> Result<ChosenPairs<'t, 'q>, AllocError>
    requires folded { IsFolded trie.now.kind choice }
    requires above { AreBelow choice.prefix.now (bound_map (λ b. b.now) above) }
    ensures { IfOk result (Gives AreChosenValid left_of_chosen
        (picked ByBytes trie.now.kind choice.entry) trie.now.kind trie.now.bytes.now) }
{
    let part = bounds(trie.kind, choice, above);
    if choice.sought.is_none() {
        let pairs = unsought(alloc, trie, choice, part)?;
        return Ok(ChosenPairs {
            pairs,
            condition: None,
        });
    }
    let pairs = found(alloc, trie, choice, part)?;
    let condition = condition_of(trie.kind, choice);
    Ok(ChosenPairs { pairs, condition })
}

/// Lists the pairs whose keys are chosen: in the order of the trie those with a prefix, and others in the
/// order of their bytes.
fn stored<'t, 'q>(
    alloc: Global,
    trie: &'t TrieRef<'_>,
    choice: Choice<'q>,
    above: Bound<&'q [u8]>,
) -> Result<ChosenPairs<'t, 'q>, AllocError>
    requires folded { IsFolded trie.now.kind choice }
    requires above { AreBelow choice.prefix.now (bound_map (λ b. b.now) above) }
    ensures { IfOk result (Gives AreChosenValid left_of_chosen
        (picked Stored trie.now.kind choice.entry) trie.now.kind trie.now.bytes.now) }
{
    if !is_prefix_alone(choice) {
        return sorted(alloc, trie, choice, above);
    }
    let pairs = trie.stream_prefix(alloc, choice.prefix)?;
    Ok(ChosenPairs {
        pairs: ListedPairs::Plain(pairs),
        condition: None,
    })
}

/// Returns whether a listing has a pair.
fn has_pair<P: TrieListing + Drop>(mut pairs: P) -> Result<bool, AllocError>
    ensures { IfOk result (λ found. P.IsValid pairs
        → (length (P.left pairs).pairs == 0) ≡ not found) }
{
    pairs.advance()
}

/// Returns whether a trie has a pair whose key is chosen.
fn has_chosen<'q>(
    alloc: Global,
    trie: &TrieRef<'_>,
    choice: Choice<'q>,
    above: Bound<&'q [u8]>,
) -> Result<bool, AllocError>
    requires folded { IsFolded trie.now.kind choice }
    requires above { AreBelow choice.prefix.now (bound_map (λ b. b.now) above) }
    ensures { IfOk result (λ found. (m : Map) → Means (kind_of trie.now.kind) trie.now.bytes.now m
        → (length (chosen trie.now.kind choice.entry (entries m)) == 0) ≡ not found) }
{
    let pairs = sorted(alloc, trie, choice, above)?;
    has_pair(pairs)
}

/// Returns the fewest edits of the word of a choice with which a pair is chosen, or as many as it allows if
/// none is.
fn fewest_edits<'q>(
    alloc: Global,
    trie: &TrieRef<'_>,
    choice: Choice<'q>,
    above: Bound<&'q [u8]>,
) -> Result<u32, AllocError>
    requires folded { IsFolded trie.now.kind choice }
    requires above { AreBelow choice.prefix.now (bound_map (λ b. b.now) above) }
    ensures { IfOk result (λ e. (m : Map) → Means (kind_of trie.now.kind) trie.now.bytes.now m
        → closest trie.now.kind choice.entry (entries m) 0 (edits_of choice.entry)
        ≡ chosen trie.now.kind (at_edits e choice.entry) (entries m)) }
{
    for edits in 0..choice.edits() {
        if has_chosen(alloc, trie, choice.with_edits(edits), above)? {
            return Ok(edits);
        }
    }
    Ok(choice.edits())
}

/// Lists the pairs that the fewest edits of the word find, in the order of their bytes.
fn closest<'t, 'q>(
    alloc: Global,
    trie: &'t TrieRef<'_>,
    choice: Choice<'q>,
    above: Bound<&'q [u8]>,
) -> Result<ChosenPairs<'t, 'q>, AllocError>
    requires folded { IsFolded trie.now.kind choice }
    requires above { AreBelow choice.prefix.now (bound_map (λ b. b.now) above) }
    ensures { IfOk result (Gives AreChosenValid left_of_chosen
        (picked Closest trie.now.kind choice.entry) trie.now.kind trie.now.bytes.now) }
{
    let edits = fewest_edits(alloc, trie, choice, above)?;
    sorted(alloc, trie, choice.with_edits(edits), above)
}

/// Lists the pairs that edits of a word find, or if `begins` is set, those that begin so, the nearest first.
fn near<'t, W: Fuzzy>(
    alloc: Global,
    trie: &'t TrieRef<'_>,
    word: W,
    begins: bool,
) -> NearPairs<'t, W>
    ensures { Gives ⟦<NearPairs<'t, W> as TrieListing>⟧.IsValid
        ⟦<NearPairs<'t, W> as TrieListing>⟧.left
        (λ pairs. nearest (λ key. edits_from begins (W.measure word)
        (folded_key (kind_of trie.now.kind) key))
        (entries (map_of pairs)) 0 (suc (W.most word))) trie.now.kind trie.now.bytes.now result }
{
    trie.nearest(alloc, ByKind(trie.kind, Near { word, begins }))
}

/// Lists the pairs whose keys are chosen, all of them by no edit, in the order of their bytes.
fn exact<'t, 'q>(
    alloc: Global,
    trie: &'t TrieRef<'_>,
    choice: Choice<'q>,
    above: Bound<&'q [u8]>,
) -> Result<ChosenPairs<'t, 'q>, AllocError>
    requires folded { IsFolded trie.now.kind choice }
    requires above { AreBelow choice.prefix.now (bound_map (λ b. b.now) above) }
    requires exact { (key : List ℕ)
        → measured trie.now.kind choice key ≡ free_if (is_chosen trie.now.kind choice key) }
    ensures { IfOk result (Gives AreChosenValid left_of_chosen
        (picked Nearest trie.now.kind choice.entry) trie.now.kind trie.now.bytes.now) }
{
    sorted(alloc, trie, choice, above)
}

/// Lists the pairs whose keys are chosen, the nearest first, by the automaton of a word.
fn by_edits<'t, 'q>(
    alloc: Global,
    trie: &'t TrieRef<'_>,
    choice: Choice<'q>,
    above: Bound<&'q [u8]>,
    any: AnyAutomaton<'q>,
) -> Result<ChosenPairs<'t, 'q>, AllocError>
    requires folded { IsFolded trie.now.kind choice }
    requires above { AreBelow choice.prefix.now (bound_map (λ b. b.now) above) }
    requires most { any_most any ≡ edits_of choice }
    requires edits { (key : List ℕ)
        → edits_from (begins_of choice.sought) (any_edits_to any) (folded_key (kind_of trie.now.kind) key)
        ≡ edits_matched trie.now.kind choice.sought key }
    requires finds { (key : List ℕ)
        → found_from (begins_of choice.sought) (any_accepts any) (folded_key (kind_of trie.now.kind) key)
        ≡ is_matched trie.now.kind choice.sought key }
    ensures { IfOk result (Gives AreChosenValid left_of_chosen
        (picked Nearest trie.now.kind choice.entry) trie.now.kind trie.now.bytes.now) }
{
    let condition = condition_of(trie.kind, choice);
    let begins = choice.begins();
    match any {
        AnyAutomaton::Fuzzy(word) => {
            let pairs = ListedPairs::NearFuzzy(near(alloc, trie, word, begins));
            Ok(ChosenPairs { pairs, condition })
        }
        AnyAutomaton::FuzzyChars(word) => {
            let pairs = ListedPairs::NearFuzzyChars(near(alloc, trie, word, begins));
            Ok(ChosenPairs { pairs, condition })
        }
        AnyAutomaton::Swaps(word) => {
            let pairs = ListedPairs::NearSwaps(near(alloc, trie, word, begins));
            Ok(ChosenPairs { pairs, condition })
        }
        AnyAutomaton::SwapsChars(word) => {
            let pairs = ListedPairs::NearSwapsChars(near(alloc, trie, word, begins));
            Ok(ChosenPairs { pairs, condition })
        }
        AnyAutomaton::Prefix(_)
        | AnyAutomaton::Range(_)
        | AnyAutomaton::Glob(_)
        | AnyAutomaton::GlobChars(_)
        | AnyAutomaton::Subsequence(_) => exact(alloc, trie, choice, above),
    }
}

/// Lists the pairs whose keys are chosen, the nearest first.
#[tactic(auto, using(crate::proofs::EditsLemmas::exact_none, crate::proofs::EditsLemmas::exact_no_word, crate::proofs::EditsLemmas::edits_found, crate::proofs::EditsLemmas::most_found, crate::proofs::FoldLemmas::found_folded))]
fn nearest<'t, 'q>(
    alloc: Global,
    trie: &'t TrieRef<'_>,
    choice: Choice<'q>,
    above: Bound<&'q [u8]>,
) -> Result<ChosenPairs<'t, 'q>, AllocError>
    requires folded { IsFolded trie.now.kind choice }
    requires above { AreBelow choice.prefix.now (bound_map (λ b. b.now) above) }
    ensures { IfOk result (Gives AreChosenValid left_of_chosen
        (picked Nearest trie.now.kind choice.entry) trie.now.kind trie.now.bytes.now) }
{
    let Some(sought) = choice.sought else {
        return exact(alloc, trie, choice, above);
    };
    match sought.automaton(trie.kind) {
        Some(any) => by_edits(alloc, trie, choice, above, any),
        None => exact(alloc, trie, choice, above),
    }
}

/// Lists the pairs whose keys are chosen, in an order. The words of the choice are as the kind compares
/// them.
fn ordered<'t, 'q>(
    alloc: Global,
    trie: &'t TrieRef<'_>,
    choice: Choice<'q>,
    above: Bound<&'q [u8]>,
    order: Order,
) -> Result<ChosenPairs<'t, 'q>, AllocError>
    requires folded { IsFolded trie.now.kind choice }
    requires above { AreBelow choice.prefix.now (bound_map (λ b. b.now) above) }
    ensures { IfOk result (Gives AreChosenValid left_of_chosen
        (picked order trie.now.kind choice.entry) trie.now.kind trie.now.bytes.now) }
{
    match order {
        Order::Stored => stored(alloc, trie, choice, above),
        Order::ByBytes => sorted(alloc, trie, choice, above),
        Order::Closest => closest(alloc, trie, choice, above),
        Order::Nearest => nearest(alloc, trie, choice, above),
    }
}

/// Lists pairs that are chosen or, if a number is given, those of them that have the greatest values.
fn topped<'t, 'q>(
    alloc: Global,
    pairs: ChosenPairs<'t, 'q>,
    top: Option<usize>,
) -> Result<ChosenPairs<'t, 'q>, AllocError>
    ensures { IfOk result (λ s. (pick : Pairs → Pairs) (kind : TrieKind) (bytes : List ℕ)
        → Gives AreChosenValid left_of_chosen pick kind bytes pairs.entry
        → Gives AreChosenValid left_of_chosen (λ all. topped top (pick all)) kind bytes s) }
{
    let Some(most) = top else {
        return Ok(pairs);
    };
    let held = HeldPairs::greatest(alloc, pairs, most)?;
    Ok(ChosenPairs {
        pairs: ListedPairs::Held(held),
        condition: None,
    })
}

/// Lists the pairs of a selection: the first whose keys are chosen, in its order, or those of the greatest
/// values. `words` are those of its choice.
///
/// It validates no bytes. In the order of the trie it reads the part with the prefix. In the order of bytes
/// it reads the part between the bounds of the range or, if there are none and the kind does not ignore case,
/// the part with the prefix, and skips the keys that begin as none of these keys does.
pub(crate) fn listed<'t, 'q>(
    alloc: Global,
    trie: &'t TrieRef<'_>,
    words: &'q FoldedWords,
    selection: ListQuery<'q>,
) -> Result<FirstPairs<ChosenPairs<'t, 'q>>, AllocError>
    requires { AreWordsOf trie.now.kind selection.choice words.now }
    ensures { IfOk result (Gives AreFirstValid left_of_first
        (first_picked selection.entry trie.now.kind) trie.now.kind trie.now.bytes.now) }
{
    let folded = words.in_place_of(selection.choice);
    let pairs = ordered(alloc, trie, folded, words.above(), selection.order)?;
    Ok(FirstPairs {
        source: topped(alloc, pairs, selection.top)?,
        limit: selection.limit,
        ended: false,
    })
}
