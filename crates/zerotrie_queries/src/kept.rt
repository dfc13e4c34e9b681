//! The conditions of a choice but that of its word, as an automaton.

ghost use Rattle.std.specs.Prelude.{◌≡◌, ◌&&◌, ℕ, List, None, true, false, IfSome, IfNone};
ghost use Rattle.zerotrie_core.specs.Maps.{begins_with};
ghost use Rattle.zerotrie_core.specs.Kinds.{kind_of};
ghost use Rattle.zerotrie_search.specs.Automata.{any_accepts, finds_in, ignores_case};
ghost use Rattle.zerotrie_search.specs.declared.any.AnyAutomaton.TheVariants as any;
ghost use Rattle.zerotrie_search.specs.declared.any.SearchBy.TheVariants as by;
ghost use Rattle.zerotrie_queries.specs.Chosen.{is_in, is_kept, is_spared, is_word, IsFolded};
ghost use Rattle.zerotrie_queries.specs.Kept.{in_part, keeps, some_accepts, some_accepts_from, spares, MayBeAfter};

use crate::question::{Choice, Pattern};
use zerotrie_core::TrieKind;
use zerotrie_search::{
    AnyAutomaton, Automaton, Both, ByKind, Either, Glob, GlobChars, KeyRange, KindPrefix, Not,
    SearchBy,
};

/// Accepts what the automaton does, and without one no key.
#[derive(Clone, Copy, Debug)]
pub(crate) struct Maybe<S>(pub(crate) Option<S>);

impl<S: Automaton> Automaton for Maybe<S> {
    type State = Option<S::State>;

    ghost accepts = { λ s key. some_accepts S.accepts s.0 key };

    ghost accepts_from = { λ s state key. some_accepts_from S.accepts_from s.0 state key };

    ghost IsAfter = { λ s front state. MayBeAfter S.IsAfter s.0 front state };

    fn start(&self) -> Option<S::State> {
        match &self.0 {
            Some(automaton) => Some(automaton.start()),
            None => None,
        }
    }

    fn step(&self, state: Option<S::State>, byte: u8) -> Option<S::State> {
        let state = state?;
        match &self.0 {
            Some(automaton) => Some(automaton.step(state, byte)),
            None => None,
        }
    }

    fn is_match(&self, state: Option<S::State>) -> bool {
        let Some(state) = state else {
            return false;
        };
        match &self.0 {
            Some(automaton) => automaton.is_match(state),
            None => false,
        }
    }

    fn can_match(&self, state: Option<S::State>) -> bool {
        let Some(state) = state else {
            return false;
        };
        match &self.0 {
            Some(automaton) => automaton.can_match(state),
            None => false,
        }
    }
}

/// Accepts the keys that no pattern matches.
pub(crate) type NoPattern<'p> = Not<ByKind<Either<Maybe<Glob<'p>>, Maybe<GlobChars<'p>>>>>;

/// Accepts the keys with a prefix in a range.
pub(crate) type Part<'p> = Both<KindPrefix<'p>, ByKind<KeyRange<'p>>>;

/// Accepts the keys of which the conditions of a choice hold but that of its word.
pub(crate) type Conditions<'p> = Both<Part<'p>, NoPattern<'p>>;

/// Returns the automaton of a pattern of bytes, as a kind compares keys. `None` if it is none of its sort.
#[tactic(auto, using(crate::proofs::WordLemmas::word_faultless, crate::proofs::WordLemmas::word_error))]
fn glob_of(kind: TrieKind, text: &[u8]) -> Option<Glob<'_>>
    ensures some { IfSome result (λ g. (is_word by.Glob text.now ≡ true)
        × (any_accepts (any.Glob g) ≡ finds_in (ignores_case (kind_of kind)) by.Glob text.now)) }
    ensures none { IfNone result (is_word by.Glob text.now ≡ false) }
{
    let Ok(_fits) = AnyAutomaton::by_kind(kind, SearchBy::Glob, text) else {
        return None;
    };
    let glob = match kind {
        TrieKind::Ignore => Glob::in_any_case(text),
        TrieKind::Simple | TrieKind::Hash | TrieKind::Ext => Glob::new(text),
    };
    match glob {
        Ok(glob) => Some(glob),
        Err(_) => None,
    }
}

/// Returns the automaton of a pattern of characters, as a kind compares keys. `None` if it is none of its
/// sort.
#[tactic(auto, using(crate::proofs::WordLemmas::word_faultless, crate::proofs::WordLemmas::word_error))]
fn glob_chars_of(kind: TrieKind, text: &[u8]) -> Option<GlobChars<'_>>
    ensures some { IfSome result (λ g. (is_word by.GlobChars text.now ≡ true)
        × (any_accepts (any.GlobChars g)
        ≡ finds_in (ignores_case (kind_of kind)) by.GlobChars text.now)) }
    ensures none { IfNone result (is_word by.GlobChars text.now ≡ false) }
{
    let Ok(_fits) = AnyAutomaton::by_kind(kind, SearchBy::GlobChars, text) else {
        return None;
    };
    let Ok(text) = std::str::from_utf8(text) else {
        return None;
    };
    let glob = match kind {
        TrieKind::Ignore => GlobChars::in_any_case(text),
        TrieKind::Simple | TrieKind::Hash | TrieKind::Ext => GlobChars::new(text),
    };
    match glob {
        Ok(glob) => Some(glob),
        Err(_) => None,
    }
}

/// Returns the automaton of the keys that no pattern matches, as a kind compares keys.
fn no_pattern(kind: TrieKind, without: Option<Pattern<'_>>) -> NoPattern<'_>
    ensures { (key : List ℕ) → spares result key ≡ is_spared kind without.entry key }
{
    let Some(pattern) = without else {
        return Not(ByKind(kind, Either(Maybe(None), Maybe(None))));
    };
    if pattern.by_chars {
        let chars = glob_chars_of(kind, pattern.text);
        Not(ByKind(kind, Either(Maybe(None), Maybe(chars))))
    } else {
        let bytes = glob_of(kind, pattern.text);
        Not(ByKind(kind, Either(Maybe(bytes), Maybe(None))))
    }
}

/// Returns the automaton of the keys with the prefix of a choice, in its range. Its bounds are as the
/// kind compares keys.
fn part_of(kind: TrieKind, choice: Choice<'_>) -> Part<'_>
    requires { IsFolded kind choice }
    ensures { (key : List ℕ) → in_part result key ≡ (begins_with (kind_of kind) choice.entry.prefix.now key
        && is_in kind choice.entry.range key) }
{
    let prefix = KindPrefix {
        kind,
        prefix: choice.prefix,
    };
    Both(prefix, ByKind(kind, choice.range))
}

/// Returns the automaton of the keys of which the conditions of a choice hold but that of its word. Its
/// bounds are as the kind compares keys.
pub(crate) fn conditions(kind: TrieKind, choice: Choice<'_>) -> Conditions<'_>
    requires { IsFolded kind choice }
    ensures { (key : List ℕ) → keeps result key ≡ is_kept kind choice.entry key }
{
    Both(part_of(kind, choice), no_pattern(kind, choice.without))
}
