//! Keys that a pattern of characters matches.

ghost use Rattle.std.specs.Prelude.{◌≡◌, ◌≢◌, ◌<◌, ◌∷◌, ℕ, List, [], length, true, false, Some, IfOk, IfErr};
ghost use Rattle.std.specs.Str.{chars};
ghost use Rattle.zerotrie_search.specs.Globs as glob;
ghost use Rattle.zerotrie_search.specs.Globs.{cased, matches_text};
ghost use Rattle.zerotrie_search.specs.GlobMasks.{AreTakers};
ghost use Rattle.zerotrie_search.specs.GlobTables.{AreMasks};
ghost use Rattle.zerotrie_search.specs.GlobTexts.{text_match};
ghost use Rattle.zerotrie_search.specs.declared.TheConstants.{WORD_LIMIT};
ghost use Rattle.zerotrie_search.specs.declared.glob.GlobError.TheVariants.{Malformed, TooLong};

use super::GlobError;
use super::masks::{Masks, takers_of};
use super::pattern::Text;
use crate::automaton::Automaton;
use crate::pending::{Pending, Taken};
use std::fmt;
use zerotrie_core::ByteSet;

/// Accepts the keys that are text, and that a pattern matches, character by character.
///
/// ```
/// let automaton = GlobChars::new("{caf[éè],thé}?")?;
/// let mut state = automaton.start();
/// for byte in "cafés".as_bytes() {
///     state = automaton.step(state, *byte);
/// }
/// assert!(rt; automaton.is_match(state));
/// ```
///
/// A pattern means what it means for `Glob`, but each character is a letter in place of each byte:
/// `?` and a class take one character, and a range has the characters between two by their numbers.
/// It accepts no key that is not UTF-8.
#[derive(Clone, Copy)]
pub struct GlobChars<'p> {
    pattern: &'p str,
    any_case: bool,
    masks: Masks,
    ghost are: { AreMasks (cased any_case (glob.items (chars pattern.now))) masks },
}

/// A bit for each place in the pattern, and the first bytes of a character that is not complete.
#[derive(Clone, Copy, Debug)]
pub struct GlobState {
    marks: u64,
    pending: Pending,
}

impl<'p> fmt::Debug for GlobChars<'p> {
    fn fmt<W: fmt::Write>(&self, f: &mut fmt::Formatter<W>) -> fmt::Result {
        f.debug_struct("GlobChars")
            .field("pattern", &self.pattern)
            .field("any_case", &self.any_case)
            .finish()
    }
}

impl<'p> GlobChars<'p> {
    /// Accepts the text that the pattern matches.
    ///
    /// ```
    /// assert!(rt; GlobChars::new("[α-ω]*").is_ok());
    /// assert!(rt; matches!(GlobChars::new("[ω-α]*"), Err(GlobError::Malformed)));
    /// ```
    pub fn new(pattern: &'p str) -> Result<Self, GlobError>
        ensures ok { IfOk result (λ g. (g.pattern.now ≡ pattern.now) × (g.any_case ≡ false)
            × (glob.no_item (chars pattern.now) ≡ [])) }
        ensures malformed { IfErr result (λ e. e ≡ Malformed → glob.no_item (chars pattern.now) ≢ []) }
        ensures long { IfErr result (λ e. e ≡ TooLong
            → WORD_LIMIT < length (glob.items (chars pattern.now))) }
    {
        Self::of(pattern, false)
    }

    /// Accepts the text that the pattern matches in any case: an ASCII letter of it, in a class too, is
    /// taken in both of its cases.
    ///
    /// ```
    /// assert!(rt; GlobChars::in_any_case("[A-_]é*").is_ok());
    /// ```
    pub fn in_any_case(pattern: &'p str) -> Result<Self, GlobError>
        ensures ok { IfOk result (λ g. (g.pattern.now ≡ pattern.now) × (g.any_case ≡ true)
            × (glob.no_item (chars pattern.now) ≡ [])) }
        ensures malformed { IfErr result (λ e. e ≡ Malformed → glob.no_item (chars pattern.now) ≢ []) }
        ensures long { IfErr result (λ e. e ≡ TooLong
            → WORD_LIMIT < length (glob.items (chars pattern.now))) }
    {
        Self::of(pattern, true)
    }

    /// Accepts the text that the pattern matches, in any case or as it is.
    pub(crate) fn of(pattern: &'p str, any_case: bool) -> Result<Self, GlobError>
        ensures ok { IfOk result (λ g. (g.pattern.now ≡ pattern.now) × (g.any_case ≡ any_case)
            × (glob.no_item (chars pattern.now) ≡ [])) }
        ensures malformed { IfErr result (λ e. e ≡ Malformed → glob.no_item (chars pattern.now) ≢ []) }
        ensures long { IfErr result (λ e. e ≡ TooLong
            → WORD_LIMIT < length (glob.items (chars pattern.now))) }
    {
        let masks = Masks::of(Text::Chars(pattern), any_case)?;
        Ok(GlobChars {
            pattern,
            any_case,
            masks,
        })
    }

    /// Returns the marks of the items that take a character.
    #[inline]
    fn takers(&self, letter: u32) -> u64
        ensures { AreTakers (cased self.now.any_case (glob.items (chars self.now.pattern.now))) letter result }
    {
        if letter < 256 {
            self.masks.takers(letter as u8)
        } else {
            takers_of(Text::Chars(self.pattern), self.any_case, letter)
        }
    }
}

impl<'p> Automaton for GlobChars<'p> {
    type State = Option<GlobState>;

    ghost accepts = { λ s key.
        matches_text (cased s.any_case (glob.items (chars s.pattern.now))) key };

    ghost accepts_from = { λ s state key.
        text_match (cased s.any_case (glob.items (chars s.pattern.now))) state key };

    ghost IsAfter = { λ _ _ _. Unit {0} };

    fn start(&self) -> Option<GlobState> {
        Some(GlobState {
            marks: self.masks.first(),
            pending: Pending::none(),
        })
    }

    fn step(&self, state: Option<GlobState>, byte: u8) -> Option<GlobState> {
        let state = state?;
        match state.pending.and(byte) {
            Taken::More(pending) => Some(GlobState {
                marks: state.marks,
                pending,
            }),
            Taken::Letter(letter) => Some(GlobState {
                marks: self.masks.step(state.marks, self.takers(letter)),
                pending: Pending::none(),
            }),
            Taken::Malformed => None,
        }
    }

    fn is_match(&self, state: Option<GlobState>) -> bool {
        match state {
            None => false,
            Some(state) => state.pending.is_none() && self.masks.is_match(state.marks),
        }
    }

    fn can_match(&self, state: Option<GlobState>) -> bool {
        match state {
            None => false,
            Some(state) => state.marks != 0,
        }
    }

    fn wanted(&self, state: Option<GlobState>) -> Option<ByteSet> {
        let state = state?;
        if !state.pending.is_none() {
            return None;
        }
        if self.masks.is_over(state.marks) {
            Some(ByteSet::none())
        } else {
            None
        }
    }
}
