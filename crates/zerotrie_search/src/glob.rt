//! Keys that a pattern of a shell matches.

ghost use Rattle.std.specs.Prelude.{◌≡◌, ◌≢◌, ◌<◌, [], length, true, false, IfOk, IfErr};
ghost use Rattle.zerotrie_search.specs.Globs as glob;
ghost use Rattle.zerotrie_search.specs.Globs.{cased, matches};
ghost use Rattle.zerotrie_search.specs.GlobMasks.{any_match};
ghost use Rattle.zerotrie_search.specs.GlobTables.{AreMasks};
ghost use Rattle.zerotrie_search.specs.declared.TheConstants.{WORD_LIMIT};
ghost use Rattle.zerotrie_search.specs.declared.glob.GlobError.TheVariants.{Malformed, TooLong};

mod chars;
mod masks;
mod pattern;

use crate::WORD_LIMIT;
use crate::automaton::Automaton;
pub use chars::{GlobChars, GlobState};
use masks::Masks;
use pattern::Text;
use std::fmt;
use thiserror::Error;
use zerotrie_core::ByteSet;

/// Why a pattern is an error.
#[derive(Clone, Copy, Debug, PartialEq, Eq, Error)]
pub enum GlobError {
    /// A class has no end, no letter, or a range that ends before it begins, a group has no end or is
    /// in another one, a brace ends no group, or a backslash at the end escapes nothing.
    #[error("the pattern is malformed")]
    Malformed,
    /// The pattern has more items than `WORD_LIMIT`. Each brace of a group is one, and so is each of its
    /// commas.
    #[error("the pattern has more than {WORD_LIMIT} items")]
    TooLong,
}

/// Accepts the keys that a pattern matches, byte by byte.
///
/// ```
/// let automaton = Glob::new(b"[a-c]*.{rt,antt}")?;
/// let mut state = automaton.start();
/// for byte in b"core.rt" {
///     state = automaton.step(state, *byte);
/// }
/// assert!(rt; automaton.is_match(state));
/// ```
///
/// `*` is any number of bytes, `?` is one byte, `[a-z_]` is one byte of the class, and `[!a-z_]` or
/// `[^a-z_]` one that is not of it. `{rt,antt}` is one of the alternatives, each of which is a pattern
/// without such a group, and may be empty. A backslash takes the meaning of the byte after it, in a
/// class too. All other bytes are themselves.
///
/// A state has a bit for each place in the pattern.
#[derive(Clone, Copy)]
pub struct Glob<'p> {
    pattern: &'p [u8],
    any_case: bool,
    masks: Masks,
    ghost are: { AreMasks (cased any_case (glob.items pattern.now)) masks },
}

impl<'p> fmt::Debug for Glob<'p> {
    fn fmt<W: fmt::Write>(&self, f: &mut fmt::Formatter<W>) -> fmt::Result {
        f.debug_struct("Glob")
            .field("pattern", &self.pattern)
            .field("any_case", &self.any_case)
            .finish()
    }
}

impl<'p> Glob<'p> {
    /// Accepts the keys that the pattern matches.
    ///
    /// ```
    /// assert!(rt; Glob::new(b"[^aeiou]*").is_ok());
    /// assert!(rt; Glob::new(b"{un,}like{ly,}").is_ok());
    /// assert!(rt; matches!(Glob::new(b"[z-a]"), Err(GlobError::Malformed)));
    /// assert!(rt; matches!(Glob::new(b"{a,b"), Err(GlobError::Malformed)));
    /// ```
    pub fn new(pattern: &'p [u8]) -> Result<Self, GlobError>
        ensures ok { IfOk result (λ g. (g.pattern.now ≡ pattern.now) × (g.any_case ≡ false)
            × (glob.no_item pattern.now ≡ [])) }
        ensures malformed { IfErr result (λ e. e ≡ Malformed → glob.no_item pattern.now ≢ []) }
        ensures long { IfErr result (λ e. e ≡ TooLong → WORD_LIMIT < length (glob.items pattern.now)) }
    {
        Self::of(pattern, false)
    }

    /// Accepts the keys that the pattern matches in any case: an ASCII letter of it, in a class too, is
    /// taken in both of its cases.
    ///
    /// ```
    /// let automaton = Glob::in_any_case(b"[A-_]*")?;
    /// let state = automaton.step(automaton.start(), b'k');
    /// assert!(rt; automaton.is_match(state));
    /// ```
    pub fn in_any_case(pattern: &'p [u8]) -> Result<Self, GlobError>
        ensures ok { IfOk result (λ g. (g.pattern.now ≡ pattern.now) × (g.any_case ≡ true)
            × (glob.no_item pattern.now ≡ [])) }
        ensures malformed { IfErr result (λ e. e ≡ Malformed → glob.no_item pattern.now ≢ []) }
        ensures long { IfErr result (λ e. e ≡ TooLong → WORD_LIMIT < length (glob.items pattern.now)) }
    {
        Self::of(pattern, true)
    }

    /// Accepts the keys that the pattern matches, in any case or as they are.
    pub(crate) fn of(pattern: &'p [u8], any_case: bool) -> Result<Self, GlobError>
        ensures ok { IfOk result (λ g. (g.pattern.now ≡ pattern.now) × (g.any_case ≡ any_case)
            × (glob.no_item pattern.now ≡ [])) }
        ensures malformed { IfErr result (λ e. e ≡ Malformed → glob.no_item pattern.now ≢ []) }
        ensures long { IfErr result (λ e. e ≡ TooLong → WORD_LIMIT < length (glob.items pattern.now)) }
    {
        let masks = Masks::of(Text::Bytes(pattern), any_case)?;
        Ok(Glob {
            pattern,
            any_case,
            masks,
        })
    }
}

impl<'p> Automaton for Glob<'p> {
    type State = u64;

    ghost accepts = { λ s key. matches (cased s.any_case (glob.items s.pattern.now)) key };

    ghost accepts_from = { λ s marks key.
        any_match marks 0 (cased s.any_case (glob.items s.pattern.now)) key };

    ghost IsAfter = { λ _ _ _. Unit {0} };

    fn start(&self) -> u64 {
        self.masks.first()
    }

    fn step(&self, state: u64, byte: u8) -> u64 {
        self.masks.step(state, self.masks.takers(byte))
    }

    fn is_match(&self, state: u64) -> bool {
        self.masks.is_match(state)
    }

    fn can_match(&self, state: u64) -> bool {
        state != 0
    }

    fn wanted(&self, state: u64) -> Option<ByteSet> {
        self.masks.is_over(state).then(ByteSet::none)
    }
}
