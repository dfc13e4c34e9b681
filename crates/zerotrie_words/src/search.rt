//! How the options of a search ask for pairs.

ghost use Rattle.std.specs.Prelude.{◌≡◌, ◌≢◌, None, true, false, IfErr, IfNone, IfOk, IfSome};
ghost use Rattle.zerotrie_words.specs.Options.{text_of};
ghost use Rattle.zerotrie_words.specs.Refusals.{HasNoNumber, IsUnknown};
ghost use Rattle.zerotrie_words.specs.Searches.{AreMeasured, AreUsed, HasNoPart, IsChoiceMisuse, IsIdle, IsMeasuringMisuse, IsOfSort, IsSearch, IsSearchFormBy, IsSearchFormMisuse, IsSearchMisuse, IsSought, IsSoughtBy, IsSoughtMisuse, IsWithout, IsWithoutMisuse, IsWordMisuse};
ghost use Rattle.zerotrie_words.specs.Words.{IsEdits, fuzzy_by, glob_by, search_order};

use crate::misuse::Misuse;
use crate::options::{ListOptions, SearchOptions};
use zerotrie_queries::{Choice, Form, ListQuery, Order, Pattern, Sought};
use zerotrie_run::Question;
use zerotrie_search::{AnyAutomaton, SearchBy};

/// How many edits are allowed if `--edits` is left out.
const EDITS: u8 = 2;

/// Returns the bytes of a word. It is an error if it is none of its sort.
fn word_by(by: SearchBy, word: &str) -> Result<&[u8], Misuse>
    ensures ok { IfOk result (λ w. w.now ≡ word.now) }
    ensures word { IfOk result (λ _. IsOfSort by word.now) }
    ensures refused { IfErr result (IsWordMisuse by word.now) }
{
    let word = word.as_bytes();
    match AnyAutomaton::new(by, word) {
        Ok(_) => Ok(word),
        Err(error) => Err(Misuse::Word(by, error)),
    }
}

/// Returns whether keys have to begin so, or to be in a range.
fn has_part(list: &ListOptions<'_>) -> bool
    ensures yes { result ≡ true → HasNoPart list.now → ⊥ }
    ensures no { result ≡ false → HasNoPart list.now }
{
    list.prefix.is_some() || list.from.is_some() || list.below.is_some() || list.to.is_some()
}

impl<'a> SearchOptions<'a> {
    /// Returns how the word of `--glob` finds keys: by characters, or by bytes with a flag.
    fn glob_by(&self) -> SearchBy
        ensures { result ≡ glob_by self.now.bytes }
    {
        if self.bytes {
            SearchBy::Glob
        } else {
            SearchBy::GlobChars
        }
    }

    /// Returns how the word of `--fuzzy` finds keys: by edits of characters, or of bytes with a flag,
    /// where neighbours that change places are one edit, but not with another flag.
    fn fuzzy_by(&self, edits: u8) -> SearchBy
        ensures { result ≡ fuzzy_by self.now.bytes self.now.no_transpose edits }
    {
        let edits = u32::from(edits);
        match (self.bytes, self.no_transpose) {
            (false, false) => SearchBy::SwapsChars(edits),
            (false, true) => SearchBy::FuzzyChars(edits),
            (true, false) => SearchBy::Swaps(edits),
            (true, true) => SearchBy::Fuzzy(edits),
        }
    }

    /// Returns how many edits are allowed. It is an error if the word is no number, which clap
    /// refuses.
    fn edits(&self) -> Result<u8, Misuse>
        ensures edits { IfOk result (IsEdits (text_of self.now.edits)) }
        ensures refused { IfErr result (IsUnknown (HasNoNumber 8 (text_of self.now.edits))) }
    {
        let Some(word) = self.edits else {
            return Ok(EDITS);
        };
        match word.parse() {
            Ok(edits) => Ok(edits),
            Err(_) => Err(Misuse::UnknownWord),
        }
    }

    /// Returns the first option that is there without the word that it is of, if there is one.
    fn idle(&self) -> Option<Misuse>
        ensures none { IfNone result (AreUsed self.now) }
        ensures some { IfSome result (IsIdle self.now) }
    {
        if self.fuzzy.is_some() {
            return None;
        }
        if self.edits.is_some() {
            return Some(Misuse::IdleEdits);
        }
        if self.no_transpose {
            return Some(Misuse::IdleSwaps);
        }
        if self.beginnings {
            return Some(Misuse::IdleBeginnings);
        }
        if self.bytes && self.glob.is_none() && self.not.is_none() {
            return Some(Misuse::IdleBytes);
        }
        None
    }

    /// Returns a word by which keys are sought, or with a flag what they begin with. It is an error if
    /// it is none of its sort.
    fn sought_by(&self, by: SearchBy, word: &'a str) -> Result<Option<Sought<'a>>, Misuse>
        ensures ok { IfOk result (λ o. IfSome o (λ s. (s.by ≡ by) × (s.word.now ≡ word.now)
            × (s.begins ≡ self.now.beginnings))) }
        ensures some { IfOk result (λ o. o ≢ None) }
        ensures word { IfOk result (λ _. IsOfSort by word.now) }
        ensures refused { IfErr result (IsWordMisuse by word.now) }
    {
        Ok(Some(Sought {
            by,
            word: word_by(by, word)?,
            begins: self.beginnings,
        }))
    }

    /// Returns the word by which keys are sought, or `None` if none is given. It is an error if more
    /// than one is, if a word is none of its sort, or if an option is of no use.
    fn sought(&self) -> Result<Option<Sought<'a>>, Misuse>
        ensures sought { IfOk result (IsSoughtBy self.now) }
        ensures refused { IfErr result (IsSoughtMisuse self.now) }
    {
        if let Some(misuse) = self.idle() {
            return Err(misuse);
        }
        match (self.glob, self.fuzzy, self.subsequence) {
            (None, None, None) => Ok(None),
            (Some(pattern), None, None) => self.sought_by(self.glob_by(), pattern),
            (None, Some(word), None) => self.sought_by(self.fuzzy_by(self.edits()?), word),
            (None, None, Some(word)) => self.sought_by(SearchBy::Subsequence, word),
            (Some(_), Some(_), _) | (Some(_), None, Some(_)) | (None, Some(_), Some(_)) => {
                Err(Misuse::TooMuchSought)
            }
        }
    }

    /// Returns the pattern that no key is to match, or `None` if none is given. It is an error if it is
    /// malformed.
    fn without(&self) -> Result<Option<Pattern<'a>>, Misuse>
        ensures without { IfOk result (IsWithout self.now) }
        ensures refused { IfErr result (IsWithoutMisuse self.now) }
    {
        let Some(text) = self.not else {
            return Ok(None);
        };
        Ok(Some(Pattern {
            by_chars: !self.bytes,
            text: word_by(self.glob_by(), text)?,
        }))
    }

    /// Returns which keys are looked for. It is an error if the options ask for all, or if they are
    /// wrong.
    #[tactic(auto, using(crate::proofs::SearchLemmas::sought_some))]
    fn choice(&self) -> Result<Choice<'a>, Misuse>
        ensures sought { IfOk result (IsSought self.now) }
        ensures refused { IfErr result (IsChoiceMisuse self.now) }
    {
        let sought = self.sought()?;
        let without = self.without()?;
        if sought.is_none() && without.is_none() && !has_part(&self.list) {
            return Err(Misuse::NothingSought);
        }
        Ok(Choice {
            prefix: self.list.front(),
            range: self.list.range()?,
            without,
            sought,
        })
    }

    /// Returns why no distances can be printed, if so.
    fn unmeasured(&self) -> Option<Misuse>
        ensures none { IfNone result (AreMeasured self.now) }
        ensures some { IfSome result (IsMeasuringMisuse self.now) }
    {
        if self.fuzzy.is_none() {
            return Some(Misuse::IdleDistance);
        }
        let other = self.list.format.is_some() || self.list.raw || self.list.count;
        other.then_some(Misuse::DistanceForm)
    }

    /// Returns how pairs are to be printed.
    fn form(&self) -> Result<Form, Misuse>
        ensures form { IfOk result (IsSearchFormBy self.now.distance self.now) }
        ensures refused { IfErr result (IsSearchFormMisuse self.now.distance self.now) }
    {
        if !self.distance {
            return self.list.form();
        }
        match self.unmeasured() {
            Some(misuse) => Err(misuse),
            None => Ok(Form::Distances),
        }
    }

    /// Returns the order of the pairs. Of keys that are near a word the nearest come first, and without
    /// a number of edits there are only those of the fewest edits.
    fn order(&self) -> Order
        ensures { result ≡ search_order self.now.fuzzy self.now.edits self.now.list.count }
    {
        match (self.fuzzy, self.edits) {
            (Some(_), None) => Order::Closest,
            (Some(_), Some(_)) if !self.list.count => Order::Nearest,
            (None, _) | (Some(_), Some(_)) => Order::ByBytes,
        }
    }

    /// Returns what `search` asks for.
    pub fn question(&self) -> Result<Question<'a>, Misuse>
        ensures question { IfOk result (IsSearch self.now) }
        ensures refused { IfErr result (IsSearchMisuse self.now) }
    {
        let form = self.form()?;
        let query = ListQuery {
            choice: self.choice()?,
            order: self.order(),
            top: self.list.top()?,
            limit: self.list.most()?,
        };
        Ok(Question::List(form, query))
    }
}
