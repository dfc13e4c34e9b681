//! How the options of a listing ask for pairs.

ghost use Rattle.std.specs.Prelude.{◌≡◌, Some, IfErr, IfNone, IfOk, IfSome};
ghost use Rattle.zerotrie_queries.specs.declared.print.Form.{Form};
ghost use Rattle.zerotrie_words.specs.Options.{text_of};
ghost use Rattle.zerotrie_words.specs.Searches.{IsFormMisuse, IsFront, IsLimitMisuse, IsList, IsListForm, IsListMisuse, IsListed, IsMost, IsNamedForm, IsRange, IsRangeMisuse, IsTop, IsTopMisuse};
ghost use Rattle.zerotrie_words.specs.Words.{IsLimit, form_shown, form_word, most_of, order_by};

use crate::misuse::Misuse;
use crate::options::ListOptions;
use std::ops::Bound;
use zerotrie_queries::{Choice, Form, ListQuery, Order, Style};
use zerotrie_run::Question;
use zerotrie_search::KeyRange;

/// Returns the form with this name, or `None` if no form of pairs has it.
fn form_named(name: &str) -> Option<Form>
    ensures some { IfSome result (λ form. Some name.now ≡ form_word form) }
    ensures none { IfNone result ((form : Form) → Some name.now ≡ form_word form → ⊥) }
{
    match name {
        "tsv" => Some(Form::Lines(Style::Tsv)),
        "keys" => Some(Form::Lines(Style::Keys)),
        "values" => Some(Form::Lines(Style::Values)),
        "csv" => Some(Form::Lines(Style::Csv)),
        "jsonl" => Some(Form::Lines(Style::JsonLines)),
        "json" => Some(Form::Json),
        _ => None,
    }
}

/// Returns how pairs are printed that are to be printed so: if none is to be, as their number.
fn form_shown(quiet: bool, named: Form) -> Form
    ensures { result ≡ form_shown quiet named }
{
    if quiet { Form::Count } else { named }
}

/// Returns the order of pairs by flags. What is only to be counted needs none.
fn order_by(count: bool, sorted: bool) -> Order
    ensures { result ≡ order_by count sorted }
{
    match (count, sorted) {
        (false, true) => Order::ByBytes,
        (true, _) | (false, false) => Order::Stored,
    }
}

/// Returns the number that the word of a limit is, or `None` if there is none. It is an error if the
/// word is no number, which clap refuses.
pub fn limit_of(word: Option<&str>) -> Result<Option<usize>, Misuse>
    ensures limit { IfOk result (IsLimit (text_of word.entry)) }
    ensures refused { IfErr result (IsLimitMisuse word.entry) }
{
    let Some(word) = word else {
        return Ok(None);
    };
    match word.parse() {
        Ok(limit) => Ok(Some(limit)),
        Err(_) => Err(Misuse::UnknownWord),
    }
}

/// Returns how many pairs are listed at most: as many as the limit says, but one if none is printed.
fn most_of(quiet: bool, limit: Option<usize>) -> Option<usize>
    ensures { result ≡ most_of quiet limit }
{
    match (quiet, limit) {
        (false, limit) => limit,
        (true, Some(limit)) => Some(limit.min(1)),
        (true, None) => Some(1),
    }
}

impl<'a> ListOptions<'a> {
    /// Returns how pairs are to be printed.
    fn named_form(&self) -> Result<Form, Misuse>
        ensures form { IfOk result (IsNamedForm self.now) }
        ensures refused { IfErr result (IsFormMisuse self.now) }
    {
        match (self.count, self.raw, self.format) {
            (true, false, None) => Ok(Form::Count),
            (true, _, _) => Err(Misuse::CountWithForm),
            (false, true, None | Some("tsv")) => Ok(Form::Lines(Style::TsvRaw)),
            (false, true, Some(_)) => Err(Misuse::RawIsTsv),
            (false, false, None) => Ok(Form::Lines(Style::Tsv)),
            (false, false, Some(name)) => form_named(name).ok_or(Misuse::UnknownWord),
        }
    }

    /// Returns how pairs are printed: if none is to be, as their number, which any key allows.
    pub fn form(&self) -> Result<Form, Misuse>
        ensures form { IfOk result (IsListForm self.now) }
        ensures refused { IfErr result (IsFormMisuse self.now) }
    {
        let named = self.named_form()?;
        Ok(form_shown(self.quiet, named))
    }

    /// Returns how many pairs of the greatest values are listed, if only these are. It is an error if there is
    /// a limit, too.
    pub fn top(&self) -> Result<Option<usize>, Misuse>
        ensures top { IfOk result (IsTop self.now) }
        ensures refused { IfErr result (IsTopMisuse self.now) }
    {
        match (self.top, self.limit) {
            (None, _) => Ok(None),
            (Some(_), None) => limit_of(self.top),
            (Some(_), Some(_)) => Err(Misuse::TopAndLimit),
        }
    }

    /// Returns how many pairs are listed at most.
    pub fn most(&self) -> Result<Option<usize>, Misuse>
        ensures most { IfOk result (IsMost self.now) }
        ensures refused { IfErr result (IsLimitMisuse self.now.limit) }
    {
        let limit = limit_of(self.limit)?;
        Ok(most_of(self.quiet, limit))
    }

    /// Returns what keys have to begin with.
    pub fn front(&self) -> &'a [u8]
        ensures { IsFront self.now result.now }
    {
        self.prefix.unwrap_or("").as_bytes()
    }

    /// Returns the range that keys have to be in. It is an error if it ends twice.
    pub fn range(&self) -> Result<KeyRange<'a>, Misuse>
        ensures range { IfOk result (IsRange self.now) }
        ensures refused { IfErr result (IsRangeMisuse self.now) }
    {
        let from = match self.from {
            Some(word) => Bound::Included(word.as_bytes()),
            None => Bound::Unbounded,
        };
        let to = match (self.below, self.to) {
            (None, None) => Bound::Unbounded,
            (Some(word), None) => Bound::Excluded(word.as_bytes()),
            (None, Some(word)) => Bound::Included(word.as_bytes()),
            (Some(_), Some(_)) => return Err(Misuse::TwoEnds),
        };
        Ok(KeyRange { from, to })
    }

    /// Returns which keys are listed: those with a prefix, in a range.
    fn choice(&self) -> Result<Choice<'a>, Misuse>
        ensures choice { IfOk result (IsListed self.now) }
        ensures refused { IfErr result (IsRangeMisuse self.now) }
    {
        Ok(Choice {
            prefix: self.front(),
            range: self.range()?,
            without: None,
            sought: None,
        })
    }

    /// Returns what `list` asks for, by whether it is to be in the order of bytes.
    pub fn question(&self, sorted: bool) -> Result<Question<'a>, Misuse>
        ensures question { IfOk result (IsList sorted self.now) }
        ensures refused { IfErr result (IsListMisuse self.now) }
    {
        let form = self.form()?;
        let query = ListQuery {
            choice: self.choice()?,
            order: order_by(self.count, sorted),
            top: self.top()?,
            limit: self.most()?,
        };
        Ok(Question::List(form, query))
    }
}
