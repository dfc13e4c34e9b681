//! The combination of tries that the command line asks for.

ghost use Rattle.std.specs.Prelude.{◌≡◌, IfErr, IfNone, IfOk, IfSome, map};
ghost use Rattle.zerotrie_sets.specs.declared.selection.Rule.{Rule};
ghost use Rattle.zerotrie_words.specs.Builds.{IsCombination, IsCombinationMisuse, IsRule, rule_word};
ghost use Rattle.zerotrie_words.specs.Options.{text_of};
ghost use Rattle.zerotrie_words.specs.Refusals.{IsUnknown, NamesNone};
ghost use Rattle.zerotrie_words.specs.Requests.{ArePlaces, AreSources};
ghost use Rattle.zerotrie_words.specs.Words.{files_of};

use crate::misuse::Misuse;
use crate::names::source_of;
use crate::options::MakeOptions;
use crate::task::Task;
use clap::ArgMatches;
use std::alloc::{AllocError, Global};
use zerotrie_making::Combination;
use zerotrie_run::{Combine, Place};
use zerotrie_sets::{Rule, Selection};

/// Returns the places that words name.
fn sources_of<'a>(alloc: Global, words: &[&'a str]) -> Result<Vec<Place<'a>>, AllocError>
    ensures { IfOk result (λ places. AreSources (map (λ word. word.now) words.now) places.items) }
{
    let mut places = Vec::new(alloc);
    for word in words {
        places.push(source_of(Some(*word)))?;
    }
    Ok(places)
}

/// Returns the places of all files that are named.
fn sources_in<'a>(alloc: Global, matches: &ArgMatches<'a>) -> Result<Vec<Place<'a>>, AllocError>
    ensures { IfOk result (λ places. AreSources (files_of matches.now) places.items) }
{
    match matches.get_strs("FILE") {
        Some(words) => sources_of(alloc, words),
        None => Ok(Vec::new(alloc)),
    }
}

/// Returns the places of the tries that a task combines.
pub fn places_in<'a>(
    alloc: Global,
    matches: &ArgMatches<'a>,
    task: Task,
) -> Result<Vec<Place<'a>>, AllocError>
    ensures { IfOk result (λ places. ArePlaces matches.now task places.items) }
{
    match task {
        Task::Combine(_) => sources_in(alloc, matches),
        Task::Build | Task::Ask(_) | Task::Diff => Ok(Vec::new(alloc)),
    }
}

/// Returns the rule with this name, or `None` if no rule has it.
fn rule_named(name: &str) -> Option<Rule>
    ensures some { IfSome result (λ rule. name.now ≡ rule_word rule) }
    ensures none { IfNone result ((rule : Rule) → name.now ≡ rule_word rule → ⊥) }
{
    match name {
        "first" => Some(Rule::First),
        "last" => Some(Rule::Last),
        "sum" => Some(Rule::Sum),
        "min" => Some(Rule::Min),
        "max" => Some(Rule::Max),
        "equal" => Some(Rule::Equal),
        "refuse" => Some(Rule::Refuse),
        _ => None,
    }
}

/// Returns which value a key gets that several tries have. `minus` has no such key, and no word for it.
fn rule_of(values: Option<&str>) -> Result<Rule, Misuse>
    ensures rule { IfOk result (IsRule (text_of values.entry)) }
    ensures refused { IfErr result (IsUnknown (NamesNone rule_word (text_of values.entry))) }
{
    match values {
        Some(name) => rule_named(name).ok_or(Misuse::UnknownWord),
        None => Ok(Rule::First),
    }
}

impl<'a> MakeOptions<'a> {
    /// Returns the combination that is asked for, of the tries in these places, with the word of its
    /// rule. What it made is told always if messages go to a terminal.
    pub fn combination<'w>(
        &self,
        values: Option<&str>,
        selection: Selection,
        places: &'w [Place<'a>],
        to_terminal: bool,
    ) -> Result<Combine<'w>, Misuse>
    where
        'a: 'w,
        ensures combination { IfOk result
            (IsCombination self.now (text_of values.entry) selection places.now to_terminal) }
        ensures refused { IfErr result (IsCombinationMisuse self.now (text_of values.entry)) }
    {
        let (kind, form) = self.content()?;
        let rule = rule_of(values)?;
        Ok(Combine {
            from: places,
            to: self.target(),
            combination: Combination {
                selection,
                rule,
                kind,
                form,
            },
            no_clobber: self.no_clobber,
            summary: self.told(to_terminal)?,
        })
    }
}
