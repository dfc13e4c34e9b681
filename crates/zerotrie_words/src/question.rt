//! The questions to a trie that the command line asks.

ghost use Rattle.std.specs.Prelude.{◌≡◌, IfErr, IfOk, codes, length};
ghost use Rattle.std.specs.List.{slice_get};
ghost use Rattle.std.specs.Option.{option_map};
ghost use Rattle.zerotrie_words.specs.Questions.{IsAsk, IsAskMisuse, IsLongestMisuse, IsQuestion, IsQuestionMisuse, IsViewMisuse};
ghost use Rattle.zerotrie_words.specs.Refusals.{IsNoKind, IsUnknown};
ghost use Rattle.zerotrie_words.specs.Words.{IsBorder, IsCheck, IsFile, IsGet, IsLongest, IsReportForm, IsSource, IsSpelling, IsView, file_word, files_of, flag_of, name_told, texts_of, word_of};

use crate::keys::keys_of;
use crate::listing::limit_of;
use crate::misuse::Misuse;
use crate::names::{kind_of, source_of};
use crate::options::{CodeOptions, ListOptions, SearchOptions};
use crate::task::Topic;
use clap::ArgMatches;
use zerotrie_queries::{Asked, Query, ReportForm, Spelling, View};
use zerotrie_run::{Check, Command, Place, Question, TrieFile};

/// How many nodes are drawn if `--limit` is left out.
const DRAWN: usize = 100;

/// Returns how the file is tested: in full by `verify`, and by others as usual unless that is left
/// out.
fn check_in(matches: &ArgMatches<'_>, topic: Topic) -> Check
    ensures { IsCheck topic (flag_of matches.now (codes "no-check")) result }
{
    match topic {
        Topic::Verify => Check::Full,
        Topic::Get
        | Topic::Longest
        | Topic::Reverse
        | Topic::List
        | Topic::Search
        | Topic::Stats
        | Topic::Inspect
        | Topic::Code => {
            if matches.get_flag("no-check") {
                Check::Skip
            } else {
                Check::Usual
            }
        }
    }
}

/// Returns how many files are asked one after the other.
pub fn file_count(matches: &ArgMatches<'_>) -> usize
    ensures { result ≡ length (files_of matches.now) }
{
    match matches.get_strs("FILE") {
        Some(files) => files.len(),
        None => 0,
    }
}

/// Returns the word of the file with this number, of those that are asked one after the other.
fn nth_file<'a>(matches: &ArgMatches<'a>, number: usize) -> Option<&'a str>
    ensures { option_map (λ w. w.now) result ≡ slice_get (files_of matches.now) number }
{
    let files = matches.get_strs("FILE")?;
    files.get(number).copied()
}

/// Returns the name of the file with this number, if a report has to say it: of several files.
fn name_told<'a>(matches: &ArgMatches<'a>, number: usize) -> Option<&'a str>
    ensures { option_map (λ w. w.now) result ≡ name_told (files_of matches.now) number }
{
    if file_count(matches) > 1 {
        nth_file(matches, number)
    } else {
        None
    }
}

/// Returns the place of the file with this number. Only `verify` and `stats` have several.
fn file_place<'a>(matches: &ArgMatches<'a>, topic: Topic, number: usize) -> Place<'a>
    ensures { IsSource (file_word matches.now topic number) result }
{
    match topic {
        Topic::Verify | Topic::Stats => source_of(nth_file(matches, number)),
        Topic::Get
        | Topic::Longest
        | Topic::Reverse
        | Topic::List
        | Topic::Search
        | Topic::Inspect
        | Topic::Code => source_of(matches.get_str("FILE")),
    }
}

/// Returns the file with this number that is asked.
fn file_in<'a>(
    matches: &ArgMatches<'a>,
    topic: Topic,
    number: usize,
) -> Result<TrieFile<'a>, Misuse>
    ensures file { IfOk result (IsFile matches.now topic number) }
    ensures refused { IfErr result
        (IsUnknown (IsNoKind (word_of matches.now (codes "bare-kind")))) }
{
    Ok(TrieFile {
        place: file_place(matches, topic, number),
        bare: kind_of(matches.get_str("bare-kind"))?,
        check: check_in(matches, topic),
    })
}

/// Returns the view of the nodes that is asked for. It is an error if a limit is
/// no number, or is not for a drawing.
fn view_in(matches: &ArgMatches<'_>) -> Result<View, Misuse>
    ensures view { IfOk result (IsView (word_of matches.now (codes "VIEW"))
        (word_of matches.now (codes "limit"))) }
    ensures refused { IfErr result (IsViewMisuse (word_of matches.now (codes "VIEW"))
        (word_of matches.now (codes "limit"))) }
{
    match (matches.get_str("VIEW"), limit_of(matches.get_str("limit"))?) {
        (Some("dump"), None) => Ok(View::Dump),
        (Some("dump"), Some(_)) => Err(Misuse::LimitOfDump),
        (Some("dot"), most) => Ok(View::Dot(most.unwrap_or(DRAWN))),
        (Some(_) | None, _) => Err(Misuse::UnknownWord),
    }
}

/// Returns the byte at which a key may end, or `None` if it may end anywhere. It is an error, with
/// the message, if the word is not one byte.
fn border_in(matches: &ArgMatches<'_>) -> Result<Option<u8>, Misuse>
    ensures border { IfOk result (IsBorder (word_of matches.now (codes "at"))) }
    ensures refused { IfErr result (IsLongestMisuse matches.now) }
{
    let Some(word) = matches.get_str("at") else {
        return Ok(None);
    };
    match word.as_bytes() {
        [byte] => Ok(Some(*byte)),
        _ => Err(Misuse::NoBorder),
    }
}

/// Returns what is asked of texts. It is an error if the word of `--at` is not one byte.
fn longest_in(matches: &ArgMatches<'_>) -> Result<Asked, Misuse>
    ensures asked { IfOk result (IsLongest matches.now) }
    ensures refused { IfErr result (IsLongestMisuse matches.now) }
{
    match (matches.get_flag("all"), border_in(matches)?) {
        (true, border) => Ok(Asked::Prefixes(border)),
        (false, None) => Ok(Asked::Longest),
        (false, Some(byte)) => Ok(Asked::LongestAt(byte)),
    }
}

/// Returns how a report is printed.
fn report_in(matches: &ArgMatches<'_>) -> ReportForm
    ensures { IsReportForm (word_of matches.now (codes "format")) result }
{
    match matches.get_str("format") {
        Some("json") => ReportForm::Json,
        _ => ReportForm::Lines,
    }
}

/// Returns what is asked of keys.
fn get_in(matches: &ArgMatches<'_>) -> Asked
    ensures { IsGet (flag_of matches.now (codes "keys")) result }
{
    if matches.get_flag("keys") {
        Asked::Pair
    } else {
        Asked::Value
    }
}

/// Returns how keys or texts are written: with escapes by the flag.
fn spelling_in(matches: &ArgMatches<'_>) -> Spelling
    ensures { IsSpelling (flag_of matches.now (codes "escaped")) result }
{
    if matches.get_flag("escaped") {
        Spelling::Escaped
    } else {
        Spelling::Plain
    }
}

/// Returns what is asked, with how the keys or texts are written.
fn query_in(matches: &ArgMatches<'_>, asked: Asked) -> Query
    ensures asked { result.asked ≡ asked }
    ensures spelling { IsSpelling (flag_of matches.now (codes "escaped")) result.spelling }
{
    Query {
        asked,
        spelling: spelling_in(matches),
    }
}

/// Returns the question of a command to the file with this number. It is an error if an option has a wrong
/// word.
fn question_in<'w, 'a: 'w>(
    matches: &ArgMatches<'a>,
    topic: Topic,
    number: usize,
    words: &'w Option<Vec<&'a [u8]>>,
) -> Result<Question<'w>, Misuse>
    ensures question { IfOk result (IsQuestion matches.now topic number (texts_of words.now)) }
    ensures refused { IfErr result (IsQuestionMisuse matches.now topic (texts_of words.now)) }
{
    match topic {
        Topic::Get => {
            let asked = get_in(matches);
            Ok(Question::LookUp(query_in(matches, asked), keys_of(words)?))
        }
        Topic::Longest => {
            let asked = longest_in(matches)?;
            Ok(Question::LookUp(query_in(matches, asked), keys_of(words)?))
        }
        Topic::Reverse => {
            let query = Query {
                asked: Asked::KeyOf,
                spelling: Spelling::Plain,
            };
            Ok(Question::LookUp(query, keys_of(words)?))
        }
        Topic::List => ListOptions::of(matches).question(matches.get_flag("sorted")),
        Topic::Search => SearchOptions::of(matches).question(),
        Topic::Verify => Ok(Question::Verify),
        Topic::Stats => Ok(Question::Report(report_in(matches), name_told(matches, number))),
        Topic::Inspect => Ok(Question::View(view_in(matches)?)),
        Topic::Code => CodeOptions::of(matches).question(),
    }
}

/// Returns the question of a command, and the file with this number it is for. It is an error, with
/// the message, if an option has a wrong word.
pub fn ask_in<'w, 'a: 'w>(
    matches: &ArgMatches<'a>,
    topic: Topic,
    number: usize,
    words: &'w Option<Vec<&'a [u8]>>,
) -> Result<Command<'w>, Misuse>
    ensures ask { IfOk result (IsAsk matches.now topic number (texts_of words.now)) }
    ensures refused { IfErr result (IsAskMisuse matches.now topic (texts_of words.now)) }
{
    let file = file_in(matches, topic, number)?;
    let question = question_in(matches, topic, number, words)?;
    Ok(Command::Ask(file, question))
}
