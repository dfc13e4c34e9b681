//! The build that the options ask for.

ghost use Rattle.std.specs.Prelude.{◌≡◌, Some, true, IfErr, IfNone, IfOk, IfSome};
ghost use Rattle.zerotrie_lines.specs.declared.reading.LineEnd.{LineEnd};
ghost use Rattle.zerotrie_making.specs.declared.duplicates.Duplicates.{Duplicates};
ghost use Rattle.zerotrie_words.specs.Builds.{IsBuild, IsBuildMisuse, IsContentMisuse, IsEndMisuse, IsFileMisuse, IsForm, IsHeaderMisuse, IsInput, IsInputMisuse, IsNamesMisuse, IsNoChoice, IsPlan, IsPlanMisuse, IsSummaryMisuse};
ghost use Rattle.zerotrie_words.specs.Options.{text_of};
ghost use Rattle.zerotrie_words.specs.Refusals.{IsUnknown, NamesNone};
ghost use Rattle.zerotrie_words.specs.Words.{AreNames, AreTogether, IsEnd, IsFormat, IsHeader, IsKind, IsTarget, MayNameEnd, duplicates_word, end_word, format_word, summary_by};

use crate::input::Input;
use crate::misuse::Misuse;
use crate::names::{kind_of, place_of, source_of};
use crate::options::{BuildOptions, MakeOptions};
use zerotrie_core::TrieKind;
use zerotrie_lines::{Format, Header, LineEnd, Names, TextForm};
use zerotrie_making::{Duplicates, FileForm, FilePlan, Plan, ReadPlan, Source};
use zerotrie_run::{Build, Place, Summary};

/// The members of a pair in a line of JSON, if none are named.
const MEMBERS: Names<'static> = Names {
    key: "key",
    value: "value",
};

/// Returns the line end with this name, or `None` if no line end has it.
fn end_named(name: &str) -> Option<LineEnd>
    ensures some { IfSome result (λ end. name.now ≡ end_word end) }
    ensures none { IfNone result ((end : LineEnd) → name.now ≡ end_word end → ⊥) }
{
    match name {
        "crlf" => Some(LineEnd::CrLf),
        "lf" => Some(LineEnd::Lf),
        _ => None,
    }
}

/// Returns the choice with this name, or `None` if no choice has it.
fn duplicates_named(name: &str) -> Option<Duplicates>
    ensures some { IfSome result (λ choice. name.now ≡ duplicates_word choice) }
    ensures none { IfNone result ((choice : Duplicates)
        → name.now ≡ duplicates_word choice → ⊥) }
{
    match name {
        "refuse" => Some(Duplicates::Refuse),
        "first" => Some(Duplicates::First),
        "last" => Some(Duplicates::Last),
        "sum" => Some(Duplicates::Sum),
        "min" => Some(Duplicates::Min),
        "max" => Some(Duplicates::Max),
        _ => None,
    }
}

impl<'a> MakeOptions<'a> {
    /// Returns what the file has: a trie with what is beside its bytes, or an index.
    fn form(&self) -> Result<FileForm, Misuse>
        ensures form { IfOk result (IsForm self.now) }
        ensures refused { IfErr result (IsFileMisuse self.now) }
    {
        match (self.tagged, self.bare, self.index) {
            (false, false, false) => Ok(FileForm::Sealed),
            (true, false, false) => Ok(FileForm::Tagged),
            (false, true, false) => Ok(FileForm::Bare),
            (false, false, true) => Ok(FileForm::Index),
            (true, true, false) => Err(Misuse::TaggedAndBare),
            (true, _, true) | (false, true, true) => Err(Misuse::IndexExcludes),
        }
    }

    /// Returns what the file has, and the kind of its trie, if one is named.
    pub fn content(&self) -> Result<(Option<TrieKind>, FileForm), Misuse>
        ensures kind { IfOk result (λ of. IsKind (text_of self.now.kind) of.0) }
        ensures form { IfOk result (λ of. IsForm self.now of.1) }
        ensures together { IfOk result (λ of. AreTogether of.1 of.0) }
        ensures refused { IfErr result (IsContentMisuse self.now) }
    {
        let kind = kind_of(self.kind)?;
        let form = self.form()?;
        match (form, kind) {
            (FileForm::Index, Some(_)) => Err(Misuse::IndexHasNoKind),
            (FileForm::Index, None) | (FileForm::Sealed | FileForm::Tagged | FileForm::Bare, _) => {
                Ok((kind, form))
            }
        }
    }

    /// Returns where the file goes. A path of standard output is that stream: what it leads to is not
    /// replaced.
    pub fn target(&self) -> Place<'a>
        ensures { IsTarget (text_of self.now.output) result }
    {
        match self.output {
            Some("/dev/stdout" | "/dev/fd/1") => Place::Stream,
            _ => place_of(self.output),
        }
    }

    /// Returns when it is reported what was made: always if that is asked for or messages go to a
    /// terminal, never if the command is to be quiet, and else if there are no keys.
    pub fn told(&self, to_terminal: bool) -> Result<Summary, Misuse>
        ensures summary { IfOk result (λ s.
            summary_by to_terminal self.now.summary self.now.quiet ≡ Some s) }
        ensures refused { IfErr result (IsSummaryMisuse self.now) }
    {
        match (self.summary, self.quiet) {
            (false, false) if to_terminal => Ok(Summary::Always),
            (false, false) => Ok(Summary::IfEmpty),
            (true, false) => Ok(Summary::Always),
            (false, true) => Ok(Summary::Never),
            (true, true) => Err(Misuse::SummaryAndQuiet),
        }
    }
}

impl<'a> BuildOptions<'a> {
    /// Returns the format of the input: the one that is named, or by the ending of its path.
    fn format(&self) -> Result<Input, Misuse>
        ensures format { IfOk result (IsFormat (text_of self.now.format) (text_of self.now.input)) }
        ensures refused { IfErr result
            (IsUnknown (NamesNone format_word (text_of self.now.format))) }
    {
        match self.format {
            Some(name) => Input::named(name).ok_or(Misuse::UnknownWord),
            None => Ok(Input::of_path(self.input.unwrap_or(""))),
        }
    }

    /// Returns what ends a line of an input of this format. JSON has no lines, and in a line of it a
    /// carriage return counts for nothing.
    fn end(&self, input: Input) -> Result<LineEnd, Misuse>
        ensures end { IfOk result (IsEnd (text_of self.now.eol)) }
        ensures lines { IfOk result (λ _. MayNameEnd input (text_of self.now.eol)) }
        ensures refused { IfErr result (IsEndMisuse input (text_of self.now.eol)) }
    {
        match (self.eol, input) {
            (None, _) => Ok(LineEnd::CrLf),
            (Some(_), Input::Json | Input::JsonLines) => Err(Misuse::EndOfJson),
            (Some(name), Input::Tsv | Input::Csv | Input::Lines) => {
                end_named(name).ok_or(Misuse::UnknownWord)
            }
        }
    }

    /// Returns the names of the columns or members of the pairs, if they are given.
    fn names(&self, input: Input) -> Result<Option<Names<'a>>, Misuse>
        ensures names { IfOk result
            (AreNames input (text_of self.now.key) (text_of self.now.value)) }
        ensures refused { IfErr result
            (IsNamesMisuse input (text_of self.now.key) (text_of self.now.value)) }
    {
        match (self.key, self.value, input) {
            (None, None, _) => Ok(None),
            (Some(_), None, _) | (None, Some(_), _) => Err(Misuse::OneName),
            (Some(key), Some(value), Input::Tsv | Input::Csv | Input::JsonLines) => {
                Ok(Some(Names { key, value }))
            }
            (Some(_), Some(_), Input::Lines | Input::Json) => Err(Misuse::NamesAreOfColumns),
        }
    }

    /// Returns whether a header is in front of an input of this format. Named columns have one.
    fn header(&self, input: Input, names: Option<Names<'a>>) -> Result<Header<'a>, Misuse>
        ensures header { IfOk result (IsHeader input self.now.header names.entry) }
        ensures refused { IfErr result (IsHeaderMisuse input self.now.header) }
    {
        match (input, self.header, names) {
            (Input::Tsv | Input::Csv, _, Some(names)) => Ok(Header::Named(names)),
            (Input::Tsv | Input::Csv, true, None) => Ok(Header::Present),
            (_, false, _) => Ok(Header::Absent),
            (Input::Lines | Input::Json | Input::JsonLines, true, _) => {
                Err(Misuse::HeaderIsOfColumns)
            }
        }
    }

    /// Returns how the input is pairs. Only `tsv` is raw.
    fn source(&self) -> Result<Source<'a>, Misuse>
        ensures input { IfOk result (IsInput self.now) }
        ensures refused { IfErr result (IsInputMisuse self.now) }
    {
        let input = self.format()?;
        let end = self.end(input)?;
        let names = self.names(input)?;
        let header = self.header(input, names)?;
        let format = match (input, self.raw) {
            (Input::Tsv, true) => Format::TsvRaw,
            (Input::Tsv, false) => Format::Tsv,
            (Input::Csv, false) => Format::Csv,
            (Input::Lines, false) => Format::Lines,
            (Input::Json, false) => return Ok(Source::Json),
            (Input::JsonLines, false) => return Ok(Source::JsonLines(names.unwrap_or(MEMBERS))),
            (Input::Csv | Input::Lines | Input::Json | Input::JsonLines, true) => {
                return Err(Misuse::RawIsTsv);
            }
        };
        Ok(Source::Text(TextForm {
            format,
            end,
            header,
        }))
    }

    /// Returns what becomes of a key that comes again.
    fn duplicates(&self) -> Result<Duplicates, Misuse>
        ensures choice { IfOk result (λ choice.
            text_of self.now.duplicates ≡ Some (duplicates_word choice)) }
        ensures refused { IfErr result (IsUnknown (IsNoChoice (text_of self.now.duplicates))) }
    {
        match self.duplicates {
            Some(name) => duplicates_named(name).ok_or(Misuse::UnknownWord),
            None => Err(Misuse::UnknownWord),
        }
    }

    /// Returns how the file is to be made.
    fn plan(&self) -> Result<Plan<'a>, Misuse>
        ensures plan { IfOk result (IsPlan self.now) }
        ensures refused { IfErr result (IsPlanMisuse self.now) }
    {
        let (kind, form) = self.make.content()?;
        Ok(Plan {
            read: ReadPlan {
                source: self.source()?,
                lower_case: self.lower_case,
                duplicates: self.duplicates()?,
            },
            file: FilePlan {
                kind,
                sorted: self.sorted,
                form,
            },
        })
    }

    /// Returns the build that is asked for. What it made is told always if messages go to a terminal.
    pub fn build(&self, to_terminal: bool) -> Result<Build<'a>, Misuse>
        ensures build { IfOk result (IsBuild self.now to_terminal) }
        ensures refused { IfErr result (IsBuildMisuse self.now) }
    {
        Ok(Build {
            from: source_of(self.input),
            to: self.make.target(),
            plan: self.plan()?,
            no_clobber: self.make.no_clobber,
            summary: self.make.told(to_terminal)?,
        })
    }
}
