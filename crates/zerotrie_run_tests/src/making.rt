//! Files made of inputs, of which the laws of `zerotrie_making` say what follows: so their premises can
//! be met.

ghost use Rattle.std.specs.Prelude.{◌≡◌, ◌≢◌, [], Some, None, IfErr, IfNone, IfOk, IfSome};
ghost use Rattle.zerotrie_core.specs.Kinds.{kind_of};
ghost use Rattle.zerotrie_core.specs.Maps.{Pairs, beginning};
ghost use Rattle.zerotrie_core.specs.Texts.{Lists};
ghost use Rattle.zerotrie_core.specs.WellFormed.{IsWellFormed};
ghost use Rattle.zerotrie_core.specs.declared.ZeroTrieBuildError.TheVariants.{CouldNotSolvePerfectHash};
ghost use Rattle.zerotrie_index.specs.declared.error.ZeroIndexBuildError.TheVariants.{Crowded};
ghost use Rattle.zerotrie_making.specs.Json.{whole};
ghost use Rattle.zerotrie_making.specs.Made.{IsMade};
ghost use Rattle.zerotrie_making.specs.declared.error.MakeError.TheVariants.{IndexRefused, OutOfMemory, Refused};
ghost use Rattle.zerotrie_queries.specs.Printed.{lines_of, pair_line};
ghost use Rattle.zerotrie_queries.specs.declared.print.Style.TheVariants.{Tsv};
ghost use Rattle.zerotrie_run_tests.specs.Making.{MakesNone, MeanPairsOf, MeanSame, NoPlanMakes, SaysNoPairs, bare_plan};

use std::alloc::Global;
use std::ops::Bound;
use zerotrie_core::{TrieKind, TrieRef};
use zerotrie_files::Noted;
use zerotrie_lines::laws::{bad_is_unread, lines_read_back};
use zerotrie_lines::{TSV, parse_number};
use zerotrie_making::laws::{
    listed_is_made_again, refused_makes_no_file, unread_makes_no_file, whole_is_number,
};
use zerotrie_making::{
    Duplicates, FileForm, FilePlan, Made, MakeError, Plan, ReadPlan, Source, make,
};
use zerotrie_queries::{Choice, Form, ListQuery, Order, Style, write_list};
use zerotrie_search::KeyRange;

/// Returns how a trie of this kind is made of lines, as bytes alone.
fn plan_of(kind: TrieKind) -> Plan<'static>
    ensures { result ≡ bare_plan kind }
{
    Plan {
        read: ReadPlan {
            source: Source::Text(TSV),
            lower_case: false,
            duplicates: Duplicates::Refuse,
        },
        file: FilePlan {
            kind: Some(kind),
            sorted: false,
            form: FileForm::Bare,
        },
    }
}

/// Lists all pairs of a trie as lines. In memory that fails only if an allocation does.
fn listing_of(alloc: Global, kind: TrieKind, bytes: &[u8]) -> Result<Vec<u8>, MakeError>
    ensures ok { IfOk result (λ text. (pairs : Pairs) → Lists (kind_of kind) bytes.now pairs
        → text.items ≡ lines_of (pair_line Tsv) (beginning (kind_of kind) [] pairs)) }
    ensures err { IfErr result (λ e. e ≡ OutOfMemory) }
{
    let all = ListQuery {
        choice: Choice {
            prefix: b"",
            range: KeyRange {
                from: Bound::Unbounded,
                to: Bound::Unbounded,
            },
            without: None,
            sought: None,
        },
        order: Order::Stored,
        top: None,
        limit: None,
    };
    let trie = TrieRef { kind, bytes };
    let mut text = Noted::new(Vec::new(alloc));
    match write_list(alloc, &trie, Form::Lines(Style::Tsv), all, &mut text) {
        Ok(()) => Ok(Vec::from_slice(alloc, text.get_ref().as_slice())?),
        Err(_) => Err(MakeError::OutOfMemory),
    }
}

/// Makes a trie again of the lines in which it is listed. It means the same map. No error says that the
/// lines are no pairs.
pub fn makes_listed(alloc: Global, kind: TrieKind, bytes: &[u8]) -> Result<Made, MakeError>
    ensures same { IfOk result (λ made. MeanSame kind bytes.now made.file.items) }
    ensures read { IfErr result (λ e. IsWellFormed (kind_of kind) bytes.now → SaysNoPairs e → ⊥) }
{
    listed_is_made_again();
    lines_read_back();
    bad_is_unread();
    let text = listing_of(alloc, kind, bytes)?;
    make(alloc, plan_of(kind), text)
}

/// Makes a trie of lines, and makes it again of its listing. Both mean the map of the pairs of the lines.
pub fn makes_again(alloc: Global, kind: TrieKind, lines: Vec<u8>) -> Result<(Made, Made), MakeError>
    ensures { IfOk result (λ made.
        MeanPairsOf lines.items kind made.0.file.items made.1.file.items) }
{
    let first = make(alloc, plan_of(kind), lines)?;
    let second = makes_listed(alloc, kind, first.file.as_slice())?;
    Ok((first, second))
}

/// Makes a file of an input. If the error says something of the input, the plan makes no file of it, and
/// if it says that it is no pairs, no plan does that reads it so.
pub fn makes(alloc: Global, plan: Plan<'_>, input: Vec<u8>) -> Result<Made, MakeError>
    ensures made { IfOk result (IsMade plan.entry input.items) }
    ensures none { IfErr result (λ e. e ≢ OutOfMemory → e ≢ Refused CouldNotSolvePerfectHash
        → e ≢ IndexRefused Crowded → MakesNone plan.entry input.items) }
    ensures unread { IfErr result (λ e. SaysNoPairs e → NoPlanMakes plan.entry.read.source input.items) }
{
    refused_makes_no_file();
    unread_makes_no_file();
    make(alloc, plan, input)
}

/// Parses a value of a line. In JSON the same digits are the same value, or none.
pub fn parses_value(digits: &[u8]) -> Option<usize>
    ensures some { IfSome result (λ value. whole digits.now ≡ Some value) }
    ensures none { IfNone result (whole digits.now ≡ None) }
{
    whole_is_number();
    parse_number(digits)
}
