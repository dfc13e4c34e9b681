//! The comparison that the command line asks for.

ghost use Rattle.std.specs.Prelude.{IfErr, IfOk, codes};
ghost use Rattle.zerotrie_words.specs.Diffs.{IsDiff};
ghost use Rattle.zerotrie_words.specs.Refusals.{IsNoKind, IsUnknown};
ghost use Rattle.zerotrie_words.specs.Words.{word_of};

use crate::misuse::Misuse;
use crate::names::{kind_of, source_of};
use clap::ArgMatches;
use zerotrie_run::Diff;

/// Returns the comparison that is asked for. It is an error if an option has a wrong word.
pub fn diff_in<'a>(matches: &ArgMatches<'a>) -> Result<Diff<'a>, Misuse>
    ensures diff { IfOk result (IsDiff matches.now) }
    ensures refused { IfErr result
        (IsUnknown (IsNoKind (word_of matches.now (codes "bare-kind")))) }
{
    Ok(Diff {
        old: source_of(matches.get_str("OLD")),
        new: source_of(matches.get_str("NEW")),
        bare: kind_of(matches.get_str("bare-kind"))?,
    })
}
