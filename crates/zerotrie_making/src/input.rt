//! The pairs that an input is.

ghost use Rattle.std.specs.Prelude.{◌≡◌, IfOk, IfErr, IfSome};
ghost use Rattle.zerotrie_lines.specs.Tables.{Pairs, pairs_of, lowered};
ghost use Rattle.zerotrie_making.specs.Sources.{IsPairs, NoPairs};

use crate::error::MakeError;
use crate::json_lines::read_json_lines;
use crate::json_pairs::read_json;
use crate::plan::{ReadPlan, Source};
use std::alloc::{AllocError, Global};
use zerotrie_lines::{Table, read_items, read_pairs};

/// Reads the pairs of an input, in their order, whose keys borrow it. `None` if `read_input` has to
/// copy them.
pub(crate) fn items_in<'a>(
    alloc: Global,
    read: ReadPlan<'_>,
    input: &'a [u8],
) -> Result<Option<Vec<(&'a [u8], usize)>>, AllocError>
    ensures { IfOk result (λ items. IfSome items (λ items. (pairs : Pairs)
        × IsPairs read.entry.source input.now pairs
        × (pairs_of items.items ≡ lowered read.entry.lower_case pairs))) }
{
    match read.source {
        Source::Text(form) if !read.lower_case => read_items(alloc, form, input),
        _ => Ok(None),
    }
}

/// Returns the pairs, with the ASCII letters of their keys in lower case if that is asked for.
fn lowered(lower_case: bool, pairs: Table) -> Table
    ensures { result ≡ lowered lower_case pairs }
{
    let mut table = pairs;
    if lower_case {
        table.lower_case();
    }
    table
}

/// Reads the pairs of an input, in their order. If the plan says so, the ASCII letters of their keys
/// become lower case.
pub(crate) fn read_input(
    alloc: Global,
    read: ReadPlan<'_>,
    input: &[u8],
) -> Result<Table, MakeError>
    ensures ok { IfOk result (λ table. (pairs : Pairs) × IsPairs read.entry.source input.now pairs
        × (table ≡ lowered read.entry.lower_case pairs)) }
    ensures err { IfErr result (λ e. NoPairs read.entry.source input.now e) }
{
    match read.source {
        Source::Text(form) => Ok(read_pairs(alloc, form, read.lower_case, input)?),
        Source::Json => Ok(lowered(read.lower_case, read_json(alloc, input)?)),
        Source::JsonLines(names) => {
            Ok(lowered(read.lower_case, read_json_lines(alloc, names, input)?))
        }
    }
}
