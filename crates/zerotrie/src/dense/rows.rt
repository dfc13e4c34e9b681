//! The rows of a table to build, and which of them are dense.

ghost use Rattle.std.specs.Prelude.{◌≡◌, ◌≤◌, ◌⊎◌, IfOk, IfErr, OnOk, map, is_some, []};
ghost use Rattle.zerotrie_core.specs.declared.ZeroTrieBuildError.TheVariants.{OutOfMemory, CapacityExceeded};
ghost use Rattle.zerotrie_core.specs.Canonical.{size_of};
ghost use Rattle.zerotrie_core.specs.Items.{pairs_of};
ghost use Rattle.zerotrie_core.specs.Kind.{simple_ascii};
ghost use Rattle.zerotrie_core.specs.Maps.{Ascends, value_at};
ghost use Rattle.zerotrie.specs.dense.Layout.{laid, is_dense};
ghost use Rattle.zerotrie.specs.dense.RowFaults.{AreAsciiTexts, IsRowRefusal, SomeWideWindow};
ghost use Rattle.zerotrie.specs.dense.Views.{row_shown, pairs_in, rows_in};
ghost use Rattle.zerotrie.specs.dense.Windows.{within, without, offset, values, in_window, fullest};
ghost use Rattle.zerotrie.specs.dense.Rows.{IsInOrder, keys, texts};
ghost use Rattle.std.specs.List.Sorted.{IsSorted};
ghost use Rattle.std.specs.Ordering.{nat_cmp};

use std::alloc::{AllocError, Global};
use std::collections::BTreeMap;
use zerotrie_build::{ByteSliceWithIndices, encoded_len};
use zerotrie_core::{Simple, ZeroTrieBuildError, ZeroTrieBuilderOptions};

/// A row of a table.
#[derive(Debug, Drop)]
pub(crate) struct Row<'m, 's> {
    /// The prefix that names the row.
    pub(crate) prefix: &'m str,
    /// Its suffixes and their values.
    pub(crate) entries: &'m BTreeMap<&'s str, usize>,
    /// The first number of its window.
    pub(crate) offset: usize,
    /// Whether its window is in the matrix.
    pub(crate) is_dense: bool,
}

/// Returns the values of a row.
fn values_of(alloc: Global, entries: &BTreeMap<&str, usize>) -> Result<Vec<usize>, AllocError>
    ensures values { IfOk result (λ v. v.items ≡ values (pairs_in entries.now.entries)) }
    ensures ascends { OnOk result (Ascends (pairs_in entries.now.entries)) }
{
    let mut values = Vec::new(alloc);
    for (_, value) in entries {
        values.push(*value)?;
    }
    Ok(values)
}

/// Returns the least start of a window that has the most of the values of a row.
fn offset_of(alloc: Global, entries: &BTreeMap<&str, usize>) -> Result<usize, AllocError>
    ensures offset { IfOk result (λ start. start ≡ offset (pairs_in entries.now.entries)) }
    ensures ascends { OnOk result (Ascends (pairs_in entries.now.entries)) }
{
    let mut values = values_of(alloc, entries)?;
    values.sort_unstable();
    Ok(fullest_in(values.as_slice()))
}

/// Returns the pairs of a row whose values are in the window that begins at `start`.
fn pairs_inside<'s>(
    alloc: Global,
    entries: &BTreeMap<&'s str, usize>,
    start: usize,
) -> Result<Vec<(&'s str, usize)>, AllocError>
    ensures { IfOk result (λ pairs.
        pairs_of pairs.items ≡ within start (pairs_in entries.now.entries)) }
{
    let mut pairs = Vec::new(alloc);
    for (suffix, value) in entries {
        if is_in_window(start, *value) {
            pairs.push((*suffix, *value))?;
        }
    }
    Ok(pairs)
}

/// Returns whether the row has the empty suffix with a value outside the window that begins at
/// `start`.
fn has_empty_outside(entries: &BTreeMap<&str, usize>, start: usize) -> bool
    requires { Ascends (pairs_in entries.now.entries) }
    ensures { result ≡ is_some
        (value_at simple_ascii (without start (pairs_in entries.now.entries)) []) }
{
    match entries.get("") {
        Some(value) => !is_in_window(start, *value),
        None => false,
    }
}

/// Returns the length that the trie of the window of a row would have.
fn window_len(
    alloc: Global,
    entries: &BTreeMap<&str, usize>,
    start: usize,
) -> Result<usize, ZeroTrieBuildError>
    requires start { start ≡ offset (pairs_in entries.now.entries) }
    requires ascends { Ascends (pairs_in entries.now.entries) }
    requires plain { AreAsciiTexts (keys (pairs_in entries.now.entries)) }
    ensures len { IfOk result (λ len.
        len ≡ size_of simple_ascii (within start (pairs_in entries.now.entries))) }
    ensures refused { IfErr result (IsRowRefusal (pairs_in entries.now.entries)) }
{
    let pairs = pairs_inside(alloc, entries, start)?;
    let items = ByteSliceWithIndices::from_str_slice(pairs.as_slice());
    let len = encoded_len(alloc, items, ZeroTrieBuilderOptions::of::<Simple>())?;
    Ok(len)
}

/// Returns whether a row is in the matrix of a table with this number of suffixes: its window would
/// be longer as a trie, and the empty suffix is not outside the window.
fn is_dense_row(
    alloc: Global,
    entries: &BTreeMap<&str, usize>,
    start: usize,
    columns: usize,
) -> Result<bool, ZeroTrieBuildError>
    requires start { start ≡ offset (pairs_in entries.now.entries) }
    requires ascends { Ascends (pairs_in entries.now.entries) }
    requires plain { AreAsciiTexts (keys (pairs_in entries.now.entries)) }
    requires few { columns ≤ 65535 }
    ensures dense { IfOk result (λ dense. dense ≡ is_dense columns (pairs_in entries.now.entries)) }
    ensures refused { IfErr result (IsRowRefusal (pairs_in entries.now.entries)) }
{
    let len = window_len(alloc, entries, start)?;
    Ok(len > 2 * columns && !has_empty_outside(entries, start))
}

/// Returns a row of a table with this number of suffixes.
fn row_of<'m, 's>(
    alloc: Global,
    prefix: &'m str,
    entries: &'m BTreeMap<&'s str, usize>,
    columns: usize,
) -> Result<Row<'m, 's>, ZeroTrieBuildError>
    requires plain { AreAsciiTexts (keys (pairs_in entries.now.entries)) }
    requires few { columns ≤ 65535 }
    ensures row { IfOk result (λ row.
        row_shown row ≡ laid columns (prefix.now, pairs_in entries.now.entries)) }
    ensures ascends { OnOk result (Ascends (pairs_in entries.now.entries)) }
    ensures refused { IfErr result (IsRowRefusal (pairs_in entries.now.entries)) }
{
    let offset = offset_of(alloc, entries)?;
    let is_dense = is_dense_row(alloc, entries, offset, columns)?;
    Ok(Row {
        prefix,
        entries,
        offset,
        is_dense,
    })
}

/// Returns the rows of a table with this number of suffixes, in their order.
#[tactic(auto, using(crate::proofs::RowsLemmas::plain_left, crate::proofs::RowsLemmas::plain_right))]
pub(crate) fn rows_of<'m, 's>(
    alloc: Global,
    entries: &'m BTreeMap<&str, BTreeMap<&'s str, usize>>,
    columns: usize,
) -> Result<Vec<Row<'m, 's>>, ZeroTrieBuildError>
    requires plain { AreAsciiTexts (texts (rows_in entries.now.entries)) }
    requires few { columns ≤ 65535 }
    ensures rows { IfOk result (λ rows.
        map row_shown rows.items ≡ map (laid columns) (rows_in entries.now.entries)) }
    ensures order { OnOk result (IsInOrder (rows_in entries.now.entries)) }
    ensures refused { IfErr result (λ e. (e ≡ OutOfMemory)
        ⊎ ((e ≡ CapacityExceeded) × SomeWideWindow (rows_in entries.now.entries))) }
{
    let mut rows = Vec::new(alloc);
    for (prefix, row) in entries {
        rows.push(row_of(alloc, prefix, row, columns)?)?;
    }
    Ok(rows)
}

/// The length of a window.
const WINDOW: usize = 65_535;

/// Returns whether the value is in the window that begins at `start`.
pub(crate) fn is_in_window(start: usize, value: usize) -> bool
    ensures { result ≡ in_window start value }
{
    start <= value && value - start < WINDOW
}

/// Returns the start of the window that has the most of the values; the least such start; 0 if
/// there are no values. The values must ascend.
///
/// A range of neighbours moves along the values. It grows while it fits a window, and otherwise
/// moves on by one, so in the end it is as long as the longest that fits.
pub(crate) fn fullest_in(values: &[usize]) -> usize
    requires { IsSorted nat_cmp values.now }
    ensures { result ≡ fullest values.now }
{
    let mut fullest = 0;
    let mut first = 0;
    for last in 0..values.len() {
        if is_in_window(values[first], values[last]) {
            fullest = values[first];
        } else {
            first += 1;
        }
    }
    fullest
}
