//! Builds dense tables.

ghost use Rattle.std.specs.Prelude.{◌≡◌, ◌≤◌, ◌<◌, ◌^◌, ◌⊎◌, ◌++◌, ◌∷◌, IfOk, IfErr, OnOk, map, Contains};
ghost use Rattle.zerotrie_core.specs.declared.ZeroTrieBuildError.TheVariants.{OutOfMemory, NonAsciiError, CapacityExceeded};
ghost use Rattle.zerotrie_core.specs.Items.{pairs_of, keyed};
ghost use Rattle.zerotrie_core.specs.Maps.{Ascends, value_at};
ghost use Rattle.zerotrie_core.specs.Kind.{simple_ascii};
ghost use Rattle.zerotrie.specs.dense.Layout.{beside, row_cells, dense_cells, numbers, row_offsets, others, under, laid_pairs, cell_of};
ghost use Rattle.zerotrie.specs.dense.RowFaults.{AllAscend, AllInRange, AreAsciiTexts, AreApart, AreInRange, HasTextFault, IsTextFault, IsAsciiText};
ghost use Rattle.zerotrie.specs.dense.Views.{row_shown, owned_parts, pairs_in, rows_in};
ghost use Rattle.zerotrie.specs.dense.Windows.{within};
ghost use Rattle.zerotrie.specs.dense.Laws.{IsDenseBuild};
ghost use Rattle.zerotrie.specs.dense.Records.{matrix_bytes};
ghost use Rattle.zerotrie.specs.dense.Rows.{keys, placed, put_texts, suffixes, texts};

use crate::dense::rows::{Row, is_in_window, rows_of};
use crate::dense::table::ZeroAsciiDenseSparse2dTrieOwned;
use std::alloc::{AllocError, Global};
use std::collections::{BTreeMap, BTreeSet};
use zerotrie_ascii::ZeroTrieSimpleAscii;
use zerotrie_core::ZeroTrieBuildError;

/// A key of the primary trie, and its value.
type Pair = (Vec<u8>, usize);

/// Returns an error if a string is not ASCII or has the delimiter.
fn check_text(text: &str, delimiter: u8) -> Result<(), ZeroTrieBuildError>
    ensures plain { OnOk result (IsAsciiText text.now) }
    ensures apart { OnOk result (Contains text.now delimiter → ⊥) }
    ensures fault { IfErr result (IsTextFault delimiter text.now) }
{
    if !text.is_ascii() {
        return Err(ZeroTrieBuildError::NonAsciiError);
    }
    if text.as_bytes().contains(&delimiter) {
        return Err(ZeroTrieBuildError::IllegalDelimiter);
    }
    Ok(())
}

/// States that a value is a number of eight bytes. Does nothing.
fn fits_eight_bytes(value: usize)
    ensures { value < 2 ^ 64 }
{}

/// Checks the suffixes of a row.
fn check_row(entries: &BTreeMap<&str, usize>, delimiter: u8) -> Result<(), ZeroTrieBuildError>
    ensures plain { OnOk result (AreAsciiTexts (keys (pairs_in entries.now.entries))) }
    ensures apart { OnOk result (AreApart delimiter (keys (pairs_in entries.now.entries))) }
    ensures values { OnOk result (AreInRange (pairs_in entries.now.entries)) }
    ensures fault { IfErr result (HasTextFault delimiter (keys (pairs_in entries.now.entries))) }
{
    for (suffix, value) in entries {
        fits_eight_bytes(*value);
        check_text(suffix, delimiter)?;
    }
    Ok(())
}

/// Checks the delimiter and all prefixes and suffixes of a table.
#[tactic(auto, using(crate::proofs::BuildLemmas::plain_append, crate::proofs::BuildLemmas::apart_append, crate::proofs::BuildLemmas::fault_left, crate::proofs::BuildLemmas::fault_right))]
fn check_texts(
    entries: &BTreeMap<&str, BTreeMap<&str, usize>>,
    delimiter: u8,
) -> Result<(), ZeroTrieBuildError>
    ensures delimiter { OnOk result (delimiter < 128) }
    ensures plain { OnOk result (AreAsciiTexts (texts (rows_in entries.now.entries))) }
    ensures apart { OnOk result (AreApart delimiter (texts (rows_in entries.now.entries))) }
    ensures values { OnOk result (AllInRange (rows_in entries.now.entries)) }
    ensures fault { IfErr result (λ e. ((e ≡ NonAsciiError) × (128 ≤ delimiter))
        ⊎ HasTextFault delimiter (texts (rows_in entries.now.entries)) e) }
{
    if !delimiter.is_ascii() {
        return Err(ZeroTrieBuildError::NonAsciiError);
    }
    for (prefix, row) in entries {
        check_text(prefix, delimiter)?;
        check_row(row, delimiter)?;
    }
    Ok(())
}

/// Adds the suffixes of a row to those of other rows.
#[tactic(auto, using(crate::proofs::BuildLemmas::insert_put))]
fn put_suffixes<'s>(
    entries: &BTreeMap<&'s str, usize>,
    suffixes: &mut BTreeSet<&'s str>,
) -> Result<(), AllocError>
    ensures { OnOk result (map (λ s. s.now) suffixes.new.keys
        ≡ put_texts (keys (pairs_in entries.now.entries)) (map (λ s. s.now) suffixes.old.keys)) }
{
    for (suffix, _) in entries {
        suffixes.insert(*suffix)?;
    }
    Ok(())
}

/// Returns the suffixes of all rows, each once.
#[tactic(auto, using(crate::proofs::BuildLemmas::puts_append), unfolding(crate::specs::dense::Rows::suffixes))]
fn suffixes_of<'s>(
    alloc: Global,
    entries: &BTreeMap<&str, BTreeMap<&'s str, usize>>,
) -> Result<BTreeSet<&'s str>, AllocError>
    ensures { IfOk result (λ set.
        map (λ s. s.now) set.keys ≡ suffixes (rows_in entries.now.entries)) }
{
    let mut suffixes = BTreeSet::new(alloc);
    for (_, row) in entries {
        put_suffixes(row, &mut suffixes)?;
    }
    Ok(suffixes)
}

/// Returns each suffix with its column.
fn columns_of<'s>(
    alloc: Global,
    suffixes: &BTreeSet<&'s str>,
) -> Result<Vec<(&'s [u8], usize)>, AllocError>
    ensures columns { IfOk result (λ columns.
        pairs_of columns.items ≡ placed 0 (map (λ s. s.now) suffixes.now.keys)) }
    ensures ascends { OnOk result (Ascends (placed 0 (map (λ s. s.now) suffixes.now.keys))) }
{
    let mut columns = Vec::new(alloc);
    for suffix in suffixes {
        let column = columns.len();
        columns.push((suffix.as_bytes(), column))?;
    }
    Ok(columns)
}

/// Returns a prefix, the delimiter and a suffix, one after another.
fn key_of(alloc: Global, prefix: &str, delimiter: u8, suffix: &str) -> Result<Vec<u8>, AllocError>
    ensures { IfOk result (λ key. key.items ≡ prefix.now ++ (delimiter ∷ suffix.now)) }
{
    let mut key = Vec::from_slice(alloc, prefix.as_bytes())?;
    key.push(delimiter)?;
    key.extend_from_slice(suffix.as_bytes())?;
    Ok(key)
}

/// Adds the prefix of each dense row, with the row's number.
fn push_numbers(
    alloc: Global,
    rows: &[Row<'_, '_>],
    pairs: &mut Vec<Pair>,
) -> Result<(), ZeroTrieBuildError>
    ensures pushed { OnOk result (keyed (λ k. k.items) pairs.new.items
        ≡ keyed (λ k. k.items) pairs.old.items ++ numbers 0 (map row_shown rows.now)) }
    ensures refused { IfErr result (λ e. e ≡ OutOfMemory) }
{
    let mut number = 0;
    for row in rows {
        if row.is_dense {
            pairs.push((Vec::from_slice(alloc, row.prefix.as_bytes())?, number))?;
            number += 1;
        }
    }
    Ok(())
}

/// Adds the prefix of each dense row and the delimiter, with the row's offset.
fn push_offsets(
    alloc: Global,
    rows: &[Row<'_, '_>],
    delimiter: u8,
    pairs: &mut Vec<Pair>,
) -> Result<(), ZeroTrieBuildError>
    ensures pushed { OnOk result (keyed (λ k. k.items) pairs.new.items
        ≡ keyed (λ k. k.items) pairs.old.items ++ row_offsets delimiter (map row_shown rows.now)) }
    ensures refused { IfErr result (λ e. e ≡ OutOfMemory) }
{
    for row in rows {
        if row.is_dense {
            pairs.push((key_of(alloc, row.prefix, delimiter, "")?, row.offset))?;
        }
    }
    Ok(())
}

/// Adds the values of a row that are not in the matrix.
fn push_others_of(
    alloc: Global,
    row: &Row<'_, '_>,
    delimiter: u8,
    pairs: &mut Vec<Pair>,
) -> Result<(), ZeroTrieBuildError>
    ensures pushed { OnOk result (keyed (λ k. k.items) pairs.new.items
        ≡ keyed (λ k. k.items) pairs.old.items
        ++ under row.now.prefix.now delimiter (beside (row_shown row.now))) }
    ensures refused { IfErr result (λ e. e ≡ OutOfMemory) }
{
    for (suffix, value) in row.entries {
        if !(row.is_dense && is_in_window(row.offset, *value)) {
            pairs.push((key_of(alloc, row.prefix, delimiter, suffix)?, *value))?;
        }
    }
    Ok(())
}

/// Adds the values of all rows that are not in the matrix.
fn push_others(
    alloc: Global,
    rows: &[Row<'_, '_>],
    delimiter: u8,
    pairs: &mut Vec<Pair>,
) -> Result<(), ZeroTrieBuildError>
    ensures pushed { OnOk result (keyed (λ k. k.items) pairs.new.items
        ≡ keyed (λ k. k.items) pairs.old.items ++ others delimiter (map row_shown rows.now)) }
    ensures refused { IfErr result (λ e. e ≡ OutOfMemory) }
{
    for row in rows {
        push_others_of(alloc, row, delimiter, pairs)?;
    }
    Ok(())
}

/// Returns the pairs of the primary trie.
fn primary_of(
    alloc: Global,
    rows: &[Row<'_, '_>],
    delimiter: u8,
) -> Result<Vec<Pair>, ZeroTrieBuildError>
    ensures pairs { IfOk result (λ pairs.
        keyed (λ k. k.items) pairs.items ≡ laid_pairs delimiter (map row_shown rows.now)) }
    ensures refused { IfErr result (λ e. e ≡ OutOfMemory) }
{
    let mut pairs = Vec::new(alloc);
    push_numbers(alloc, rows, &mut pairs)?;
    push_offsets(alloc, rows, delimiter, &mut pairs)?;
    push_others(alloc, rows, delimiter, &mut pairs)?;
    Ok(pairs)
}

/// Returns the cell of a suffix: the value in the row's window minus the row's offset, or 65,535.
fn cell_in(row: &Row<'_, '_>, suffix: &str) -> u16
    requires { Ascends (row_shown row.now).pairs }
    ensures { result ≡ cell_of row.now.offset
        (value_at simple_ascii (within row.now.offset (row_shown row.now).pairs) suffix.now) }
{
    match row.entries.get(suffix) {
        Some(value) => {
            if is_in_window(row.offset, *value) {
                (*value - row.offset) as u16
            } else {
                u16::MAX
            }
        }
        None => u16::MAX,
    }
}

/// Adds the cells of a row.
fn push_cells(
    row: &Row<'_, '_>,
    suffixes: &BTreeSet<&str>,
    matrix: &mut Vec<u8>,
) -> Result<(), AllocError>
    requires { Ascends (row_shown row.now).pairs }
    ensures { OnOk result (matrix.new.items
        ≡ matrix.old.items ++ matrix_bytes
        (row_cells (map (λ s. s.now) suffixes.now.keys) (row_shown row.now))) }
{
    for suffix in suffixes {
        let cell = cell_in(row, suffix);
        matrix.extend_from_slice(&cell.to_le_bytes())?;
    }
    Ok(())
}

/// Returns the cells of the dense rows.
#[tactic(auto, using(crate::proofs::BuildLemmas::matrix_more))]
fn matrix_of(
    alloc: Global,
    rows: &[Row<'_, '_>],
    suffixes: &BTreeSet<&str>,
) -> Result<Vec<u8>, AllocError>
    requires { AllAscend (map row_shown rows.now) }
    ensures { IfOk result (λ matrix. matrix.items
        ≡ matrix_bytes (dense_cells (map (λ s. s.now) suffixes.now.keys) (map row_shown rows.now))) }
{
    let mut matrix = Vec::new(alloc);
    for row in rows {
        if row.is_dense {
            push_cells(row, suffixes, &mut matrix)?;
        }
    }
    Ok(matrix)
}

impl ZeroAsciiDenseSparse2dTrieOwned {
    /// Builds the table of a map from prefixes to maps from suffixes to numbers. A row without
    /// suffixes adds nothing.
    ///
    /// ```
    /// use zerotrie::dense::ZeroAsciiDenseSparse2dTrieOwned;
    ///
    /// let mut row: BTreeMap<&str, usize> = BTreeMap::new(rt.alloc());
    /// row.insert("US", 8)?;
    /// let mut rows: BTreeMap<&str, BTreeMap<&str, usize>> = BTreeMap::new(rt.alloc());
    /// rows.insert("en", row)?;
    /// let table = ZeroAsciiDenseSparse2dTrieOwned::try_from_btree_map_str(rt.alloc(), &rows, b'/')?;
    /// assert_eq!(rt; table.as_borrowed().get("en", "US"), Some(8));
    /// assert_eq!(rt; table.as_borrowed().get("en", "UK"), None);
    /// ```
    ///
    /// # Errors
    ///
    /// - `NonAsciiError` if a string or the delimiter is not ASCII,
    /// - `IllegalDelimiter` if a string has the delimiter,
    /// - `CapacityExceeded` if there are more than 65,535 suffixes, or the primary trie, the trie
    ///   of the suffixes or the trie of a row's window would exceed the capacity of its kind,
    /// - `OutOfMemory` if an allocation fails.
    pub fn try_from_btree_map_str(
        alloc: Global,
        entries: &BTreeMap<&str, BTreeMap<&str, usize>>,
        delimiter: u8,
    ) -> Result<Self, ZeroTrieBuildError>
        ensures { IsDenseBuild owned_parts delimiter (rows_in entries.now.entries) result }
    {
        check_texts(entries, delimiter)?;
        let suffixes = suffixes_of(alloc, entries)?;
        let columns = columns_of(alloc, &suffixes)?;
        let Ok(suffix_count) = u16::try_from(columns.len()) else {
            return Err(ZeroTrieBuildError::CapacityExceeded);
        };
        let rows = rows_of(alloc, entries, columns.len())?;
        let pairs = primary_of(alloc, rows.as_slice(), delimiter)?;
        Ok(ZeroAsciiDenseSparse2dTrieOwned {
            primary: ZeroTrieSimpleAscii::try_from_iter(alloc, pairs)?,
            suffixes: ZeroTrieSimpleAscii::try_from_sorted_slice(alloc, columns.as_slice())?,
            matrix: matrix_of(alloc, rows.as_slice(), &suffixes)?,
            suffix_count,
            delimiter,
        })
    }
}
