//! The entries of a dense table, two lists of strings and one of values, as a map of maps.

ghost use Rattle.std.specs.Prelude.{◌≡◌, ◌↔◌, ◌≤◌, ◌⊎◌, ◌<◌, ◌∷◌, [], ℕ, IsTrue, Some, IfOk, IfErr, OnOk, Any, map, length};
ghost use Rattle.std.specs.List.{slice_get};
ghost use Rattle.zerotrie_core.specs.declared.ZeroTrieBuildError.TheVariants.{NonAsciiError, Unsorted, OutOfMemory};
ghost use Rattle.zerotrie_core.specs.Maps.{Ascends, FirstAbove};
ghost use Rattle.zerotrie.specs.dense.Rows.{placed};
ghost use Rattle.zerotrie.specs.dense.Views.{pairs_in, rows_in};
ghost use Rattle.zerotrie_c.specs.Entries.{entry_before, rows_given, start_at, NoRows};
ghost use Rattle.zerotrie_c.specs.Keys.{keys_from};

use crate::many::key_between;
use std::alloc::Global;
use std::cmp::Ordering;
use std::collections::BTreeMap;
use zerotrie_core::ZeroTrieBuildError;

/// Strings one after another, and where each ends.
#[derive(Clone, Copy)]
pub struct Texts<'a> {
    pub bytes: &'a [u8],
    pub ends: &'a [usize],
}

/// Returns bytes as a string.
fn text_of(bytes: &[u8]) -> Result<&str, ZeroTrieBuildError>
    ensures text { IfOk result (λ s. s.now ≡ bytes.now) }
    ensures refused { IfErr result (λ e. (e ≡ NonAsciiError) × Any (λ b. 128 ≤ b) bytes.now) }
{
    match str::from_utf8(bytes) {
        Ok(text) => Ok(text),
        Err(_) => Err(ZeroTrieBuildError::NonAsciiError),
    }
}

/// Returns whether a suffix is below all those of a row.
fn is_below(suffix: &str, row: &BTreeMap<&str, usize>) -> bool
    ensures { IsTrue result ↔ FirstAbove suffix.now (pairs_in row.now.entries) }
{
    match row.first_key_value() {
        Some((first, _)) => suffix < *first,
        None => true,
    }
}

/// Adds a suffix at the beginning of a row.
fn put_suffix<'t>(
    row: &mut BTreeMap<&'t str, usize>,
    suffix: &'t str,
    value: usize,
) -> Result<(), ZeroTrieBuildError>
    ensures put { OnOk result (pairs_in row.new.entries ≡ (suffix.now, value) ∷ pairs_in row.old.entries) }
    ensures refused { IfErr result (λ e. (e ≡ OutOfMemory)
        ⊎ ((e ≡ Unsorted) × (Ascends ((suffix.now, value) ∷ pairs_in row.old.entries) → ⊥))) }
{
    if !is_below(suffix, row) {
        return Err(ZeroTrieBuildError::Unsorted);
    }
    row.insert(suffix, value)?;
    Ok(())
}

/// Returns a row of one suffix.
fn row_of<'t>(
    alloc: Global,
    suffix: &'t str,
    value: usize,
) -> Result<BTreeMap<&'t str, usize>, ZeroTrieBuildError>
    ensures row { IfOk result (λ row. pairs_in row.entries ≡ (suffix.now, value) ∷ []) }
    ensures refused { IfErr result (λ e. e ≡ OutOfMemory) }
{
    let mut row = BTreeMap::new(alloc);
    row.insert(suffix, value)?;
    Ok(row)
}

/// Adds a row before others.
fn put_row<'t>(
    rows: &mut BTreeMap<&'t str, BTreeMap<&'t str, usize>>,
    prefix: &'t str,
    row: BTreeMap<&'t str, usize>,
) -> Result<(), ZeroTrieBuildError>
    requires { FirstAbove prefix.now (placed 0 (map (λ row. row.0) (rows_in rows.old.entries))) }
    ensures put { OnOk result (rows_in rows.new.entries ≡ (prefix.now, pairs_in row.entry.entries) ∷ rows_in rows.old.entries) }
    ensures refused { IfErr result (λ e. e ≡ OutOfMemory) }
{
    rows.insert(prefix, row)?;
    Ok(())
}

/// Adds an entry before rows. Its prefix is that of the first row, or below it.
fn put_entry<'t>(
    alloc: Global,
    rows: &mut BTreeMap<&'t str, BTreeMap<&'t str, usize>>,
    prefix: &'t str,
    suffix: &'t str,
    value: usize,
) -> Result<(), ZeroTrieBuildError>
    ensures put { OnOk result (rows_in rows.new.entries
        ≡ entry_before (prefix.now, suffix.now, value) (rows_in rows.old.entries)) }
    ensures refused { IfErr result (NoRows (entry_before (prefix.now, suffix.now, value) (rows_in rows.old.entries))) }
{
    let Some((first, mut row)) = rows.pop_first() else {
        let row = row_of(alloc, suffix, value)?;
        return put_row(rows, prefix, row);
    };
    match prefix.cmp(first) {
        Ordering::Less => {
            put_row(rows, first, row)?;
            let row = row_of(alloc, suffix, value)?;
            put_row(rows, prefix, row)
        }
        Ordering::Equal => {
            put_suffix(&mut row, suffix, value)?;
            put_row(rows, first, row)
        }
        Ordering::Greater => Err(ZeroTrieBuildError::Unsorted),
    }
}

/// Adds an entry whose strings are bytes before rows.
fn put_texts<'t>(
    alloc: Global,
    rows: &mut BTreeMap<&'t str, BTreeMap<&'t str, usize>>,
    prefix: &'t [u8],
    suffix: &'t [u8],
    value: usize,
) -> Result<(), ZeroTrieBuildError>
    ensures put { OnOk result (rows_in rows.new.entries
        ≡ entry_before (prefix.now, suffix.now, value) (rows_in rows.old.entries)) }
    ensures refused { IfErr result (NoRows (entry_before (prefix.now, suffix.now, value) (rows_in rows.old.entries))) }
{
    let prefix = text_of(prefix)?;
    let suffix = text_of(suffix)?;
    put_entry(alloc, rows, prefix, suffix, value)
}

/// Returns where the key with this number begins: where the one before it ends.
fn start_of(ends: &[usize], number: usize) -> usize
    requires { number < length ends.now }
    ensures { result ≡ start_at ends.now number }
{
    match number {
        0 => 0,
        _ => ends[number - 1],
    }
}

/// Returns the key with this number.
fn key_at<'b>(bytes: &'b [u8], ends: &[usize], number: usize) -> &'b [u8]
    requires { number < length ends.now }
    ensures { slice_get (keys_from 0 bytes.now ends.now) number ≡ Some result.now }
{
    key_between(bytes, start_of(ends, number), ends[number])
}

/// Returns the rows of entries, which are sorted by prefix, and under one prefix by suffix.
///
/// There are as many entries as the shortest of the three lists has.
pub fn rows_of<'t>(
    alloc: Global,
    prefixes: Texts<'t>,
    suffixes: Texts<'t>,
    values: &[usize],
) -> Result<BTreeMap<&'t str, BTreeMap<&'t str, usize>>, ZeroTrieBuildError>
    ensures rows { IfOk result (λ rows. rows_in rows.entries ≡ rows_given prefixes.entry.bytes.now
        prefixes.entry.ends.now suffixes.entry.bytes.now suffixes.entry.ends.now values.now) }
    ensures refused { IfErr result (NoRows (rows_given prefixes.entry.bytes.now prefixes.entry.ends.now
        suffixes.entry.bytes.now suffixes.entry.ends.now values.now)) }
{
    let count = prefixes
        .ends
        .len()
        .min(suffixes.ends.len())
        .min(values.len());
    let mut rows = BTreeMap::new(alloc);
    for number in (0..count).rev() {
        let prefix = key_at(prefixes.bytes, prefixes.ends, number);
        let suffix = key_at(suffixes.bytes, suffixes.ends, number);
        put_texts(alloc, &mut rows, prefix, suffix, values[number])?;
    }
    Ok(rows)
}
