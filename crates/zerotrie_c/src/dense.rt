//! Dense tables: two-dimensional maps from two strings to numbers, each as a record of bytes.

ghost use Rattle.std.specs.Prelude.{◌≡◌, ◌≢◌, ◌↔◌, ◌<◌, length, IfOk, IfErr};
ghost use Rattle.zerotrie.specs.dense.Laws.{IsWhole};
ghost use Rattle.zerotrie.specs.dense.Records.{Parts, record_of, asked};
ghost use Rattle.zerotrie.specs.dense.Tables.{IsDenseTable};
ghost use Rattle.zerotrie.specs.dense.Views.{rows_in};
ghost use Rattle.zerotrie_c.specs.Dense.{IsDenseAnswerTold, IsDenseBuildTold, IsDenseRefusal, IsEntryTold};
ghost use Rattle.zerotrie_c.specs.Entries.{rows_given};
ghost use Rattle.zerotrie_c.specs.Statuses.{done, record_truncated, trailing_bytes};

use crate::builds::hand_out;
use crate::entries::{Texts, rows_of};
use crate::numbers::{DONE, NO_ENTRY, RECORD_TRUNCATED, TRAILING_BYTES, status_of};
use std::alloc::Global;
use std::collections::BTreeMap;
use zerotrie::dense::{
    RecordError, ZeroAsciiDenseSparse2dTrieBorrowed, ZeroAsciiDenseSparse2dTrieOwned,
};
use zerotrie_core::ZeroTrieBuildError;

/// Sets `value` to the value found, if there is one.
fn tell(answer: Option<usize>, value: &mut usize) -> u32
    ensures { IsEntryTold answer result value.old value.new }
{
    match answer {
        Some(found) => {
            *value = found;
            DONE
        }
        None => NO_ENTRY,
    }
}

/// Looks up a suffix under a prefix in the table of this record. If there is a value, sets `value`
/// to it.
#[unsafe(no_mangle)]
pub extern "C" fn zerotrie_dense_get(
    bytes: &[u8],
    prefix: &[u8],
    suffix: &[u8],
    value: &mut usize,
) -> u32
    ensures table { (t : Parts) → IsWhole t → bytes.now ≡ record_of t
        → IsDenseAnswerTold t prefix.now suffix.now result value.old value.new }
    ensures truncated { (result ≡ record_truncated) ↔ (length bytes.now < asked bytes.now) }
    ensures trailing { (result ≡ trailing_bytes) ↔ (asked bytes.now < length bytes.now) }
    ensures kept { result ≢ done → value.new ≡ value.old }
{
    match ZeroAsciiDenseSparse2dTrieBorrowed::try_from_record_bytes(bytes) {
        Ok(table) => tell(table.get_bytes(prefix, suffix), value),
        Err(RecordError::Truncated) => RECORD_TRUNCATED,
        Err(RecordError::TrailingBytes) => TRAILING_BYTES,
    }
}

/// Returns the record of the table of rows.
fn record_of_rows(
    alloc: Global,
    rows: &BTreeMap<&str, BTreeMap<&str, usize>>,
    delimiter: u8,
) -> Result<Vec<u8>, ZeroTrieBuildError>
    ensures built { IfOk result (λ bytes. (t : Parts) × IsDenseTable delimiter (rows_in rows.now.entries) t
        × (bytes.items ≡ record_of t)) }
    ensures refused { IfErr result (IsDenseRefusal delimiter (rows_in rows.now.entries)) }
{
    let table = ZeroAsciiDenseSparse2dTrieOwned::try_from_btree_map_str(alloc, rows, delimiter)?;
    let record = table.as_borrowed().to_record_bytes(alloc)?;
    Ok(record)
}

/// Returns the record of the table of entries.
fn record_given(
    alloc: Global,
    prefixes: Texts<'_>,
    suffixes: Texts<'_>,
    values: &[usize],
    delimiter: u8,
) -> Result<Vec<u8>, ZeroTrieBuildError>
    ensures built { IfOk result (λ bytes. (t : Parts) × IsDenseTable delimiter (rows_given
        prefixes.entry.bytes.now prefixes.entry.ends.now suffixes.entry.bytes.now suffixes.entry.ends.now values.now) t
        × (bytes.items ≡ record_of t)) }
    ensures refused { IfErr result (IsDenseRefusal delimiter (rows_given
        prefixes.entry.bytes.now prefixes.entry.ends.now suffixes.entry.bytes.now suffixes.entry.ends.now values.now)) }
{
    let rows = rows_of(alloc, prefixes, suffixes, values)?;
    record_of_rows(alloc, &rows, delimiter)
}

/// Builds the table of entries, each a prefix, a suffix and a value, and writes its record to
/// `out`. The entries are sorted by prefix, and those of one prefix by suffix.
///
/// `prefixes` and `suffixes` have the strings one after another, each up to its end. An end past
/// all bytes counts as their end, and an end below the one before it makes an empty string. There
/// are as many entries as the shortest of `prefix_ends`, `suffix_ends` and `values` has.
#[unsafe(no_mangle)]
pub extern "C" fn zerotrie_dense_build(
    alloc: Global,
    prefixes: &[u8],
    prefix_ends: &[usize],
    suffixes: &[u8],
    suffix_ends: &[usize],
    values: &[usize],
    delimiter: u8,
    out: &mut [u8],
    len: &mut usize,
) -> u32
    ensures { IsDenseBuildTold delimiter (rows_given prefixes.now prefix_ends.now suffixes.now suffix_ends.now values.now)
        result len.old len.new out.old out.new }
{
    let prefixes = Texts {
        bytes: prefixes,
        ends: prefix_ends,
    };
    let suffixes = Texts {
        bytes: suffixes,
        ends: suffix_ends,
    };
    match record_given(alloc, prefixes, suffixes, values, delimiter) {
        Ok(record) => hand_out(record.as_slice(), out, len),
        Err(error) => status_of(error),
    }
}
