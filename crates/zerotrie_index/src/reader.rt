//! What the bytes of an index are read by.

ghost use Rattle.std.specs.Prelude.{◌≡◌, ℕ, ◌+◌, ◌*◌, ◌/◌, ◌%◌, ◌^◌, ◌<◌, List, ◌∷◌, ◌++◌, length, get_or, All, Some, IfSome, IfNone, MatchOption};
ghost use Rattle.std.specs.List.{flat_map};
ghost use Rattle.zerotrie_base.specs.Kind.{simple_ascii};
ghost use Rattle.zerotrie_base.specs.Numbers.{BeginsWith};
ghost use Rattle.zerotrie_base.specs.Maps.{Pairs, value_at};
ghost use Rattle.zerotrie_index.specs.Layout.{word, place_of, mark_of, AreRecords, IsIndex};

use crate::hash::eight_at;
use zerotrie_base::read_varint_meta2;

/// Returns the number of a hash's bucket.
#[inline(always)]
pub(crate) fn bucket_of(count: u32, hash: u64) -> u32
    ensures { result ≡ place_of count hash }
{
    ((hash >> 32) * u64::from(count) >> 32) as u32
}

/// Reads the word that the bytes begin with. Returns it and the bytes after it.
#[inline(always)]
pub(crate) fn read_word(bytes: &[u8]) -> Option<(u64, &[u8])>
    ensures first { (n : ℕ) (after : List ℕ) → n < 2 ^ 64 → bytes.now ≡ word n ++ after
        → MatchOption result ⊥ (λ r. (r.0 ≡ n) × (r.1.now ≡ after)) }
    ensures found { IfSome result (λ r. bytes.now ≡ word r.0 ++ r.1.now) }
{
    let (front, rest) = bytes.split_first_chunk::<8>()?;
    Some((u64::from_le_bytes(*front), rest))
}

/// Reads the number that the bytes begin with. Returns it and the bytes after it.
#[inline(always)]
fn read_number(bytes: &[u8]) -> Option<(usize, &[u8])>
    ensures first { (v : ℕ) (after : List ℕ) → BeginsWith 32 0 v bytes.now after
        → MatchOption result ⊥ (λ r. (r.0 ≡ v) × (r.1.now ≡ after)) }
    ensures found { IfSome result (λ r. BeginsWith 32 0 r.0 bytes.now r.1.now) }
    ensures shorter { IfSome result (λ r. length r.1.now < length bytes.now) }
{
    let (start, rest) = bytes.split_first()?;
    if *start >= 64 {
        return None;
    }
    read_varint_meta2(*start, rest)
}

/// A record, and the bytes after it.
#[derive(Clone, Copy)]
pub(crate) struct Record<'a> {
    pub key: &'a [u8],
    pub value: usize,
    pub rest: &'a [u8],
}

/// Reads the record that the bytes begin with.
#[inline(always)]
pub(crate) fn read_record(bytes: &[u8]) -> Option<Record<'_>>
    ensures first { (e : List ℕ × ℕ) (pairs : Pairs) → AreRecords (e ∷ pairs) bytes.now
        → MatchOption result ⊥ (λ r. (r.key.now ≡ e.0) × (r.value ≡ e.1)
        × AreRecords pairs r.rest.now) }
    ensures found { IfSome result (λ r. (middle : List ℕ)
        × BeginsWith 32 0 (length r.key.now) bytes.now middle
        × (r.value < 2 ^ 64) × (middle ≡ word r.value ++ (r.key.now ++ r.rest.now))) }
    ensures shorter { IfSome result (λ r. length r.rest.now < length bytes.now) }
{
    let (len, rest) = read_number(bytes)?;
    let (value, rest) = read_word(rest)?;
    let (key, rest) = rest.split_at_checked(len)?;
    let value = usize::try_from(value).ok()?;
    Some(Record { key, value, rest })
}

/// Finds the value of a key among records.
#[inline(always)]
pub(crate) fn find_in(records: &[u8], key: &[u8]) -> Option<usize>
    ensures { (pairs : Pairs) → AreRecords pairs records.now
        → result ≡ value_at simple_ascii pairs key.now }
{
    let mut rest = records;
    while let Some(record) = read_record(rest) {
        if record.key == key {
            return Some(record.value);
        }
        rest = record.rest;
    }
    None
}

/// The parts of an index.
#[derive(Clone, Copy)]
pub(crate) struct Parts<'a> {
    pub seed: u64,
    pub count: u32,
    pub table: &'a [u8],
    pub pool: &'a [u8],
}

/// Takes an index apart.
#[inline(always)]
pub(crate) fn parts_of(bytes: &[u8]) -> Option<Parts<'_>>
    ensures found { IfSome result (λ p.
        bytes.now ≡ word p.seed ++ (word p.count ++ (p.table.now ++ p.pool.now))) }
    ensures first { (pairs : Pairs) (is : IsIndex pairs bytes.now) → MatchOption result ⊥ (λ p.
        (p.seed ≡ is.seed) × (p.count ≡ length is.buckets)
        × (p.table.now ≡ flat_map word is.entries) × (p.pool.now ≡ is.pool)) }
{
    let (seed, rest) = read_word(bytes)?;
    let (count, rest) = read_word(rest)?;
    let count = u32::try_from(count).ok()?;
    let len = (count as usize).checked_add(1)?.checked_mul(8)?;
    let (table, pool) = rest.split_at_checked(len)?;
    Some(Parts {
        seed,
        count,
        table,
        pool,
    })
}

/// Reads the entry of this number in a table, and the next one.
#[inline(always)]
pub(crate) fn entries_at(table: &[u8], number: usize) -> Option<(u64, u64)>
    requires { number < 2 ^ 32 }
    ensures { (entries : List ℕ) → table.now ≡ flat_map word entries
        → All (λ entry. entry < 2 ^ 64) entries → number + 1 < length entries
        → MatchOption result ⊥ (λ r. (r.0 ≡ get_or entries number 0)
        × (r.1 ≡ get_or entries (number + 1) 0)) }
{
    let (_, from) = table.split_at_checked(8 * number)?;
    let both = from.first_chunk::<16>()?;
    Some((eight_at(both, 0), eight_at(both, 8)))
}
