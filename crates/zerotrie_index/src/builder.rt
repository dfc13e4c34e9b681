//! Builds of an index.

ghost use Rattle.std.specs.Prelude.{◌≡◌, ℕ, ◌+◌, ◌/◌, ◌^◌, ◌<◌, ◌≤◌, ◌⊎◌, ◌↔◌, List, [], ◌++◌, length, map, max, take, drop, All, Contains, IfOk, IfErr, IsTrue, MatchResult};
ghost use Rattle.std.specs.Iterator.{IsFiniteIterable};
ghost use Rattle.std.specs.List.Sorted.{IsPermutation};
ghost use Rattle.zerotrie_base.specs.Items.{keyed};
ghost use Rattle.zerotrie_base.specs.Maps.{FirstAbove, Ascends, RepeatsKey};
ghost use Rattle.zerotrie_base.specs.Routes.{HoldsOfItsPairs};
ghost use Rattle.zerotrie_index.specs.Layout.{word, place_of, mark_of, bucket_limit, AreRecords, IsIndex};
ghost use Rattle.zerotrie_index.specs.Hashed.{hashed_pairs, IsHashed, Rises, IsRecord};
ghost use Rattle.zerotrie_index.specs.Built.{records_size, bucket_count, IsTooLong, IsCrowded, CauseWith, AreWritten, IsIndexOf, IsLaidOut, IsIndexBuild, IsSortedIndexBuild, IsIndexBuildOfAll};
ghost use Rattle.zerotrie_index.specs.declared.error.ZeroIndexBuildError.TheVariants.{DuplicateKey, Crowded};

use crate::error::ZeroIndexBuildError;
use crate::hash::{GOLDEN, hash_of};
use crate::reader::bucket_of;
use std::alloc::{AllocError, Allocator, Global};
use zerotrie_base::{TrieKey, write_varint_meta2};

/// The most pairs that a bucket has. A build of pairs that do not fit tries another seed.
///
/// Of n keys in 2n buckets, 17 share one less than once in 10^19 / n times, if nobody has chosen
/// them for that.
pub const BUCKET_LIMIT: usize = 16;

/// How many seeds a build tries.
pub const SEEDS_TRIED: u64 = 8;

/// A pair, and the hash of its key.
#[derive(Clone, Copy, Drop)]
pub(crate) struct Hashed<'a> {
    hash: u64,
    key: &'a [u8],
    value: usize,
}

/// Whether the key of a pair is below that of the first of others.
fn precedes<K: TrieKey>(pair: &(K, usize), others: &[(K, usize)]) -> bool
    ensures { IsTrue result ↔ FirstAbove (K.key pair.now.0) (keyed K.key others.now) }
{
    match others.first() {
        Some(next) => pair.0.key_bytes() < next.0.key_bytes(),
        None => true,
    }
}

/// Whether the keys strictly ascend by their bytes.
fn is_ascending<K: TrieKey>(items: &[(K, usize)]) -> bool
    ensures { IsTrue result ↔ Ascends (keyed K.key items.now) }
{
    let mut left = items;
    while let Some((first, rest)) = left.split_first() {
        if !precedes(first, rest) {
            return false;
        }
        left = rest;
    }
    true
}

/// Returns the pairs with the hashes of their keys, in the order of the hashes.
fn hashed_of<K: TrieKey, A: Allocator>(
    alloc: A,
    seed: u64,
    items: &[(K, usize)],
) -> Result<Vec<Hashed<'_>, A>, AllocError>
    ensures pairs { IfOk result (λ v. hashed_pairs v.items ≡ keyed K.key items.now) }
    ensures hashes { IfOk result (λ v. All (IsHashed seed) v.items) }
{
    let mut hashed = Vec::with_capacity(alloc, items.len())?;
    for (key, value) in items {
        let key = key.key_bytes();
        hashed.push(Hashed {
            hash: hash_of(seed, key),
            key,
            value: *value,
        })?;
    }
    Ok(hashed)
}

/// Returns how many pairs in front belong into the bucket of this number.
fn bucket_len(count: u32, number: u32, hashed: &[Hashed<'_>]) -> usize
    ensures within { result ≤ length hashed.now }
    ensures here { All (λ h. place_of count h.hash ≡ number) (take result hashed.now) }
    ensures later { Rises hashed.now → All (λ h. number ≤ place_of count h.hash) hashed.now
        → All (λ h. number < place_of count h.hash) (drop result hashed.now) }
{
    let mut len = 0;
    while len < hashed.len() && bucket_of(count, hashed[len].hash) == number {
        len += 1;
    }
    len
}

/// Returns the marks of the hashes of a bucket.
fn marks_of(bucket: &[Hashed<'_>]) -> u32
    ensures { All (λ h. mark_of result h.hash ≡ 1) bucket.now }
{
    let mut marks = 0;
    for pair in bucket {
        marks |= 1 << (pair.hash % 32);
    }
    marks
}

/// Returns the entry of a bucket.
fn entry_of(start: u32, bucket: &[Hashed<'_>]) -> u64
    ensures start { result / 2 ^ 32 ≡ start }
    ensures marks { All (λ h. mark_of result h.hash ≡ 1) bucket.now }
{
    (u64::from(start) << 32) + u64::from(marks_of(bucket))
}

/// Appends a word.
fn put_word<A: Allocator>(bytes: &mut Vec<u8, A>, n: u64) -> Result<(), AllocError>
    ensures { IfOk result (λ _. bytes.new.items ≡ bytes.old.items ++ word n) }
{
    bytes.extend_from_slice(&n.to_le_bytes())?;
    Ok(())
}

/// Appends the record of a pair.
fn put_record<A: Allocator>(
    pool: &mut Vec<u8, A>,
    key: &[u8],
    value: usize,
) -> Result<(), AllocError>
    ensures { IfOk result (λ _. (written : List ℕ) × (pool.new.items ≡ pool.old.items ++ written)
        × IsRecord key.now value written) }
{
    pool.extend_from_slice(write_varint_meta2(key.len()).as_slice())?;
    put_word(pool, value as u64)?;
    pool.extend_from_slice(key)?;
    Ok(())
}

/// Appends the records of a bucket.
fn put_records<A: Allocator>(
    pool: &mut Vec<u8, A>,
    bucket: &[Hashed<'_>],
) -> Result<(), ZeroIndexBuildError>
    requires { length pool.old.items < 2 ^ 32 }
    ensures ok { IfOk result (λ _. (records : List ℕ)
        × (pool.new.items ≡ pool.old.items ++ records)
        × AreRecords (hashed_pairs bucket.now) records × (length pool.new.items < 2 ^ 32)) }
    ensures err { IfErr result (IsTooLong
        (length pool.old.items + records_size (hashed_pairs bucket.now))) }
{
    for pair in bucket {
        put_record(pool, pair.key, pair.value)?;
        if pool.len() as u64 >= 1 << 32 {
            return Err(ZeroIndexBuildError::CapacityExceeded);
        }
    }
    Ok(())
}

/// Whether the key of a pair is among those of others.
fn repeats_in(pair: &Hashed<'_>, others: &[Hashed<'_>]) -> bool
    ensures { IsTrue result ↔
        Contains (map {B = List ℕ} (λ e. e.0) (hashed_pairs others.now)) pair.now.key.now }
{
    for other in others {
        if other.key == pair.key {
            return true;
        }
    }
    false
}

/// Whether a bucket has a key twice. Calls itself as often as it has pairs.
fn repeats_key(bucket: &[Hashed<'_>]) -> bool
    ensures { IsTrue result ↔ RepeatsKey (hashed_pairs bucket.now) }
{
    match bucket.split_first() {
        Some((first, rest)) => repeats_in(first, rest) || repeats_key(rest),
        None => false,
    }
}

/// Tests that a bucket is not too long and has no key twice. Compares a bounded number of keys.
fn test_bucket(bucket: &[Hashed<'_>]) -> Result<(), ZeroIndexBuildError>
    ensures short { IfOk result (λ _. length bucket.now ≤ bucket_limit) }
    ensures distinct { IfOk result (λ _. RepeatsKey (hashed_pairs bucket.now) → ⊥) }
    ensures err { IfErr result (λ e. ((e ≡ DuplicateKey) × RepeatsKey (hashed_pairs bucket.now))
        ⊎ ((e ≡ Crowded) × (bucket_limit < length bucket.now))) }
{
    let some = &bucket[..bucket.len().min(BUCKET_LIMIT + 1)];
    if repeats_key(some) {
        return Err(ZeroIndexBuildError::DuplicateKey);
    }
    if bucket.len() > BUCKET_LIMIT {
        return Err(ZeroIndexBuildError::Crowded);
    }
    Ok(())
}

/// Appends the entries of the buckets of pairs to the table, and their records to the empty pool.
fn put_buckets<A: Allocator>(
    table: &mut Vec<u8, A>,
    pool: &mut Vec<u8, A>,
    count: u32,
    hashed: &[Hashed<'_>],
) -> Result<(), ZeroIndexBuildError>
    requires fresh { pool.old.items ≡ [] }
    requires rises { Rises hashed.now }
    ensures ok { IfOk result (λ _. (seed : ℕ) → All (IsHashed seed) hashed.now → 0 < count
        → AreWritten seed count (hashed_pairs hashed.now) table.old.items table.new.items
        pool.new.items) }
    ensures err { IfErr result (λ e. (seed : ℕ) → All (IsHashed seed) hashed.now
        → CauseWith (IsCrowded seed count (hashed_pairs hashed.now)) (hashed_pairs hashed.now) e) }
{
    let mut at = 0;
    for number in 0..count {
        let rest = &hashed[at..];
        let len = bucket_len(count, number, rest);
        let bucket = &rest[..len];
        test_bucket(bucket)?;
        put_word(table, entry_of(pool.len() as u32, bucket))?;
        put_records(pool, bucket)?;
        at += len;
    }
    put_word(table, u64::from(pool.len() as u32) << 32)?;
    Ok(())
}

/// Returns the bytes of the index of pairs in this many buckets.
fn write_index<A: Allocator + Copy>(
    alloc: A,
    seed: u64,
    count: u32,
    hashed: &[Hashed<'_>],
) -> Result<Vec<u8, A>, ZeroIndexBuildError>
    requires some { 0 < count }
    requires hashes { All (IsHashed seed) hashed.now }
    requires rises { Rises hashed.now }
    ensures { MatchResult result (λ bytes. IsIndex (hashed_pairs hashed.now) bytes.items
        × IsLaidOut seed count (hashed_pairs hashed.now) bytes.items)
        (CauseWith (IsCrowded seed count (hashed_pairs hashed.now)) (hashed_pairs hashed.now)) }
{
    let mut bytes = Vec::new(alloc);
    put_word(&mut bytes, seed)?;
    put_word(&mut bytes, u64::from(count))?;
    let mut pool = Vec::new(alloc);
    put_buckets(&mut bytes, &mut pool, count, hashed)?;
    bytes.extend_from_slice(pool.as_slice())?;
    Ok(bytes)
}

/// Returns the bytes of an index of a slice under one seed, in this many buckets.
fn build_under<K: TrieKey, A: Allocator + Copy>(
    alloc: A,
    seed: u64,
    count: u32,
    items: &[(K, usize)],
) -> Result<Vec<u8, A>, ZeroIndexBuildError>
    requires { 0 < count }
    ensures { MatchResult result (λ bytes. IsIndexOf (keyed K.key items.now) bytes.items
        × IsLaidOut seed count (keyed K.key items.now) bytes.items)
        (CauseWith (IsCrowded seed count (keyed K.key items.now)) (keyed K.key items.now)) }
{
    let mut hashed = hashed_of(alloc, seed, items)?;
    hashed.sort_unstable_by_key(|pair| pair.hash);
    write_index(alloc, seed, count, hashed.as_slice())
}

/// Returns the bytes of an index of a slice in any order. Tries `SEEDS_TRIED` seeds from this one
/// on.
///
/// ```
/// let index = build(rt.alloc(), 0, &[("ad", 22), ("adef", 33)])?;
/// let (head, rest) = index.as_slice().split_at(16);
/// let (entries, pool) = rest.split_at(40);
/// assert_eq!(rt; head, b"\0\0\0\0\0\0\0\0\x04\0\0\0\0\0\0\0");
/// assert_eq!(rt; &entries[..16], b"\x40\0\0\0\0\0\0\0\0\x40\0\0\x0B\0\0\0");
/// assert_eq!(rt; &entries[16..32], b"\0\0\0\0\x18\0\0\0\0\0\0\0\x18\0\0\0");
/// assert_eq!(rt; &entries[32..], b"\0\0\0\0\x18\0\0\0");
/// assert_eq!(rt; pool, b"\x02\x16\0\0\0\0\0\0\0ad\x04\x21\0\0\0\0\0\0\0adef");
/// ```
pub fn build<K: TrieKey, A: Allocator + Copy>(
    alloc: A,
    seed: u64,
    items: &[(K, usize)],
) -> Result<Vec<u8, A>, ZeroIndexBuildError>
    ensures { IsIndexBuild seed (λ bytes. bytes.items) (keyed K.key items.now) result }
{
    let Ok(count) = u32::try_from(2 * items.len()) else {
        return Err(ZeroIndexBuildError::CapacityExceeded);
    };
    for tried in 0..SEEDS_TRIED {
        match build_under(
            alloc,
            seed.wrapping_add(tried.wrapping_mul(GOLDEN)),
            count.max(1),
            items,
        ) {
            Err(ZeroIndexBuildError::Crowded) => {}
            done => return done,
        }
    }
    Err(ZeroIndexBuildError::Crowded)
}

/// Returns the bytes of an index of a slice, whose keys must strictly ascend by their bytes.
pub fn build_sorted<K: TrieKey, A: Allocator + Copy>(
    alloc: A,
    seed: u64,
    items: &[(K, usize)],
) -> Result<Vec<u8, A>, ZeroIndexBuildError>
    ensures { IsSortedIndexBuild seed (λ bytes. bytes.items) (keyed K.key items.now) result }
{
    if !is_ascending(items) {
        return Err(ZeroIndexBuildError::Unsorted);
    }
    build(alloc, seed, items)
}

/// Returns the bytes of an index of all pairs of an iterator, in any order.
pub fn build_all<K: TrieKey + Drop, U: IntoIterator<Item = (K, usize)>>(
    alloc: Global,
    seed: u64,
    iter: U,
) -> Result<Vec<u8>, ZeroIndexBuildError>
where
    U::IntoIter: Drop,
    requires { IsFiniteIterable U.into_iter_gives U.IntoIter.can_next U.IntoIter.remaining iter }
    ensures { IsIndexBuildOfAll (HoldsOfItsPairs U.into_iter_gives U.IntoIter.next_gives K.key iter)
        seed (λ bytes. bytes.items) result }
{
    let given: Vec<(K, usize)> = iter.into_iter().collect(alloc)?;
    build(alloc, seed, given.as_slice())
}
