//! Indexes.

ghost use Rattle.std.specs.Prelude.{◌≡◌, ◌↔◌, ℕ, false, IsTrue, length, drop};
ghost use Rattle.zerotrie_core.specs.Kind.{simple_ascii};
ghost use Rattle.zerotrie_core.specs.Maps.{Pairs, value_at};
ghost use Rattle.zerotrie_index.specs.Layout.{IsIndex};
ghost use Rattle.zerotrie_index.specs.Built.{IsIndexOf, IsIndexBuild};
ghost use Rattle.zerotrie_c.specs.Answers.{told};
ghost use Rattle.zerotrie_c.specs.Builds.{given, given_flat};
ghost use Rattle.zerotrie_c.specs.Indexes.{index_status_of, IsIndexBuildTold};
ghost use Rattle.zerotrie_c.specs.Keys.{keys_from, values_or, written_over};
ghost use Rattle.zerotrie_c.specs.Statuses.{done};

use crate::answers::tell;
use crate::builds::{Pair, hand_out, items_of};
use crate::flat::items_between;
use crate::many::{Finder, look_up_all};
use crate::numbers::{CROWDED, DONE, OUT_OF_MEMORY, status_of};
use std::alloc::Global;
use zerotrie_core::ZeroTrieBuildError;
use zerotrie_index::{OpenedIndex, ZeroIndex, ZeroIndexBuildError, build, is_well_formed};

/// Returns whether the index has the key, and then sets `value` to its value.
#[unsafe(no_mangle)]
pub extern "C" fn zerotrie_index_get(bytes: &[u8], key: &[u8], value: &mut usize) -> bool
    ensures index { (pairs : Pairs) → IsIndex pairs bytes.now
        → told result value.new ≡ value_at simple_ascii pairs key.now }
    ensures given { (given : Pairs) → IsIndexOf given bytes.now
        → told result value.new ≡ value_at simple_ascii given key.now }
    ensures kept { result ≡ false → value.new ≡ value.old }
{
    tell(ZeroIndex::from_bytes(bytes).get(key), value)
}

impl<'a> Finder for OpenedIndex<'a> {
    ghost MayFind = { λ index key found. ((pairs : Pairs) → IsIndex pairs index
        → found ≡ value_at simple_ascii pairs key)
        × ((given : Pairs) → IsIndexOf given index → found ≡ value_at simple_ascii given key) };

    fn find(&mut self, key: &[u8]) -> Option<usize> {
        self.get(key)
    }
}

/// Looks up keys and writes the value of each, or `missing` for a key that the index does not have.
/// The keys are one after another, each up to its end, as in `zerotrie_get_many`.
#[unsafe(no_mangle)]
pub extern "C" fn zerotrie_index_get_many(
    bytes: &[u8],
    keys: &[u8],
    ends: &[usize],
    missing: usize,
    values: &mut [usize],
) -> u32
    ensures done { result ≡ done }
    ensures index { (pairs : Pairs) → IsIndex pairs bytes.now → values.new ≡ written_over
        (values_or missing (value_at simple_ascii pairs) (keys_from 0 keys.now ends.now))
        values.old }
    ensures given { (given : Pairs) → IsIndexOf given bytes.now → values.new ≡ written_over
        (values_or missing (value_at simple_ascii given) (keys_from 0 keys.now ends.now))
        values.old }
    ensures any { drop (length ends.now) values.new ≡ drop (length ends.now) values.old }
{
    let mut index = OpenedIndex::new(bytes);
    look_up_all(&mut index, keys, ends, missing, values);
    DONE
}

/// Returns whether the bytes are a valid index: exactly if they are one of some pairs.
#[unsafe(no_mangle)]
pub extern "C" fn zerotrie_index_is_valid(bytes: &[u8]) -> bool
    ensures { IsTrue result ↔ ((pairs : Pairs) × IsIndex pairs bytes.now) }
{
    is_well_formed(bytes)
}

/// Returns the status of an error of a build.
fn index_status_of(error: ZeroIndexBuildError) -> u32
    ensures { result ≡ index_status_of error }
{
    match error {
        ZeroIndexBuildError::Unsorted => status_of(ZeroTrieBuildError::Unsorted),
        ZeroIndexBuildError::DuplicateKey => status_of(ZeroTrieBuildError::DuplicateKey),
        ZeroIndexBuildError::Crowded => CROWDED,
        ZeroIndexBuildError::CapacityExceeded => status_of(ZeroTrieBuildError::CapacityExceeded),
        ZeroIndexBuildError::OutOfMemory => OUT_OF_MEMORY,
    }
}

/// Copies the bytes of a build into `out` if there is room, or returns the status of its error.
fn hand_out_index(
    built: Result<Vec<u8>, ZeroIndexBuildError>,
    out: &mut [u8],
    len: &mut usize,
) -> u32
    ensures { (seed : ℕ) (pairs : Pairs) → IsIndexBuild seed (λ bytes. bytes.items) pairs built
        → IsIndexBuildTold seed pairs result len.old len.new out.old out.new }
{
    match built {
        Ok(bytes) => hand_out(bytes.as_slice(), out, len),
        Err(error) => index_status_of(error),
    }
}

/// Builds the index of pairs in any order into `out`, if there is room, and sets `len`. It tries
/// some seeds, from this one on.
#[unsafe(no_mangle)]
pub extern "C" fn zerotrie_index_build(
    alloc: Global,
    seed: u64,
    pairs: &[Pair<'_>],
    out: &mut [u8],
    len: &mut usize,
) -> u32
    ensures { IsIndexBuildTold seed (given pairs.now) result len.old len.new out.old out.new }
{
    match items_of(alloc, pairs) {
        Ok(items) => hand_out_index(build(alloc, seed, items.as_slice()), out, len),
        Err(_) => OUT_OF_MEMORY,
    }
}

/// Like `zerotrie_index_build`, of keys that are one after another, each up to its end, as in
/// `zerotrie_build_many`.
#[unsafe(no_mangle)]
pub extern "C" fn zerotrie_index_build_many(
    alloc: Global,
    seed: u64,
    keys: &[u8],
    ends: &[usize],
    values: &[usize],
    out: &mut [u8],
    len: &mut usize,
) -> u32
    ensures { IsIndexBuildTold seed (given_flat keys.now ends.now values.now) result
        len.old len.new out.old out.new }
{
    match items_between(alloc, keys, ends, values) {
        Ok(items) => hand_out_index(build(alloc, seed, items.as_slice()), out, len),
        Err(_) => OUT_OF_MEMORY,
    }
}
