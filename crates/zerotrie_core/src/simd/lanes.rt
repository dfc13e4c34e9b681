//! Compares many bytes at once.

ghost use Rattle.std.specs.Prelude.{◌≡◌, ◌≢◌, ℕ, ◌+◌, ◌<◌, ◌≤◌, ◌⊎◌, length, slice_index, IsTrue};
ghost use Rattle.zerotrie_core.specs.well_formed.Branching.{AreBytes};

use std::simd::prelude::*;

/// Returns the first place of one of two bytes among sixteen; 64 if there is none.
#[inline(always)]
pub(crate) fn first_in_16(bytes: &[u8], one: u8, other: u8) -> usize
    requires { 16 ≤ length bytes.now }
    ensures hit { result < 16 → (slice_index bytes.now result ≡ one)
        ⊎ (slice_index bytes.now result ≡ other) }
    ensures missed { (k : ℕ) → k < 16 → k < result → (slice_index bytes.now k ≢ one)
        × (slice_index bytes.now k ≢ other) }
{
    let lanes = u8x16::from_slice(bytes);
    let ones = lanes.simd_eq(u8x16::splat(one)).to_bitmask();
    let others = lanes.simd_eq(u8x16::splat(other)).to_bitmask();
    (ones | others).trailing_zeros() as usize
}

/// Like `first_in_16`, among 32.
#[inline(always)]
pub(crate) fn first_in_32(bytes: &[u8], one: u8, other: u8) -> usize
    requires { 32 ≤ length bytes.now }
    ensures hit { result < 32 → (slice_index bytes.now result ≡ one)
        ⊎ (slice_index bytes.now result ≡ other) }
    ensures missed { (k : ℕ) → k < 32 → k < result → (slice_index bytes.now k ≢ one)
        × (slice_index bytes.now k ≢ other) }
{
    let lanes = u8x32::from_slice(bytes);
    let ones = lanes.simd_eq(u8x32::splat(one)).to_bitmask();
    let others = lanes.simd_eq(u8x32::splat(other)).to_bitmask();
    (ones | others).trailing_zeros() as usize
}

/// Like `first_in_16`, among 64.
#[inline(always)]
pub(crate) fn first_in_64(bytes: &[u8], one: u8, other: u8) -> usize
    requires { 64 ≤ length bytes.now }
    ensures hit { result < 64 → (slice_index bytes.now result ≡ one)
        ⊎ (slice_index bytes.now result ≡ other) }
    ensures missed { (k : ℕ) → k < 64 → k < result → (slice_index bytes.now k ≢ one)
        × (slice_index bytes.now k ≢ other) }
{
    let lanes = u8x64::from_slice(bytes);
    let ones = lanes.simd_eq(u8x64::splat(one)).to_bitmask();
    let others = lanes.simd_eq(u8x64::splat(other)).to_bitmask();
    (ones | others).trailing_zeros() as usize
}

/// Returns the first of sixteen places where a byte is not a literal or differs from the other byte
/// there; 64 if there is none.
#[inline(always)]
pub(crate) fn first_other_in_16(bytes: &[u8], others: &[u8]) -> usize
    requires bytes { 16 ≤ length bytes.now }
    requires others { 16 ≤ length others.now }
    ensures { (k : ℕ) → k < 16 → k < result → (slice_index bytes.now k < 128)
        × (slice_index bytes.now k ≡ slice_index others.now k) }
{
    let lanes = u8x16::from_slice(bytes);
    let differ = lanes.simd_ne(u8x16::from_slice(others)).to_bitmask();
    let high = lanes.simd_ge(u8x16::splat(128)).to_bitmask();
    (differ | high).trailing_zeros() as usize
}

/// Returns whether sixteen bytes are literals and equal the other bytes.
#[inline(always)]
pub(crate) fn are_same_in_16(bytes: &[u8], others: &[u8]) -> bool
    requires bytes { 16 ≤ length bytes.now }
    requires others { 16 ≤ length others.now }
    ensures { IsTrue result → (k : ℕ) → k < 16 → (slice_index bytes.now k < 128)
        × (slice_index bytes.now k ≡ slice_index others.now k) }
{
    first_other_in_16(bytes, others) >= 16
}

/// Returns how many of the first sixteen bytes in a row are below the next one; 64 if all are.
#[inline(always)]
pub(crate) fn rising_in_17(bytes: &[u8]) -> usize
    requires { 17 ≤ length bytes.now }
    ensures rises { (k : ℕ) → k < 16 → k < result
        → slice_index bytes.now k < slice_index bytes.now (k + 1) }
    ensures stops { result < 16
        → slice_index bytes.now (result + 1) ≤ slice_index bytes.now result }
{
    let (_, next) = bytes.split_at(1);
    let lanes = u8x16::from_slice(bytes);
    let stops = lanes.simd_ge(u8x16::from_slice(next)).to_bitmask();
    stops.trailing_zeros() as usize
}

/// Returns how many of the first sixteen bytes in a row are 128 or more; 64 if all are.
#[inline(always)]
pub(crate) fn highs_in_16(bytes: &[u8]) -> usize
    requires { 16 ≤ length bytes.now }
    ensures highs { (k : ℕ) → k < 16 → k < result → 128 ≤ slice_index bytes.now k }
    ensures stops { result < 16 → slice_index bytes.now result < 128 }
    ensures bytes { AreBytes bytes.now }
    ensures small { result ≤ 64 }
{
    let lanes = u8x16::from_slice(bytes);
    let stops = lanes.simd_lt(u8x16::splat(128)).to_bitmask();
    stops.trailing_zeros() as usize
}
