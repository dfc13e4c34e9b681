//! Builds.

ghost use Rattle.std.specs.Prelude.{◌≡◌, IfOk, IfSome, IfNone};
ghost use Rattle.zerotrie_core.specs.Kind.{Kind, tag};
ghost use Rattle.zerotrie_core.specs.Kinds.{kind_of as kind_that_is};
ghost use Rattle.zerotrie_core.specs.Items.{pairs_of};
ghost use Rattle.zerotrie_core.specs.Maps.{Pairs};
ghost use Rattle.zerotrie_core.specs.Routes.{Route, ascending, any_order, IsBuild, IsLength};
ghost use Rattle.zerotrie_any.specs.Auto.{auto_kind};
ghost use Rattle.zerotrie_c.specs.Numbers.{kind_of};
ghost use Rattle.zerotrie_c.specs.Statuses.{unknown_kind};
ghost use Rattle.zerotrie_c.specs.Builds.{given, IsHandedOut, IsBuildTold, IsLengthTold};

use crate::numbers::{BUFFER_TOO_SMALL, DONE, OUT_OF_MEMORY, UNKNOWN_KIND, kind_of, status_of};
use std::alloc::{AllocError, Global};
use zerotrie_any::{bytes_from_slice, bytes_from_unsorted_slice, kind_for_pairs};
use zerotrie_base::TriePair;
use zerotrie_build::{ByteSliceWithIndices, encoded_len};
use zerotrie_core::{TrieKind, ZeroTrieBuildError, by_kind};

/// A pair of a key and a value, with C's layout.
#[repr(C)]
#[derive(Clone, Copy)]
pub struct Pair<'a> {
    pub key: &'a [u8],
    pub value: usize,
}

impl<'a> TriePair for Pair<'a> {
    ghost pair = { λ p. (p.key.now, p.value) };

    fn pair_key(&self) -> &[u8] {
        self.key
    }
}

/// Returns the pairs as items. The keys are borrowed.
pub fn items_of<'a>(alloc: Global, pairs: &[Pair<'a>]) -> Result<Vec<(&'a [u8], usize)>, AllocError>
    ensures { IfOk result (λ items. pairs_of items.items ≡ given pairs.now) }
{
    let mut items = Vec::with_capacity(alloc, pairs.len())?;
    for pair in pairs {
        items.push((pair.key, pair.value))?;
    }
    Ok(items)
}

/// Copies the bytes into `out` if there is room, and sets `len` to their number.
pub fn hand_out(bytes: &[u8], out: &mut [u8], len: &mut usize) -> u32
    ensures { IsHandedOut bytes.now result len.new out.old out.new }
{
    *len = bytes.len();
    if out.len() < bytes.len() {
        return BUFFER_TOO_SMALL;
    }
    let (front, _) = out.split_at_mut(bytes.len());
    front.copy_from_slice(bytes);
    DONE
}

/// Returns the bytes of the trie of items whose keys ascend.
pub fn bytes_of_sorted(
    alloc: Global,
    kind: TrieKind,
    items: &[(&[u8], usize)],
) -> Result<Vec<u8>, ZeroTrieBuildError>
    ensures { IsBuild ascending (kind_that_is kind) (λ bytes. bytes.items) (pairs_of items.now)
        result }
{
    by_kind!(kind, bytes_from_slice::<_>(alloc, items))
}

/// Returns the bytes of the trie of items in any order.
pub fn bytes_of(
    alloc: Global,
    kind: TrieKind,
    items: &[(&[u8], usize)],
) -> Result<Vec<u8>, ZeroTrieBuildError>
    ensures { IsBuild any_order (kind_that_is kind) (λ bytes. bytes.items) (pairs_of items.now)
        result }
{
    by_kind!(kind, bytes_from_unsorted_slice::<_>(alloc, items))
}

/// Copies the bytes of a build into `out` if there is room, or returns the status of its error.
pub fn hand_out_trie(
    built: Result<Vec<u8>, ZeroTrieBuildError>,
    out: &mut [u8],
    len: &mut usize,
) -> u32
    ensures { (route : Route) (kind : Kind) (pairs : Pairs)
        → IsBuild route kind (λ bytes. bytes.items) pairs built
        → IsBuildTold route kind pairs result len.old len.new out.old out.new }
{
    match built {
        Ok(bytes) => hand_out(bytes.as_slice(), out, len),
        Err(error) => status_of(error),
    }
}

/// Builds the trie of pairs whose keys ascend strictly by their bytes. Writes it to the beginning
/// of `out` if there is room, and sets `len` to its length.
#[unsafe(no_mangle)]
pub extern "C" fn zerotrie_build_sorted(
    alloc: Global,
    kind: u32,
    pairs: &[Pair<'_>],
    out: &mut [u8],
    len: &mut usize,
) -> u32
    ensures known { IfSome (kind_of kind) (λ k.
        IsBuildTold ascending k (given pairs.now) result len.old len.new out.old out.new) }
    ensures unknown { IfNone (kind_of kind) ((result ≡ unknown_kind) × (len.new ≡ len.old)
        × (out.new ≡ out.old)) }
{
    let Some(kind) = kind_of(kind) else {
        return UNKNOWN_KIND;
    };
    match items_of(alloc, pairs) {
        Ok(items) => hand_out_trie(bytes_of_sorted(alloc, kind, items.as_slice()), out, len),
        Err(_) => OUT_OF_MEMORY,
    }
}

/// Builds the trie of pairs in any order. Writes it to the beginning of `out` if there is room, and
/// sets `len` to its length.
#[unsafe(no_mangle)]
pub extern "C" fn zerotrie_build(
    alloc: Global,
    kind: u32,
    pairs: &[Pair<'_>],
    out: &mut [u8],
    len: &mut usize,
) -> u32
    ensures known { IfSome (kind_of kind) (λ k.
        IsBuildTold any_order k (given pairs.now) result len.old len.new out.old out.new) }
    ensures unknown { IfNone (kind_of kind) ((result ≡ unknown_kind) × (len.new ≡ len.old)
        × (out.new ≡ out.old)) }
{
    let Some(kind) = kind_of(kind) else {
        return UNKNOWN_KIND;
    };
    match items_of(alloc, pairs) {
        Ok(items) => hand_out_trie(bytes_of(alloc, kind, items.as_slice()), out, len),
        Err(_) => OUT_OF_MEMORY,
    }
}

/// Returns the number of bytes of the trie of pairs whose keys ascend.
fn len_of_sorted(
    alloc: Global,
    kind: TrieKind,
    pairs: &[Pair<'_>],
) -> Result<usize, ZeroTrieBuildError>
    ensures { IsLength ascending (kind_that_is kind) (given pairs.now) result }
{
    let items = items_of(alloc, pairs)?;
    let items = ByteSliceWithIndices::from_byte_slice(items.as_slice());
    encoded_len(alloc, items, kind.options())
}

/// Sets `len` to the number of bytes that `zerotrie_build_sorted` writes for these pairs. Nothing
/// is built.
#[unsafe(no_mangle)]
pub extern "C" fn zerotrie_encoded_len(
    alloc: Global,
    kind: u32,
    pairs: &[Pair<'_>],
    len: &mut usize,
) -> u32
    ensures known { IfSome (kind_of kind) (λ k.
        IsLengthTold ascending k (given pairs.now) result len.old len.new) }
    ensures unknown { IfNone (kind_of kind) ((result ≡ unknown_kind) × (len.new ≡ len.old)) }
{
    let Some(kind) = kind_of(kind) else {
        return UNKNOWN_KIND;
    };
    match len_of_sorted(alloc, kind, pairs) {
        Ok(found) => {
            *len = found;
            DONE
        }
        Err(error) => status_of(error),
    }
}

/// Returns the number of the kind that suits the pairs: 0 if all keys are ASCII and there are fewer
/// than 512, else 3.
#[unsafe(no_mangle)]
pub extern "C" fn zerotrie_auto_kind(pairs: &[Pair<'_>]) -> u32
    ensures { result ≡ tag (auto_kind (given pairs.now)) }
{
    u32::from(kind_for_pairs(pairs).tag())
}
