//! Builds of keys that are one after another.

ghost use Rattle.std.specs.Prelude.{◌≡◌, IfOk, IfSome, IfNone};
ghost use Rattle.zerotrie_core.specs.Items.{pairs_of};
ghost use Rattle.zerotrie_core.specs.Routes.{any_order};
ghost use Rattle.zerotrie_c.specs.Builds.{given_flat, IsBuildTold};
ghost use Rattle.zerotrie_c.specs.Numbers.{kind_of};
ghost use Rattle.zerotrie_c.specs.Statuses.{unknown_kind};

use crate::builds::{bytes_of, hand_out_trie};
use crate::many::key_between;
use crate::numbers::{OUT_OF_MEMORY, UNKNOWN_KIND, kind_of};
use std::alloc::{AllocError, Global};

/// Returns the pairs as items. The keys are borrowed.
pub fn items_between<'k>(
    alloc: Global,
    keys: &'k [u8],
    ends: &[usize],
    values: &[usize],
) -> Result<Vec<(&'k [u8], usize)>, AllocError>
    ensures { IfOk result (λ items.
        pairs_of items.items ≡ given_flat keys.now ends.now values.now) }
{
    let count = ends.len().min(values.len());
    let mut items = Vec::with_capacity(alloc, count)?;
    let mut from = 0;
    for number in 0..count {
        let to = ends[number];
        items.push((key_between(keys, from, to), values[number]))?;
        from = to;
    }
    Ok(items)
}

/// Like `zerotrie_build`, of keys that are one after another, each up to its end.
///
/// An end past all bytes counts as their end, and an end below the one before it makes an empty
/// key. There are as many pairs as the shorter of `ends` and `values` has.
#[unsafe(no_mangle)]
pub extern "C" fn zerotrie_build_many(
    alloc: Global,
    kind: u32,
    keys: &[u8],
    ends: &[usize],
    values: &[usize],
    out: &mut [u8],
    len: &mut usize,
) -> u32
    ensures known { IfSome (kind_of kind) (λ k.
        IsBuildTold any_order k (given_flat keys.now ends.now values.now) result
        len.old len.new out.old out.new) }
    ensures unknown { IfNone (kind_of kind) ((result ≡ unknown_kind) × (len.new ≡ len.old)
        × (out.new ≡ out.old)) }
{
    let Some(kind) = kind_of(kind) else {
        return UNKNOWN_KIND;
    };
    match items_between(alloc, keys, ends, values) {
        Ok(items) => hand_out_trie(bytes_of(alloc, kind, items.as_slice()), out, len),
        Err(_) => OUT_OF_MEMORY,
    }
}
