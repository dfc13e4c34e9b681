//! The plain encoder of SimpleAscii tries.

ghost use Rattle.std.specs.Prelude.{◌≡◌, ◌+◌, ◌^◌, ◌<◌, ◌≤◌, ◌↔◌, ◌++◌, length, take, drop, IsTrue, IfOk, OnOk, IfErr};
ghost use Rattle.std.specs.Ordering.{nat_cmp};
ghost use Rattle.std.specs.Cmp.Lexicographic.{slice_cmp};
ghost use Rattle.std.specs.declared.cmp.Ordering.TheVariants.{Less};
ghost use Rattle.zerotrie_base.specs.Kind.{simple_ascii};
ghost use Rattle.zerotrie_base.specs.Maps.{Ascends};
ghost use Rattle.zerotrie_base.specs.Items.{pairs_of};
ghost use Rattle.zerotrie_base.specs.Routes.{ascending, IsBuild};
ghost use Rattle.zerotrie_base.specs.plain.Encoding.{pairs_from, AsciiKeys, Deep, BeginsAll, BeginsNone, IsBranching, CannotWrite, Writes, WritesFront};

mod nodes;

use nodes::{push_branch, push_value};
use std::alloc::Global;
use zerotrie_base::{ZeroTrieBuildError, are_ascii};

fn is_ascending(items: &[(&[u8], usize)]) -> bool
    ensures { IsTrue result ↔ Ascends (pairs_of items.now) }
{
    for i in 1..items.len() {
        let (key, _) = items[i - 1];
        let (next, _) = items[i];
        if !(key < next) {
            return false;
        }
    }
    true
}

/// Returns the length of the key. From this call a proof learns that it is below 2^64.
fn key_len(key: &[u8]) -> usize
    ensures { result ≡ length key.now }
{
    key.len()
}

/// Returns how many of the first items have this byte at `depth`.
fn group_len(items: &[(&[u8], usize)], depth: usize, byte: u8) -> usize
    ensures within { result ≤ length items.now }
    ensures same { BeginsAll depth byte (take result items.now) }
    ensures other { BeginsNone depth byte (drop result items.now) }
{
    for (i, (key, _)) in items.iter().enumerate() {
        if key.len() <= depth || key[depth] != byte {
            return i;
        }
    }
    items.len()
}

/// Splits off the first items that have the same byte at `depth`. Returns the byte, these items and
/// the others.
fn first_group<'a, 'k>(
    items: &'a [(&'k [u8], usize)],
    depth: usize,
) -> (u8, &'a [(&'k [u8], usize)], &'a [(&'k [u8], usize)])
    requires some { 0 < length items.now }
    requires deep { Deep (depth + 1) items.now }
    ensures parts { items.now ≡ result.1.now ++ result.2.now }
    ensures some { 0 < length result.1.now }
    ensures same { BeginsAll depth result.0 result.1.now }
    ensures other { BeginsNone depth result.0 result.2.now }
{
    let (key, _) = items[0];
    let byte = key[depth];
    let (group, others) = items.split_at(group_len(items, depth, byte));
    (byte, group, others)
}

/// Writes the values and literals before the first branch. Returns the number of items that end
/// there, and the depth of the branch.
fn push_run(
    out: &mut Vec<u8>,
    items: &[(&[u8], usize)],
    depth: usize,
) -> Result<(usize, usize), ZeroTrieBuildError>
    requires deep { Deep depth items.now }
    requires ascends { Ascends (pairs_from depth items.now) }
    requires ascii { AsciiKeys (pairs_from depth items.now) }
    ensures within { IfOk result (λ r. r.0 ≤ length items.now) }
    ensures deep { IfOk result (λ r. Deep (r.1 + 1) (drop r.0 items.now)) }
    ensures leads { IfOk result (λ r.
        WritesFront out.old.items (pairs_from depth items.now) out.new.items
        (pairs_from r.1 (drop r.0 items.now))) }
    ensures room { IfOk result (λ r. r.0 < length items.now → r.1 + 1 < 2 ^ 64) }
    ensures branching { IfOk result (λ r.
        r.0 < length items.now → IsBranching (pairs_from r.1 (drop r.0 items.now))) }
    ensures err { IfErr result (λ e. e ≡ ZeroTrieBuildError.OutOfMemory) }
{
    let mut at = 0;
    let mut depth = depth;
    while at < items.len() {
        let (key, value) = items[at];
        if key_len(key) == depth {
            push_value(out, value)?;
            at += 1;
        } else {
            let (_, rest) = items.split_at(at);
            let (byte, _, others) = first_group(rest, depth);
            if !others.is_empty() {
                return Ok((at, depth));
            }
            out.push(byte)?;
            depth += 1;
        }
    }
    Ok((at, depth))
}

/// Writes the encoding of the items without the first `depth` bytes of their keys.
fn encode(
    alloc: Global,
    out: &mut Vec<u8>,
    items: &[(&[u8], usize)],
    depth: usize,
) -> Result<(), ZeroTrieBuildError>
    requires deep { Deep depth items.now }
    requires ascends { Ascends (pairs_from depth items.now) }
    requires ascii { AsciiKeys (pairs_from depth items.now) }
    ensures ok { OnOk result (Writes out.old.items out.new.items (pairs_from depth items.now)) }
    ensures err { IfErr result (CannotWrite (pairs_from depth items.now)) }
{
    let (ended, depth) = push_run(out, items, depth)?;
    let (_, mut rest) = items.split_at(ended);
    if rest.is_empty() {
        return Ok(());
    }
    let mut edges = Vec::new(alloc);
    let mut starts = Vec::new(alloc);
    let mut targets = Vec::new(alloc);
    while !rest.is_empty() {
        let (byte, group, others) = first_group(rest, depth);
        edges.push(byte)?;
        starts.push(targets.len())?;
        encode(alloc, &mut targets, group, depth + 1)?;
        rest = others;
    }
    let (_, offsets) = starts.split_at(1);
    push_branch(out, &edges, offsets, &targets)
}

/// Returns the encoding of these items as a SimpleAscii trie.
///
/// ```
/// let items: [(&[u8], usize); 3] = [(b"a", 1), (b"abc", 2), (b"abd", 3)];
/// let text = plain_encode(rt.alloc(), &items)?;
/// assert_eq!(rt; text.as_slice(), b"a\x81b\xC2cd\x01\x82\x83".as_slice());
/// ```
///
/// Each item is a key and its value. The encoding is canonical: no other bytes mean the map of the
/// items. It is empty if there are no items. A value comes after its key, in one to ten bytes. A
/// byte that all keys share at a place is stored as it is. Where keys differ there is a branch: a
/// head with the number of edges and the width of an offset, the edges in ascending order, where
/// each target but the first begins, in bytes from the first one on, and the targets.
///
/// Reads the bytes of each key a few times, and copies each target once for each branch above it.
/// Recursion is as deep as there are branches on the path of one key, however long the keys are.
///
/// # Errors
///
/// - `Unsorted`: the keys do not strictly ascend by their bytes; for example, if one is there
///   twice.
/// - `NonAsciiError`: the keys ascend, and one has a byte of 128 or more.
/// - `CapacityExceeded`: otherwise, if the targets of a branch have 2^32 bytes or more in total,
///   which offsets of four bytes can't reach.
/// - `OutOfMemory`: an allocation failed.
pub fn plain_encode(alloc: Global, items: &[(&[u8], usize)]) -> Result<Vec<u8>, ZeroTrieBuildError>
    ensures { IsBuild ascending simple_ascii (λ text. text.items) (pairs_of items.now) result }
{
    if !is_ascending(items) {
        return Err(ZeroTrieBuildError::Unsorted);
    }
    if !are_ascii(items) {
        return Err(ZeroTrieBuildError::NonAsciiError);
    }
    let mut text = Vec::new(alloc);
    encode(alloc, &mut text, items, 0)?;
    Ok(text)
}
