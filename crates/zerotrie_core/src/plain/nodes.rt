//! Writes single nodes.

ghost use Rattle.std.specs.Prelude.{◌≡◌, ℕ, List, ◌+◌, ◌*◌, ◌/◌, ◌%◌, ◌^◌, ◌<◌, ◌≤◌, ◌⊎◌, ◌++◌, length, map, slice_index, OnOk, IfErr, IfSome, IfNone};
ghost use Rattle.zerotrie_base.specs.Numbers.{value_form, SpellsAs};
ghost use Rattle.zerotrie_base.specs.Branches.{IsWidth, blocks};
ghost use Rattle.zerotrie_base.specs.Canonical.{branch_node};
ghost use Rattle.zerotrie_base.specs.plain.Encoding.{with_bits, AreTargets};

use zerotrie_base::{ZeroTrieBuildError, least_width, write_varint_meta2, write_varint_meta3};

/// Writes a number, with these bits added to its lead byte.
fn push_number(out: &mut Vec<u8>, bits: u8, number: &[u8]) -> Result<(), ZeroTrieBuildError>
    requires { bits + slice_index number.now 0 < 256 }
    ensures ok { OnOk result (out.new.items ≡ out.old.items ++ with_bits bits number.now) }
    ensures err { IfErr result (λ e. e ≡ ZeroTrieBuildError.OutOfMemory) }
{
    if let Some((lead, trail)) = number.split_first() {
        out.push(bits + *lead)?;
        out.extend_from_slice(trail)?;
    }
    Ok(())
}

pub(super) fn push_value(out: &mut Vec<u8>, value: usize) -> Result<(), ZeroTrieBuildError>
    ensures ok { OnOk result ((spelling : List ℕ) × SpellsAs value_form value spelling
        × (out.new.items ≡ out.old.items ++ spelling)) }
    ensures err { IfErr result (λ e. e ≡ ZeroTrieBuildError.OutOfMemory) }
{
    push_number(out, 0x80, &write_varint_meta3(value))
}

/// Writes one byte of each offset; `place` counts from the lowest byte.
fn push_block(out: &mut Vec<u8>, offsets: &[usize], place: usize) -> Result<(), ZeroTrieBuildError>
    requires { place < 8 }
    ensures ok { OnOk result (out.new.items
        ≡ out.old.items ++ map (λ o. o / 256 ^ place % 256) offsets.now) }
    ensures err { IfErr result (λ e. e ≡ ZeroTrieBuildError.OutOfMemory) }
{
    for offset in offsets {
        out.push(((offset >> (8 * place)) % 256) as u8)?;
    }
    Ok(())
}

/// Writes the lowest bytes of the offsets in blocks, the highest block first.
fn push_offsets(
    out: &mut Vec<u8>,
    offsets: &[usize],
    bytes: usize,
) -> Result<(), ZeroTrieBuildError>
    requires { bytes ≤ 8 }
    ensures ok { OnOk result (out.new.items ≡ out.old.items ++ blocks bytes offsets.now) }
    ensures err { IfErr result (λ e. e ≡ ZeroTrieBuildError.OutOfMemory) }
{
    for place in (0..bytes).rev() {
        push_block(out, offsets, place)?;
    }
    Ok(())
}

/// Returns the width field for targets of this many bytes in total, if the kind has it.
fn width_of(total: usize) -> Option<usize>
    ensures width { IfSome result (λ w. (w ≤ 3) × IsWidth total w) }
    ensures none { IfNone result (2 ^ 32 ≤ total) }
{
    let width = least_width(total);
    (width <= 3).then_some(width)
}

pub(super) fn push_branch(
    out: &mut Vec<u8>,
    edges: &[u8],
    offsets: &[usize],
    targets: &[u8],
) -> Result<(), ZeroTrieBuildError>
    ensures ok { OnOk result ((texts : List (List ℕ))
        → AreTargets texts edges.now offsets.now targets.now
        → out.new.items ≡ out.old.items ++ branch_node edges.now texts) }
    ensures narrow { OnOk result (length targets.now < 2 ^ 32) }
    ensures err { IfErr result (λ e.
        (e ≡ ZeroTrieBuildError.OutOfMemory)
        ⊎ ((e ≡ ZeroTrieBuildError.CapacityExceeded) × (2 ^ 32 ≤ length targets.now))) }
{
    let width = width_of(targets.len()).ok_or(ZeroTrieBuildError::CapacityExceeded)?;
    push_number(
        out,
        0xC0,
        &write_varint_meta2(256 * width + edges.len() % 256),
    )?;
    out.extend_from_slice(edges)?;
    push_offsets(out, offsets, width + 1)?;
    out.extend_from_slice(targets)?;
    Ok(())
}
