//! Short bytes, copied as two parts of fixed length, which needs no call.

ghost use Rattle.std.specs.Prelude.{◌≡◌, ◌++◌, ◌*◌, ◌≤◌, length, OnOk};

use std::alloc::AllocError;

/// Adds `N` to `2 * N` bytes: the first `N` of them, and over these the last `N`.
#[inline(always)]
fn push_parts<const N: usize>(output: &mut Vec<u8>, bytes: &[u8]) -> Result<(), AllocError>
    requires least { N ≤ length bytes.now }
    requires most { length bytes.now ≤ 2 * N }
    ensures { OnOk result (output.new.items ≡ output.old.items ++ bytes.now) }
{
    let (first, _) = bytes.split_at(N);
    let (front, last) = bytes.split_at(bytes.len() - N);
    let end = output.len() + front.len();
    output.extend_from_slice(first)?;
    output.truncate(end);
    output.extend_from_slice(last)
}

/// Adds bytes. Four to sixteen, as most keys and numbers have, are copied without a call.
#[inline(always)]
pub(crate) fn push_bytes(output: &mut Vec<u8>, bytes: &[u8]) -> Result<(), AllocError>
    ensures { OnOk result (output.new.items ≡ output.old.items ++ bytes.now) }
{
    match bytes.len() {
        8..=16 => push_parts::<8>(output, bytes),
        4..=7 => push_parts::<4>(output, bytes),
        _ => output.extend_from_slice(bytes),
    }
}
