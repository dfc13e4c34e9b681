//! The words that begin with what was typed.

ghost use Rattle.std.specs.Prelude.{◌≡◌, IfOk};
ghost use Rattle.std.specs.String.{string_bytes};
ghost use Rattle.zerotrie.specs.Items.{keyed, pairs_of};
ghost use Rattle.zerotrie.specs.Kind.{simple_ascii};
ghost use Rattle.zerotrie.specs.Maps.{beginning};

use std::alloc::Global;
use zerotrie::{Error, ZeroTrieSimpleAscii};

/// Returns those of the pairs whose words begin with a prefix, in their order. The pairs ascend.
///
/// The errors are those of `ZeroTrieSimpleAscii::try_from_sorted_slice`, and `List` or `Memory` if an
/// allocation fails.
pub fn complete(
    alloc: Global,
    pairs: &[(&[u8], usize)],
    prefix: &[u8],
) -> Result<Vec<(String, usize)>, Error>
    ensures { IfOk result (λ found. keyed (λ word. string_bytes word) found.items
        ≡ beginning simple_ascii prefix.now (pairs_of pairs.now)) }
{
    let trie = ZeroTrieSimpleAscii::try_from_sorted_slice(alloc, pairs)?;
    let mut found = Vec::new(alloc);
    for pair in trie.iter_prefix(alloc, prefix)? {
        found.push(pair?)?;
    }
    Ok(found)
}
