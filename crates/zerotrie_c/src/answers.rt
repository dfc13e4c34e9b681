//! What is found, as C is told of it.

ghost use Rattle.std.specs.Prelude.{◌≡◌, ℕ, false};
ghost use Rattle.std.specs.Option.{option_map};
ghost use Rattle.zerotrie_c.specs.Answers.{told, told_both};

use zerotrie_core::ByteProbeResult;

/// Returns whether something is found, and then sets `value` to it.
pub fn tell(found: Option<usize>, value: &mut usize) -> bool
    ensures told { told result value.new ≡ found }
    ensures kept { result ≡ false → value.new ≡ value.old }
{
    match found {
        Some(found) => {
            *value = found;
            true
        }
        None => false,
    }
}

/// Returns whether a key is found, and then sets `len` and `value` to its length and its value.
pub fn tell_both(found: Option<(usize, usize)>, len: &mut usize, value: &mut usize) -> bool
    ensures told { told_both result len.new value.new ≡ found }
    ensures kept { result ≡ false → (len.new ≡ len.old) × (value.new ≡ value.old) }
{
    match found {
        Some((length, found)) => {
            *len = length;
            *value = found;
            true
        }
        None => false,
    }
}

/// Returns whether an edge is found, and then sets `edge` to its byte and `siblings` to the number
/// of edges.
pub fn tell_edge(found: Option<ByteProbeResult>, edge: &mut u8, siblings: &mut u16) -> bool
    ensures told { told_both result edge.new siblings.new
        ≡ option_map {U = ℕ × ℕ} (λ r. (r.byte, r.total_siblings)) found }
    ensures edge { told result edge.new ≡ option_map (λ r. r.byte) found }
    ensures kept { result ≡ false → (edge.new ≡ edge.old) × (siblings.new ≡ siblings.old) }
{
    match found {
        Some(found) => {
            *edge = found.byte;
            *siblings = found.total_siblings;
            true
        }
        None => false,
    }
}
