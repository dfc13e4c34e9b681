//! The first fault of malformed bytes.

ghost use Rattle.std.specs.Prelude.{◌≡◌, ◌≤◌, ◌⊎◌, length, IfSome, IfNone};
ghost use Rattle.zerotrie_c.specs.FaultNumbers.{fault_number, IsFaultTold};
ghost use Rattle.zerotrie_c.specs.Numbers.{kind_of};
ghost use Rattle.zerotrie_c.specs.Statuses.{unknown_kind};

use crate::numbers::{DONE, OUT_OF_MEMORY, UNKNOWN_KIND, trie_of};
use std::alloc::Global;
use zerotrie_core::{FaultCause, Trie};

/// Returns the number of a rule of the format.
fn number_of(cause: FaultCause) -> u32
    ensures { result ≡ fault_number cause }
{
    match cause {
        FaultCause::NoNode => 1,
        FaultCause::NoSpans => 2,
        FaultCause::UnexpectedEnd => 3,
        FaultCause::ValueAfterValue => 4,
        FaultCause::SpanAfterSpan => 5,
        FaultCause::EmptySpan => 6,
        FaultCause::AsciiInSpan => 7,
        FaultCause::WrongTable => 8,
        FaultCause::WrongWidth => 9,
        FaultCause::WrongOffsets => 10,
    }
}

/// Returns the number of the rule of the format that fails first in the bytes, from 1 on, and sets
/// `at` to the number of bytes before the place where it fails. Returns `DONE` if the bytes are a
/// valid trie of the kind. `OUT_OF_MEMORY` and `UNKNOWN_KIND` are no numbers of rules.
#[unsafe(no_mangle)]
pub extern "C" fn zerotrie_first_fault(
    alloc: Global,
    kind: u32,
    bytes: &[u8],
    at: &mut usize,
) -> u32
    ensures known { IfSome (kind_of kind) (λ k. IsFaultTold k bytes.now result at.old at.new) }
    ensures within { (at.new ≡ at.old) ⊎ (at.new ≤ length bytes.now) }
    ensures unknown { IfNone (kind_of kind) ((result ≡ unknown_kind) × (at.new ≡ at.old)) }
{
    let Some(trie) = trie_of(kind, bytes) else {
        return UNKNOWN_KIND;
    };
    match trie.first_fault(alloc) {
        Ok(Some(fault)) => {
            *at = fault.place;
            number_of(fault.cause)
        }
        Ok(None) => DONE,
        Err(_) => OUT_OF_MEMORY,
    }
}
