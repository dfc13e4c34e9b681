//! Tagged bytes, which begin with the number of a kind, and the validation of bytes.

ghost use Rattle.std.specs.Prelude.{◌≡◌, ◌↔◌, ◌≤◌, ◌+◌, ◌++◌, length, drop, false, IfSome, IfNone, IsTrue};
ghost use Rattle.zerotrie_any.specs.Tagged.{tagged};
ghost use Rattle.zerotrie_core.specs.WellFormed.{IsWellFormed};
ghost use Rattle.zerotrie_c.specs.Numbers.{kind_of};
ghost use Rattle.zerotrie_c.specs.Builds.{IsHandedOut};
ghost use Rattle.zerotrie_c.specs.Statuses.{unknown_kind};
ghost use Rattle.zerotrie_c.specs.Tags.{IsUntagged};

use crate::numbers::{BUFFER_TOO_SMALL, DONE, INVALID_TAG, NO_TAG, UNKNOWN_KIND, is_kind, trie_of};
use zerotrie_core::Trie;

/// Returns whether the bytes are a valid trie of the kind: exactly if they mean a map. Not for a
/// number that no kind has.
#[unsafe(no_mangle)]
pub extern "C" fn zerotrie_is_well_formed(kind: u32, bytes: &[u8]) -> bool
    ensures known { IfSome (kind_of kind) (λ k. IsTrue result ↔ IsWellFormed k bytes.now) }
    ensures unknown { IfNone (kind_of kind) (result ≡ false) }
{
    match trie_of(kind, bytes) {
        Some(trie) => trie.is_well_formed(),
        None => false,
    }
}

/// Copies bytes and others after them to the beginning of the room, which has enough.
pub fn put_both(front: &[u8], behind: &[u8], out: &mut [u8])
    requires { length front.now + length behind.now ≤ length out.old }
    ensures { out.new ≡ (front.now ++ behind.now)
        ++ drop (length front.now + length behind.now) out.old }
{
    let (first, rest) = out.split_at_mut(front.len());
    first.copy_from_slice(front);
    let (second, _) = rest.split_at_mut(behind.len());
    second.copy_from_slice(behind);
}

/// Writes the number of the kind and the bytes to the beginning of `out`, if there is room, and
/// sets `len`.
#[unsafe(no_mangle)]
pub extern "C" fn zerotrie_tagged(kind: u32, bytes: &[u8], out: &mut [u8], len: &mut usize) -> u32
    ensures known { IfSome (kind_of kind) (λ k.
        IsHandedOut (tagged k bytes.now) result len.new out.old out.new) }
    ensures unknown { IfNone (kind_of kind) ((result ≡ unknown_kind) × (len.new ≡ len.old)
        × (out.new ≡ out.old)) }
{
    if !is_kind(kind) {
        return UNKNOWN_KIND;
    }
    *len = bytes.len() + 1;
    if out.len() <= bytes.len() {
        return BUFFER_TOO_SMALL;
    }
    put_both(&[kind as u8], bytes, out);
    DONE
}

/// Sets `kind` to the kind of tagged bytes, whose trie is what follows their first byte. It does
/// not validate the trie.
#[unsafe(no_mangle)]
pub extern "C" fn zerotrie_tagged_kind(tagged: &[u8], kind: &mut u32) -> u32
    ensures { IsUntagged tagged.now result kind.old kind.new }
{
    match tagged {
        [] => NO_TAG,
        [first, ..] => {
            if !is_kind(*first as u32) {
                return INVALID_TAG;
            }
            *kind = *first as u32;
            DONE
        }
    }
}
