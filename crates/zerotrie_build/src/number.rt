//! The numbers that nodes begin with: their bytes and their lengths.

ghost use Rattle.std.specs.Prelude.{◌≡◌, ◌⊎◌, ◌<◌, ◌≤◌, length};
ghost use Rattle.zerotrie_base.specs.Numbers.{Form, Spells, spelled_as};
ghost use Rattle.zerotrie_build.specs.passes.Writing.{IsLead, spelled_with_bits};

use arrayvec::ArrayVec;
use zerotrie_base::{write_varint_meta2, write_varint_meta3};

/// The bits of the lead of a value node.
pub(crate) const VALUE: u8 = 0b1000_0000;

/// The bits of the lead of a span.
pub(crate) const SPAN: u8 = 0b1010_0000;

/// The bits of the lead of a branch.
pub(crate) const BRANCH: u8 = 0b1100_0000;

/// Returns the bytes of a number in the form whose shortest number of two bytes is `latent`. Its
/// lead has no bits besides.
fn plain_bytes(latent: u8, number: usize) -> ArrayVec<u8, 10>
    requires { (latent ≡ 16) ⊎ (latent ≡ 32) }
    ensures { Spells latent 0 number result.items }
{
    if latent == 16 {
        write_varint_meta3(number)
    } else {
        write_varint_meta2(number)
    }
}

/// Returns the bytes of a number in the form whose shortest number of two bytes is `latent`, with
/// these bits in its lead.
pub(crate) fn number_bytes(bits: u8, latent: u8, number: usize) -> ArrayVec<u8, 10>
    requires { IsLead bits latent }
    ensures { result.items ≡ spelled_with_bits bits latent number }
{
    let mut bytes = plain_bytes(latent, number);
    bytes.as_mut_slice()[0] += bits;
    bytes
}

/// Returns how many bytes a number has in the form whose shortest number of two bytes is `latent`.
pub(crate) fn number_len(latent: usize, number: usize) -> usize
    requires { (latent ≡ 16) ⊎ (latent ≡ 32) }
    ensures len { (form : Form) → form.latent_value ≡ latent
        → result ≡ length (spelled_as form number) }
    ensures few { result ≤ 10 }
{
    let mut len = 1;
    let mut rest = number;
    while rest >= latent {
        rest = (rest - latent) / 128;
        len += 1;
    }
    len
}
