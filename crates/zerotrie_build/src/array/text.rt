//! A text that is written from its last byte to its first.

ghost use Rattle.std.specs.Prelude.{◌≡◌, ℕ, ◌+◌, ◌-◌, ◌/◌, ◌%◌, ◌^◌, ◌<◌, ◌≤◌, [], ◌∷◌, length, map};
ghost use Rattle.zerotrie_base.specs.Numbers.{value_form, spelled_as, SpellsAs};
ghost use Rattle.zerotrie_base.specs.Branches.{total as total_of, ends, blocks, branch_front};
ghost use Rattle.zerotrie_build.specs.array.Texts.{Prepends, Counts, newest_first, bytes_of, lens_of};

use crate::number::{BRANCH, VALUE, number_bytes};
use zerotrie_base::least_width;

/// A target of a branch that is not written yet.
#[derive(Clone, Copy, Debug, Default)]
pub(crate) struct Sibling {
    /// How many bytes lead to the branch.
    pub(crate) depth: usize,
    /// The edge byte.
    pub(crate) byte: u8,
    /// How many bytes the target has.
    pub(crate) len: usize,
}

/// A text at the end of a buffer. Bytes for which the buffer has no room are counted and lost, so
/// that a text is known to be too long only once all of it was written.
#[derive(Drop)]
pub(crate) struct Text<'a> {
    pub(crate) buffer: &'a mut [u8],
    /// How many bytes the text has, those that were lost too.
    pub(crate) len: usize,
    /// How many bytes are in front of the siblings.
    pub(crate) front: usize,
}

impl Text<'_> {
    /// Puts a byte in front: a literal is its byte.
    pub(crate) fn put(&mut self, byte: u8)
        ensures { Prepends self.old self.new (byte ∷ []) }
    {
        self.len = self.len.saturating_add(1);
        if let Some(place) = self.buffer.len().checked_sub(self.len) {
            self.buffer[place] = byte;
        }
        self.front = self.front.saturating_add(1);
    }

    /// Puts bytes in front.
    fn put_all(&mut self, bytes: &[u8])
        ensures { Prepends self.old self.new bytes.now }
    {
        for index in (0..bytes.len()).rev() {
            self.put(bytes[index]);
        }
    }

    /// Puts a value node in front.
    pub(crate) fn put_value(&mut self, value: usize)
        ensures puts { Prepends self.old self.new (spelled_as value_form value) }
        ensures spells { SpellsAs value_form value (spelled_as value_form value) }
    {
        self.put_all(&number_bytes(VALUE, 16, value));
    }

    /// Puts the bytes of this weight of the offsets of a branch to these targets in front.
    fn put_block(&mut self, siblings: &[Sibling], total: usize, place: usize)
        requires place { place < 8 }
        requires total { total ≡ total_of (lens_of (newest_first siblings.now)) }
        ensures { Prepends self.old self.new
            (map (λ o. o / 256 ^ place % 256) (ends (lens_of (newest_first siblings.now)))) }
    {
        let mut end = total;
        for index in 1..siblings.len() {
            end -= siblings[index - 1].len;
            self.put(((end >> (8 * place)) % 256) as u8);
        }
    }

    /// Puts `bytes` bytes of each offset of a branch to these targets in front.
    fn put_offsets(&mut self, siblings: &[Sibling], total: usize, bytes: usize)
        requires bytes { bytes ≤ 8 }
        requires total { total ≡ total_of (lens_of (newest_first siblings.now)) }
        ensures { Prepends self.old self.new
            (blocks bytes (ends (lens_of (newest_first siblings.now)))) }
    {
        for place in 0..bytes {
            self.put_block(siblings, total, place);
        }
    }

    /// Puts the edges of a branch to these targets in front.
    fn put_edges(&mut self, siblings: &[Sibling])
        ensures { Prepends self.old self.new (bytes_of (newest_first siblings.now)) }
    {
        for sibling in siblings {
            self.put(sibling.byte);
        }
    }

    /// Puts the head, the edges and the offsets of a branch to these targets in front. Together the
    /// targets have `total` bytes.
    pub(crate) fn put_branch(&mut self, siblings: &[Sibling], total: usize)
        requires total { total ≡ total_of (lens_of (newest_first siblings.now)) }
        ensures { Prepends self.old self.new
            (branch_front (bytes_of (newest_first siblings.now))
            (lens_of (newest_first siblings.now))) }
    {
        let width = least_width(total);
        self.put_offsets(siblings, total, width + 1);
        self.put_edges(siblings);
        self.put_all(&number_bytes(BRANCH, 32, 256 * width + siblings.len() % 256));
    }
}

/// Returns how many bytes the targets have together, or the greatest number if they have more.
pub(crate) fn total(siblings: &[Sibling]) -> usize
    ensures exact { total_of (lens_of (newest_first siblings.now)) < 2 ^ 64
        → result ≡ total_of (lens_of (newest_first siblings.now)) }
    ensures capped { 2 ^ 64 ≤ total_of (lens_of (newest_first siblings.now)) → 2 ^ 32 ≤ result }
{
    let mut total: usize = 0;
    for sibling in siblings {
        total = total.saturating_add(sibling.len);
    }
    total
}
