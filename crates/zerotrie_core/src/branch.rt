//! A branch in the bytes of a trie.
//!
//! After its head a branch has its search table, its offsets and its targets, one after another. A
//! sorted search table is the edges; a hashed one is the parameters of a perfect hash, then the
//! edges. Each target but the first has an offset, which is where it begins. The highest bytes of
//! all offsets come first, then the next bytes, and so on.

ghost use Rattle.std.specs.Prelude.{◌≡◌, ◌↔◌, ℕ, ◌+◌, ◌-◌, ◌*◌, ◌<◌, ◌≤◌, ◌⊎◌, [], length, take, drop, IfSome, IfNone, slice_index};
ghost use Rattle.std.specs.Option.{option_map};
ghost use Rattle.std.specs.Char.{to_ascii_lowercase};
ghost use Rattle.zerotrie_base.specs.Kind.{fold_byte};
ghost use Rattle.zerotrie_base.specs.Branches.{IsTable};
ghost use Rattle.zerotrie_base.specs.Nodes.{number_from, offset_in, end_of, targets_behind, IsTargetResult};
ghost use Rattle.zerotrie_base.specs.reader.Reading.{AlwaysRises, IsPlace, HasNoPlace};
ghost use Rattle.zerotrie_core.specs.reader.Going.{AlwaysGoes, AlwaysStops};
ghost use Rattle.zerotrie_core.specs.listing.Runs.{HasParts};

use crate::offsets::{end_at, offset_at, offsets_and_targets, short_offset_at};
use crate::simd::edge_search::{before_end, place_in};
use crate::simd::lanes::{first_in_16, first_in_32, first_in_64};
use zerotrie_base::{PerfectByteHashMap, ZeroTrieWithOptions, both_cases, folded};

/// A branch.
#[derive(Clone, Copy, Debug)]
pub struct Branch<'a> {
    /// The number of edges, from 2 to 256.
    pub edges: usize,
    /// The bytes of one offset, from 1 to 8.
    pub width: usize,
    /// The search table. Its last bytes are the edges.
    pub table: &'a [u8],
    /// All bytes from the edges on: edges, offsets, targets.
    pub behind: &'a [u8],
    ghost some: { (2 ≤ edges) × (edges ≤ 256) },
    ghost narrow: { (1 ≤ width) × (width ≤ 8) },
    ghost whole: { edges + width * (edges - 1) ≤ length behind.now },
    ghost ends: { drop (length table.now - edges) table.now ≡ take edges behind.now },
    ghost sized: { edges < length table.now → length table.now ≡ 2 * edges + 1 },
}

impl<'a> Branch<'a> {
    ghost use Rattle.zerotrie_core.specs.Shapes.{branch_shape};

    /// Returns the targets, one after another.
    #[inline(always)]
    pub(crate) fn targets(&self) -> &'a [u8]
        ensures { result.now ≡ targets_behind self.now.edges self.now.width self.now.behind.now }
    {
        let (_, targets) = offsets_and_targets(self.behind, self.edges, self.width);
        targets
    }

    /// Returns the byte of an edge.
    #[inline(always)]
    pub fn edge_at(&self, index: usize) -> u8
        requires { index < self.now.edges }
        ensures { result ≡ slice_index self.now.behind.now index }
    {
        self.behind[index]
    }

    /// Like `place_of`, for two edges.
    #[inline(always)]
    fn place_of_two<K: ZeroTrieWithOptions>(&self, byte: u8) -> Option<usize>
        requires { self.now.edges ≡ 2 }
        ensures some { IfSome result (IsPlace K.kind 2 self.now.behind.now byte) }
        ensures none { IfNone result (HasNoPlace K.kind 2 self.now.behind.now byte) }
    {
        let sought = folded::<K>(byte);
        let place = (folded::<K>(self.behind[1]) == sought) as usize;
        (folded::<K>(self.behind[place]) == sought).then_some(place)
    }

    /// Like `place_of`, by the perfect hash of the table or by binary search.
    #[inline(always)]
    fn place_by_table<K: ZeroTrieWithOptions>(&self, byte: u8) -> Option<usize>
        ensures some { IfSome result (IsPlace K.kind self.now.edges self.now.behind.now byte) }
        ensures none { IfNone result
            (IsTable K.kind (take self.now.edges self.now.behind.now) self.now.table.now
            → HasNoPlace K.kind self.now.edges self.now.behind.now byte) }
    {
        if K::USE_PHF && self.table.len() > self.edges {
            return PerfectByteHashMap::from_bytes(self.table).get(byte);
        }
        let (edges, _) = self.behind.split_at(self.edges);
        place_in::<K>(edges, byte)
    }

    /// Like `place_of`, for more than two edges. A place that is no edge's stands for `None`, so that
    /// one test tells all ways to search.
    #[inline(always)]
    fn place_or_beyond<K: ZeroTrieWithOptions>(&self, byte: u8) -> usize
        ensures some { result < self.now.edges
            → IsPlace K.kind self.now.edges self.now.behind.now byte result }
        ensures none { self.now.edges ≤ result
            → IsTable K.kind (take self.now.edges self.now.behind.now) self.now.table.now
            → HasNoPlace K.kind self.now.edges self.now.behind.now byte }
    {
        let (low, high) = both_cases::<K>(byte);
        if self.edges <= 16 && self.behind.len() >= 16 {
            return first_in_16(self.behind, low, high);
        }
        if self.edges <= 32 && self.behind.len() >= 32 {
            return first_in_32(self.behind, low, high);
        }
        if self.edges <= 64 && self.behind.len() >= 64 {
            return first_in_64(self.behind, low, high);
        }
        match self.place_by_table::<K>(byte) {
            Some(place) => place,
            None => self.edges,
        }
    }

    /// Returns the place of the edge that equals the byte in this kind.
    ///
    /// Compares two edges one by one, and up to 64 at once, in any order, if enough bytes follow.
    /// Otherwise uses the search table.
    #[inline(always)]
    pub fn place_of<K: ZeroTrieWithOptions>(&self, byte: u8) -> Option<usize>
        ensures some { IfSome result (IsPlace K.kind self.now.edges self.now.behind.now byte) }
        ensures none { IfNone result
            (IsTable K.kind (take self.now.edges self.now.behind.now) self.now.table.now
            → HasNoPlace K.kind self.now.edges self.now.behind.now byte) }
    {
        if self.edges == 2 {
            return self.place_of_two::<K>(byte);
        }
        before_end(self.place_or_beyond::<K>(byte), self.edges)
    }

    /// Like `target_within`, for two edges. The offset is read in any case, so as not to wait for
    /// the place.
    #[inline(always)]
    fn target_of_two(&self, index: usize) -> Option<(&'a [u8], usize)>
        requires two { self.now.edges ≡ 2 }
        requires index { index < 2 }
        ensures target { IsTargetResult 2 self.now.width self.now.behind.now index
            (option_map (λ r. r.0) result) }
        ensures after { IfSome result (λ r. r.1
            ≡ length (targets_behind 2 self.now.width self.now.behind.now)
            - end_of 2 self.now.width self.now.behind.now index) }
    {
        let (table, targets) = offsets_and_targets(self.behind, 2, self.width);
        let middle = offset_at(table, 0, 1, self.width);
        let begin = if index == 0 { 0 } else { middle };
        let end = if index == 0 { middle } else { targets.len() };
        let target = targets.get(begin..end)?;
        Some((target, targets.len() - end))
    }

    /// Returns where the target of an edge begins and ends, by offsets of up to three bytes. Where
    /// there is no offset, the result is unspecified: the byte before the offsets is read as if it
    /// were one, so that no place waits for a test of the edge.
    #[inline(always)]
    fn short_offsets(&self, index: usize, width: usize) -> (usize, usize)
        requires index { index < self.now.edges }
        requires width { (width ≡ self.now.width) × (width ≤ 3) }
        ensures before { 0 < index
            → result.0 ≡ offset_in self.now.edges self.now.width self.now.behind.now (index - 1) }
        ensures next { index < self.now.edges - 1
            → result.1 ≡ offset_in self.now.edges self.now.width self.now.behind.now index }
    {
        let count = self.edges - 1;
        let (_, last_edge_on) = self.behind.split_at(count);
        let (_, table) = self.behind.split_at(self.edges);
        let before = short_offset_at(last_edge_on, index, count, width);
        let next = short_offset_at(table, index.min(count - 1), count, width);
        (before, next)
    }

    /// Like `short_offsets`, for wider ones. Where there is no offset, returns that of the nearest
    /// edge.
    #[inline(always)]
    fn long_offsets(&self, index: usize) -> (usize, usize)
        requires index { index < self.now.edges }
        ensures before { 0 < index
            → result.0 ≡ offset_in self.now.edges self.now.width self.now.behind.now (index - 1) }
        ensures next { index < self.now.edges - 1
            → result.1 ≡ offset_in self.now.edges self.now.width self.now.behind.now index }
    {
        let count = self.edges - 1;
        let (table, _) = offsets_and_targets(self.behind, self.edges, self.width);
        let before = offset_at(table, index.saturating_sub(1), count, self.width);
        let next = offset_at(table, index.min(count - 1), count, self.width);
        (before, next)
    }

    /// Like `short_offsets`, for offsets of any width.
    #[inline(always)]
    fn offsets_at(&self, index: usize) -> (usize, usize)
        requires index { index < self.now.edges }
        ensures before { 0 < index
            → result.0 ≡ offset_in self.now.edges self.now.width self.now.behind.now (index - 1) }
        ensures next { index < self.now.edges - 1
            → result.1 ≡ offset_in self.now.edges self.now.width self.now.behind.now index }
    {
        match self.width {
            1 => self.short_offsets(index, 1),
            2 => self.short_offsets(index, 2),
            3 => self.short_offsets(index, 3),
            _ => self.long_offsets(index),
        }
    }

    /// Returns the target of an edge, and how many bytes of the targets follow it, or `None` if its
    /// offsets fall or are beyond the last target.
    #[inline(always)]
    pub(crate) fn target_within(&self, index: usize) -> Option<(&'a [u8], usize)>
        requires { index < self.now.edges }
        ensures target { IsTargetResult self.now.edges self.now.width self.now.behind.now index
            (option_map (λ r. r.0) result) }
        ensures after { IfSome result (λ r. r.1
            ≡ length (targets_behind self.now.edges self.now.width self.now.behind.now)
            - end_of self.now.edges self.now.width self.now.behind.now index) }
    {
        if self.edges == 2 {
            return self.target_of_two(index);
        }
        let targets = self.targets();
        let (before, next) = self.offsets_at(index);
        let from = if index == 0 { 0 } else { before };
        let to = if index == self.edges - 1 {
            targets.len()
        } else {
            next
        };
        let target = targets.get(from..to)?;
        Some((target, targets.len() - to))
    }

    /// Returns the target of an edge, or `None` if its offsets fall or are beyond the last target.
    #[inline(always)]
    pub fn target_at(&self, index: usize) -> Option<&'a [u8]>
        requires { index < self.now.edges }
        ensures { IsTargetResult self.now.edges self.now.width self.now.behind.now index result }
    {
        let (target, _) = self.target_within(index)?;
        Some(target)
    }

    /// Returns where the target of an edge ends among the targets, by its offset.
    #[inline(always)]
    pub fn end_at(&self, index: usize) -> usize
        requires { index < self.now.edges }
        ensures { result ≡ end_of self.now.edges self.now.width self.now.behind.now index }
    {
        end_at(self.behind, self.edges, self.width, index)
    }

    /// Returns the edge that equals the byte in this kind, its target, and how many bytes of the
    /// targets follow it.
    #[inline(always)]
    pub(crate) fn follow_within<K: ZeroTrieWithOptions>(
        &self,
        byte: u8,
    ) -> Option<(u8, &'a [u8], usize)>
        ensures lies { IfSome result (λ r. HasParts self.now.behind.now [] r.1.now r.2) }
        ensures some { IfSome result (λ r.
            AlwaysGoes K.kind (branch_shape self.now) byte r.0 r.1.now) }
        ensures none { IfNone result (AlwaysStops K.kind (branch_shape self.now) byte) }
    {
        let place = self.place_of::<K>(byte)?;
        let (target, after) = self.target_within(place)?;
        Some((self.edge_at(place), target, after))
    }

    /// Returns the edge that equals the byte in this kind, and its target.
    #[inline(always)]
    pub fn follow<K: ZeroTrieWithOptions>(&self, byte: u8) -> Option<(u8, &'a [u8])>
        ensures shorter { IfSome result (λ r. length r.1.now ≤ length self.now.behind.now) }
        ensures some { IfSome result (λ r.
            AlwaysGoes K.kind (branch_shape self.now) byte r.0 r.1.now) }
        ensures none { IfNone result (AlwaysStops K.kind (branch_shape self.now) byte) }
    {
        let (edge, target, _) = self.follow_within::<K>(byte)?;
        Some((edge, target))
    }
}
