//! The second pass: the bytes of the text, from the first to the last.

ghost use Rattle.std.specs.Prelude.{◌≡◌, ◌≢◌, ℕ, List, [], ◌∷◌, ◌+◌, ◌-◌, ◌*◌, ◌/◌, ◌%◌, ◌^◌, ◌<◌, ◌≤◌, ◌++◌, length, map, replicate, slice_index, slice_index_or, take, drop, reverse, All, IfOk, OnOk, IfErr, IfSome, IfNone, IsTrue};
ghost use Rattle.zerotrie_base.specs.Maps.{map_of};
ghost use Rattle.zerotrie_base.specs.Numbers.{value_form, span_form, SpellsAs, spelled_as};
ghost use Rattle.zerotrie_base.specs.Branches.{total as total_of, ends, blocks, branch_front};
ghost use Rattle.zerotrie_base.specs.Canonical.{size_of};
ghost use Rattle.zerotrie_base.specs.Texts.{Means};
ghost use Rattle.zerotrie_base.specs.Causes.{Cause};
ghost use Rattle.zerotrie_base.specs.plain.Encoding.{with_bits};
ghost use Rattle.zerotrie_build.specs.Order.{Ordered, AreKeys, AreAsciiKeys};
ghost use Rattle.zerotrie_build.specs.passes.Windows.{window as window_of, item_no, step_of};
ghost use Rattle.zerotrie_build.specs.passes.Measured.{NoneFirst, HasFirstTargets, IsMeasured};
ghost use Rattle.zerotrie_build.specs.passes.Writing.{IsLead, spelled_with_bits, target_lens, HasSlotsTo, position_at, IsPending};

use crate::branch::{Layout, Next, PendingWindow, Position, WriteInput};
use crate::items::IndexedItems;
use crate::number::{BRANCH, SPAN, VALUE, number_bytes};
use crate::store::TrieBuilderStore;
use crate::windows::{Step, Window, ascii_leaf, first_step, literals_end};
use std::alloc::{AllocError, Allocator, Global};
use std::marker::Model;
use zerotrie_base::{ZeroTrieBuildError, ZeroTrieWithOptions, least_width};

/// A text that is written from its first byte on into a store, which has its length from the start.
#[derive(Drop)]
pub(crate) struct Writing<S: TrieBuilderStore> {
    store: S,
    /// Where the next byte goes.
    place: usize,
}

impl<S: TrieBuilderStore> Model for Writing<S> {
    ghost use Rattle.zerotrie_build.specs.Zeros.{IsClear};
    ghost use Rattle.zerotrie_build.specs.passes.Written.{Written, written_to};

    ghost Value = { Written };

    ghost view = { λ w. written_to (S.list w.store) w.place };

    ghost invariant = { λ w. IsClear (S.list w.store) w.place };
}

impl<S: TrieBuilderStore + Drop> Writing<S> {
    ghost use Rattle.zerotrie_build.specs.passes.Writes.{HasRoom, FrontFits, Writes, FrontWritten, NodesWritten, WrittenTo};

    /// Returns a store of this many zeros, to be written from its front.
    pub(crate) fn new(alloc: Global, len: usize) -> Result<Self, AllocError>
        ensures empty { IfOk result (λ w. w.bytes ≡ []) }
        ensures len { IfOk result (λ w. w.len ≡ len) }
    {
        let mut store = S::atbs_new_empty(alloc);
        store.atbs_prepend_n_zeros(len)?;
        Ok(Writing { store, place: 0 })
    }

    /// Returns the store, if all of it is written.
    pub(crate) fn into_store(self) -> S
        requires { length self.bytes ≡ self.len }
        ensures is { S.list result ≡ self.bytes }
        ensures short { length (S.list result) < 2 ^ 64 }
    {
        let Writing { store, place: _ } = self;
        store
    }

    /// Writes a byte.
    #[inline(always)]
    fn put(&mut self, byte: u8)
        requires { HasRoom self.old 1 }
        ensures { Writes self.old self.new (byte ∷ []) }
    {
        self.store.atbs_bitor_assign(self.place, byte);
        self.place += 1;
    }

    /// Writes bytes.
    #[inline(always)]
    fn put_all(&mut self, bytes: &[u8])
        requires { HasRoom self.old (length bytes.now) }
        ensures { Writes self.old self.new bytes.now }
    {
        self.store.atbs_set_zeros(self.place, bytes);
        self.place += bytes.len();
    }

    /// Writes a number in the form whose shortest number of two bytes is `latent`, with these bits
    /// in its lead. Most have one byte or two, which are written at once.
    #[inline(always)]
    fn put_number(&mut self, bits: u8, latent: u8, number: usize)
        requires form { IsLead bits latent }
        requires room { HasRoom self.old (length (spelled_with_bits bits latent number)) }
        ensures { Writes self.old self.new (spelled_with_bits bits latent number) }
    {
        let least = latent as usize;
        if number < least {
            self.put(bits + number as u8);
            return;
        }
        let low = number - least;
        if low < 128 * least {
            self.put(bits + latent + (low / 128) as u8);
            self.put((low % 128) as u8);
            return;
        }
        self.put_large(bits, latent, number);
    }

    /// Writes a number that has three bytes or more. Three are written as they are found.
    #[inline(always)]
    fn put_large(&mut self, bits: u8, latent: u8, number: usize)
        requires form { IsLead bits latent }
        requires large { latent + 128 * latent ≤ number }
        requires room { HasRoom self.old (length (spelled_with_bits bits latent number)) }
        ensures { Writes self.old self.new (spelled_with_bits bits latent number) }
    {
        let least = latent as usize;
        let low = number - least;
        let high = low / 128 - least;
        if high < 128 * least {
            self.put(bits + latent + (high / 128) as u8);
            self.put(128 + (high % 128) as u8);
            self.put((low % 128) as u8);
            return;
        }
        self.put_larger(bits, latent, number);
    }

    /// Writes a number that has four bytes or more. The numbers of lines of a long file have four.
    #[inline(always)]
    fn put_larger(&mut self, bits: u8, latent: u8, number: usize)
        requires form { IsLead bits latent }
        requires larger { latent + 128 * (latent + 128 * latent) ≤ number }
        requires room { HasRoom self.old (length (spelled_with_bits bits latent number)) }
        ensures { Writes self.old self.new (spelled_with_bits bits latent number) }
    {
        let least = latent as usize;
        let low = number - least;
        let middle = low / 128 - least;
        let top = middle / 128 - least;
        if top < 128 * least {
            self.put(bits + latent + (top / 128) as u8);
            self.put(128 + (top % 128) as u8);
            self.put(128 + (middle % 128) as u8);
            self.put((low % 128) as u8);
            return;
        }
        self.put_all(&number_bytes(bits, latent, number));
    }

    /// Writes a value node.
    #[inline(always)]
    fn put_value(&mut self, value: usize)
        requires { HasRoom self.old (length (spelled_as value_form value)) }
        ensures puts { Writes self.old self.new (spelled_as value_form value) }
        ensures spells { SpellsAs value_form value (spelled_as value_form value) }
    {
        self.put_number(VALUE, 16, value);
    }

    /// Writes the literals that the window's keys continue with up to a depth.
    #[inline(always)]
    fn put_literals<'a, I: IndexedItems<'a>>(&mut self, items: I, window: Window, end: usize)
        requires item { window.from < length (I.pairs items) }
        requires order { window.depth ≤ end }
        requires within { end ≤ length (item_no (I.pairs items) window.from).0 }
        requires room { HasRoom self.old (end - window.depth) }
        ensures { Writes self.old self.new (take (end - window.depth)
            (drop window.depth (item_no (I.pairs items) window.from).0)) }
    {
        let (key, _) = items.get(window.from);
        self.put_all(&key[window.depth..end]);
    }

    /// Writes a span of the bytes that the window's keys continue with.
    #[inline(always)]
    fn put_span<'a, I: IndexedItems<'a>>(&mut self, items: I, window: Window, run: usize)
        requires item { window.from < length (I.pairs items) }
        requires run { window.depth + run ≤ length (item_no (I.pairs items) window.from).0 }
        requires room { HasRoom self.old (length (spelled_as span_form run) + run) }
        ensures puts { Writes self.old self.new (spelled_as span_form run ++ take run
            (drop window.depth (item_no (I.pairs items) window.from).0)) }
        ensures spells { SpellsAs span_form run (spelled_as span_form run) }
    {
        let (key, _) = items.get(window.from);
        self.put_number(SPAN, 16, run);
        self.put_all(&key[window.depth..window.depth + run]);
    }

    /// Writes the bytes of this weight of the offsets of a branch to the targets of these numbers.
    #[inline(always)]
    fn put_block(&mut self, lens: &[usize], numbers: &[usize], place: usize)
        requires place { place < 8 }
        requires within { All (λ i. i < length lens.now) numbers.now }
        requires small { total_of (target_lens lens.now numbers.now) < 2 ^ 64 }
        requires room { HasRoom self.old (length numbers.now - 1) }
        ensures { Writes self.old self.new
            (map (λ o. o / 256 ^ place % 256) (ends (target_lens lens.now numbers.now))) }
    {
        let mut end = 0;
        for index in 1..numbers.len() {
            end += lens[numbers[index - 1]];
            self.put(((end >> (8 * place)) % 256) as u8);
        }
    }

    /// Writes `bytes` bytes of each offset of a branch to the targets of these numbers, the highest
    /// of them first.
    #[inline(always)]
    fn put_offsets(&mut self, lens: &[usize], numbers: &[usize], bytes: usize)
        requires bytes { bytes ≤ 8 }
        requires within { All (λ i. i < length lens.now) numbers.now }
        requires small { total_of (target_lens lens.now numbers.now) < 2 ^ 64 }
        requires room { HasRoom self.old (bytes * (length numbers.now - 1)) }
        ensures { Writes self.old self.new
            (blocks bytes (ends (target_lens lens.now numbers.now))) }
    {
        for place in (0..bytes).rev() {
            self.put_block(lens, numbers, place);
        }
    }

    /// Writes a branch with this search table in front of the targets of these numbers, which are
    /// so long.
    #[inline(always)]
    fn put_branch(&mut self, table: &[u8], lens: &[usize], numbers: &[usize])
        requires within { All (λ i. i < length lens.now) numbers.now }
        requires small { total_of (target_lens lens.now numbers.now) < 2 ^ 64 }
        requires room { HasRoom self.old (length (branch_front table.now (target_lens lens.now numbers.now))) }
        ensures { Writes self.old self.new
            (branch_front table.now (target_lens lens.now numbers.now)) }
    {
        let width = least_width(total(lens, numbers));
        self.put_number(BRANCH, 32, 256 * width + numbers.len() % 256);
        self.put_all(table);
        self.put_offsets(lens, numbers, width + 1);
    }

    /// Writes the values, literals and spans that are first in the window. Returns the window after
    /// them.
    #[inline(always)]
    fn put_front<'a, K: ZeroTrieWithOptions, I: IndexedItems<'a>>(
        &mut self,
        items: I,
        window: Window,
    ) -> Window
        requires keys { AreKeys K.kind (I.pairs items) }
        requires known { (targets : List Window)
            × HasFirstTargets K.kind (I.pairs items) window targets }
        requires room { FrontFits K.kind (I.pairs items) window self.old }
        ensures front { FrontWritten K.kind (I.pairs items) window result
            self.old self.new }
        ensures stops { NoneFirst K.kind (I.pairs items) result }
        ensures room { step_of K.kind (I.pairs items) result ≡ Step.Branch
            → result.depth + 1 < 2 ^ 64 }
    {
        let mut rest = window;
        loop {
            match first_step::<K, I>(items, rest) {
                Step::Value(value) => {
                    self.put_value(value);
                    rest.from += 1;
                }
                Step::Literal(_) => {
                    let end = literals_end(items, rest);
                    self.put_literals(items, rest, end);
                    rest.depth = end;
                }
                Step::Span(count) => {
                    self.put_span(items, rest, count);
                    rest.depth += count;
                }
                Step::Branch | Step::End => return rest,
            }
        }
    }

    /// Writes a window, whose slots begin at `slot`, node after node up to the targets of its first
    /// branch, and lays these out. A window of one item whose rest is ASCII, as most are, is
    /// written at once.
    #[inline(always)]
    fn put_nodes<'a, K: ZeroTrieWithOptions, I: IndexedItems<'a>, A: Allocator + Copy>(
        &mut self,
        items: I,
        input: WriteInput<'_>,
        window: Window,
        slot: usize,
        layout: &mut Layout<A>,
        pending: &mut Vec<Next, A>,
    ) -> Result<(), ZeroTrieBuildError>
        requires keys { AreKeys K.kind (I.pairs items) }
        requires ascii { IsTrue input.ascii → AreAsciiKeys (I.pairs items) }
        requires ordered { Ordered K.kind (I.pairs items) }
        requires kept { (end : ℕ)
            × HasSlotsTo K.kind (I.pairs items) input.slots.now slot end window }
        requires room { HasRoom self.old (size_of K.kind (window_of (I.pairs items) window)) }
        ensures put { OnOk result ((next : List Next) × (reverse pending.new.items
            ≡ next ++ reverse pending.old.items)
            × NodesWritten K.kind (I.pairs items) input.entry.slots.now slot window next
            self.old self.new) }
        ensures refused { IfErr result (λ e. e ≢ ZeroTrieBuildError.OutOfMemory
            → (e ≡ ZeroTrieBuildError.CouldNotSolvePerfectHash) × Cause K.kind (I.pairs items) e) }
    {
        if let Some((literals, value)) = ascii_leaf(items, window, input.ascii) {
            self.put_all(literals);
            self.put_value(value);
            return Ok(());
        }
        // That a length is below 2^64 shows the proof that so are the places of the slots.
        let _len = input.slots.len();
        let rest = self.put_front::<K, I>(items, window);
        if rest.from < rest.to {
            layout.set::<K, I>(items, input, rest, slot, pending)?;
            let numbers = layout.numbers.as_slice();
            let lens = &input.slots[slot..slot + numbers.len()];
            self.put_branch(layout.table.as_slice(), lens, numbers);
        }
        Ok(())
    }

    /// Writes all that is pending, if the first window begins at the first item and the first slot.
    pub(crate) fn put_pending<'a, K: ZeroTrieWithOptions, I: IndexedItems<'a>, A: Allocator + Copy>(
        &mut self,
        items: I,
        input: WriteInput<'_>,
        layout: &mut Layout<A>,
        mut pending: Vec<Next, A>,
    ) -> Result<(), ZeroTrieBuildError>
        requires keys { AreKeys K.kind (I.pairs items) }
        requires ascii { IsTrue input.ascii → AreAsciiKeys (I.pairs items) }
        requires ordered { Ordered K.kind (I.pairs items) }
        requires pending { (ws : List Window)
            × WrittenTo K.kind (I.pairs items) self.old ws
            × IsPending K.kind (I.pairs items) input.slots.now (position_at 0 0)
            (reverse pending.items) ws }
        ensures put { OnOk result (WrittenTo K.kind (I.pairs items)
            self.new []) }
        ensures refused { IfErr result (λ e. e ≢ ZeroTrieBuildError.OutOfMemory
            → (e ≡ ZeroTrieBuildError.CouldNotSolvePerfectHash) × Cause K.kind (I.pairs items) e) }
    {
        let mut position = Position { from: 0, slot: 0 };
        while let Some(next) = pending.pop() {
            match next {
                Next::Go(there) => position = there,
                Next::Text(PendingWindow { to, depth }) => {
                    let from = position.from;
                    let window = Window { from, to, depth };
                    self.put_nodes::<K, I, A>(
                        items,
                        input,
                        window,
                        position.slot,
                        layout,
                        &mut pending,
                    )?;
                    position.from = to;
                }
            }
        }
        Ok(())
    }
}

/// Returns the sum of the lengths of the targets of these numbers.
fn total(lens: &[usize], numbers: &[usize]) -> usize
    requires within { All (λ i. i < length lens.now) numbers.now }
    requires small { total_of (target_lens lens.now numbers.now) < 2 ^ 64 }
    ensures { result ≡ total_of (target_lens lens.now numbers.now) }
{
    let mut total = 0;
    for number in numbers {
        total += lens[*number];
    }
    total
}
