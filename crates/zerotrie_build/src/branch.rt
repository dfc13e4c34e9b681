//! The search tables of branches, and the order that they give the targets.

ghost use Rattle.std.specs.Prelude.{◌≡◌, ◌≢◌, ℕ, List, [], ◌∷◌, false, ◌+◌, ◌-◌, ◌^◌, ◌<◌, ◌≤◌, ◌++◌, length, map, reverse, slice_index_or, All, IfOk, OnOk, IfErr, IsTrue};
ghost use Rattle.std.specs.List.{range_with_len};
ghost use Rattle.std.specs.List.Sorted.{IsPermutation, IsStrictlyIncreasing};
ghost use Rattle.zerotrie_base.specs.Refusals.{IsTableRefusal};
ghost use Rattle.zerotrie_base.specs.Kind.{fold_byte, is_hashed};
ghost use Rattle.zerotrie_base.specs.Causes.{AreCrooked};
ghost use Rattle.zerotrie_build.specs.Order.{Ordered};
ghost use Rattle.zerotrie_build.specs.passes.Windows.{window as window_of, edge_of};
ghost use Rattle.zerotrie_build.specs.passes.Measured.{TargetWindows};
ghost use Rattle.zerotrie_build.specs.passes.Writing.{window_at, edge_no, place_in, position_at, text_of, placed_next, next_of, IsHashedLayout, IsLayout, HasSlots};

use crate::items::IndexedItems;
use crate::measure::{HASHED_FROM, Measured, is_hashed};
use crate::windows::{Window, byte_in, group_of};
use std::alloc::{AllocError, Allocator, Global};
use std::marker::Model;
use zerotrie_base::{PerfectByteHashMapCacheOwned, ZeroTrieBuildError, ZeroTrieWithOptions};

/// Where the next window begins: with which item, and with which slot.
#[derive(Clone, Copy)]
pub(crate) struct Position {
    pub(crate) from: usize,
    pub(crate) slot: usize,
}

/// A window that begins where the one before it ended.
#[derive(Clone, Copy)]
pub(crate) struct PendingWindow {
    pub(crate) to: usize,
    pub(crate) depth: usize,
}

/// What is written next.
#[derive(Clone, Copy)]
pub(crate) enum Next {
    /// The next window begins at this place.
    Go(Position),
    /// The text of this window.
    Text(PendingWindow),
}

/// What the second pass goes by besides the items: what the first pass found of them.
#[derive(Clone, Copy)]
pub(crate) struct WriteInput<'a> {
    pub(crate) slots: &'a [usize],
    /// If it is true, all keys are ASCII.
    pub(crate) ascii: bool,
}

impl<'a> WriteInput<'a> {
    /// Makes the input of the second pass from what the first one found. If `ascii` is true, all
    /// keys are ASCII.
    pub(crate) fn new<A: Allocator>(measured: &'a Measured<A>, ascii: bool) -> Self
        ensures slots { result.slots.now ≡ measured.now.slots.items }
        ensures ascii { result.ascii ≡ ascii }
    {
        WriteInput {
            slots: measured.slots.as_slice(),
            ascii,
        }
    }
}

/// The layout of a branch. Its memory is reused for each branch. Hashed tables have memory of their
/// own.
#[derive(Drop)]
pub(crate) struct Layout<A: Allocator> {
    alloc: Global,
    cache: PerfectByteHashMapCacheOwned,
    last: LastTable<A>,
    /// The windows of the targets, in the order of the edges.
    pub(crate) windows: Vec<Window, A>,
    /// The search table.
    pub(crate) table: Vec<u8, A>,
    /// The numbers of the targets among the windows, in the order of the table.
    pub(crate) numbers: Vec<usize, A>,
}

impl<A: Allocator + Copy> Layout<A> {
    /// Returns the layout of no branch.
    pub(crate) fn new(alloc: Global, spare: A) -> Self {
        Layout {
            alloc,
            cache: PerfectByteHashMapCacheOwned::new_empty(alloc),
            last: LastTable::new(spare),
            windows: Vec::new(spare),
            table: Vec::new(spare),
            numbers: Vec::new(spare),
        }
    }

    /// Arranges the targets of the branch at the beginning of the window in the order of their
    /// edges. They have no numbers yet.
    fn set_sorted<'a, K: ZeroTrieWithOptions, I: IndexedItems<'a>>(
        &mut self,
        items: I,
        window: Window,
    ) -> Result<(), AllocError>
        requires order { window.from ≤ window.to }
        requires items { window.to ≤ length (I.pairs items) }
        requires room { window.depth + 1 < 2 ^ 64 }
        requires ordered { Ordered K.kind (window_of (I.pairs items) window) }
        ensures parts { OnOk result (TargetWindows (I.pairs items) window self.new.windows.items) }
        ensures table { OnOk result (self.new.table.items
            ≡ map (edge_of (I.pairs items)) self.new.windows.items) }
    {
        self.windows.clear();
        self.table.clear();
        let mut rest = window;
        let mut byte = byte_in(items, window, window.from);
        while rest.from < rest.to {
            let group = group_of::<K, I>(items, rest, byte);
            let target = Window::new(rest.from, group.end, rest.depth + 1);
            self.table.push(byte.unwrap_or(0))?;
            self.windows.push(target)?;
            rest.from = group.end;
            byte = group.next;
        }
        Ok(())
    }

    /// Arranges the targets in the order of the last hashed table.
    fn set_last(&mut self) -> Result<(), AllocError>
        requires { IsHashedLayout self.old.table.items self.old.last.table self.old.last.numbers }
        ensures ok { OnOk result (IsHashedLayout self.old.table.items self.new.table.items
            self.new.numbers.items) }
        ensures windows { self.new.windows.items ≡ self.old.windows.items }
    {
        self.table.clear();
        self.numbers.clear();
        self.table.extend_from_slice(self.last.table())?;
        self.numbers.extend_from_slice(self.last.numbers())?;
        Ok(())
    }

    /// Arranges the targets in the order of a new hashed table.
    fn set_new(&mut self) -> Result<(), ZeroTrieBuildError>
        requires { IsStrictlyIncreasing self.old.table.items }
        ensures ok { OnOk result (IsHashedLayout self.old.table.items self.new.table.items
            self.new.numbers.items) }
        ensures refused { IfErr result (IsTableRefusal self.old.table.items) }
        ensures windows { self.new.windows.items ≡ self.old.windows.items }
    {
        let keys = Vec::from_slice(self.alloc, self.table.as_slice())?;
        let table = self.cache.try_get_or_insert(keys)?;
        set_places(&mut self.numbers, self.table.as_slice(), table.keys())?;
        let bytes = table.as_bytes();
        self.last
            .keep(self.table.as_slice(), bytes, self.numbers.as_slice())?;
        self.table.clear();
        self.table.extend_from_slice(bytes)?;
        Ok(())
    }

    /// Arranges the targets in the order of a hashed table.
    fn set_hashed(&mut self) -> Result<(), ZeroTrieBuildError>
        requires { IsStrictlyIncreasing self.old.table.items }
        ensures ok { OnOk result (IsHashedLayout self.old.table.items self.new.table.items
            self.new.numbers.items) }
        ensures refused { IfErr result (IsTableRefusal self.old.table.items) }
        ensures windows { self.new.windows.items ≡ self.old.windows.items }
    {
        if self.last.is_of(self.table.as_slice()) {
            self.set_last()?;
            return Ok(());
        }
        self.set_new()
    }

    /// Numbers the targets in the order of their edges.
    fn number_in_order(&mut self) -> Result<(), AllocError>
        ensures numbers { OnOk result (self.new.numbers.items
            ≡ range_with_len 0 (length self.old.windows.items)) }
        ensures windows { self.new.windows.items ≡ self.old.windows.items }
        ensures table { self.new.table.items ≡ self.old.table.items }
    {
        self.numbers.clear();
        for number in 0..self.windows.len() {
            self.numbers.push(number)?;
        }
        Ok(())
    }

    /// Adds the windows to the list of pending writes, the first on top. Its slots begin at `slot`.
    fn push_sorted(&self, slot: usize, pending: &mut Vec<Next, A>) -> Result<(), AllocError>
        requires { 0 < length self.now.windows.items }
        ensures pushed { OnOk result (reverse pending.new.items
            ≡ (Next.Go (position_at (window_at self.now.windows.items 0).from slot)
            ∷ map text_of self.now.windows.items)
            ++ reverse pending.old.items) }
    {
        for index in (0..self.windows.len()).rev() {
            pending.push(text_of(self.windows[index]))?;
        }
        let from = self.windows[0].from;
        pending.push(Next::Go(Position { from, slot }))?;
        Ok(())
    }

    /// Adds the window of this number and its place to the list of pending writes, the place on
    /// top. `ends` and `slot` are those of `push_hashed`.
    fn push_placed(
        &self,
        number: usize,
        ends: &[usize],
        slot: usize,
        pending: &mut Vec<Next, A>,
    ) -> Result<(), AllocError>
        requires window { number < length self.now.windows.items }
        requires each { length ends.now ≡ length self.now.windows.items }
        requires room { All (λ e. slot + e < 2 ^ 64) ends.now }
        ensures pushed { OnOk result (reverse pending.new.items
            ≡ placed_next ends.now slot self.now.windows.items (number ∷ [])
            ++ reverse pending.old.items) }
    {
        let before = if number == 0 { 0 } else { ends[number - 1] };
        let window = self.windows[number];
        pending.push(text_of(window))?;
        pending.push(Next::Go(Position {
            from: window.from,
            slot: slot + before,
        }))?;
        Ok(())
    }

    /// Adds the windows to the list of pending writes, each with its place, and beneath them the
    /// place after the last. They are in the order of the table, the first on top. The slots of the
    /// first edge's window begin at `slot`, and `ends` has for each window the number of slots up
    /// to its end.
    fn push_hashed(
        &self,
        ends: &[usize],
        slot: usize,
        pending: &mut Vec<Next, A>,
    ) -> Result<(), AllocError>
        requires some { 0 < length ends.now }
        requires each { length ends.now ≡ length self.now.windows.items }
        requires room { All (λ e. slot + e < 2 ^ 64) ends.now }
        requires within { All (λ i. i < length self.now.windows.items) self.now.numbers.items }
        ensures pushed { OnOk result (reverse pending.new.items
            ≡ (placed_next ends.now slot self.now.windows.items self.now.numbers.items
            ++ Next.Go (position_at
            (window_at self.now.windows.items (length self.now.windows.items - 1)).to
            (slot + slice_index_or ends.now (length ends.now - 1) 0)) ∷ [])
            ++ reverse pending.old.items) }
    {
        let count = self.numbers.len();
        // So there is room too for the targets of a sorted table below the first of them.
        pending.reserve(count.saturating_mul(2).saturating_add(HASHED_FROM - 1))?;
        let last = self.windows[self.windows.len() - 1];
        pending.push(Next::Go(Position {
            from: last.to,
            slot: slot + ends[ends.len() - 1],
        }))?;
        for index in (0..count).rev() {
            let number = self.numbers[index];
            self.push_placed(number, ends, slot, pending)?;
        }
        Ok(())
    }

    /// Arranges the targets of the branch at the beginning of the window, whose slots begin at
    /// `slot`, and adds them to the list of pending writes.
    pub(crate) fn set<'a, K: ZeroTrieWithOptions, I: IndexedItems<'a>>(
        &mut self,
        items: I,
        input: WriteInput<'_>,
        window: Window,
        slot: usize,
        pending: &mut Vec<Next, A>,
    ) -> Result<(), ZeroTrieBuildError>
        requires order { window.from ≤ window.to }
        requires items { window.to ≤ length (I.pairs items) }
        requires room { window.depth + 1 < 2 ^ 64 }
        requires ordered { Ordered K.kind (window_of (I.pairs items) window) }
        requires slots { HasSlots K.kind (I.pairs items) window input.slots.now slot }
        ensures parts { OnOk result (TargetWindows (I.pairs items) window self.new.windows.items) }
        ensures laid { OnOk result (IsLayout K.kind (edge_no (I.pairs items) self.new.windows.items)
            (length self.new.windows.items) self.new.table.items self.new.numbers.items) }
        ensures pending { OnOk result (reverse pending.new.items
            ≡ next_of K.kind input.entry.slots.now slot self.new.windows.items
            self.new.numbers.items
            ++ reverse pending.old.items) }
        ensures refused { IfErr result (λ e. e ≢ ZeroTrieBuildError.OutOfMemory
            → (e ≡ ZeroTrieBuildError.CouldNotSolvePerfectHash)
            × ((cs : List Window) → TargetWindows (I.pairs items) window cs
            → AreCrooked K.kind (map (edge_of (I.pairs items)) cs))) }
    {
        let slots = input.slots;
        // That a length is below 2^64 shows the proof that so are the places of the slots.
        let _len = slots.len();
        self.set_sorted::<K, I>(items, window)?;
        let edges = self.windows.len();
        if is_hashed::<K>(edges) {
            self.set_hashed()?;
            let end = slot + 2 * edges;
            self.push_hashed(&slots[slot + edges..end], end, pending)?;
        } else {
            self.number_in_order()?;
            self.push_sorted(slot + edges, pending)?;
        }
        Ok(())
    }
}

/// Returns what is to be written at first: the window of all items.
pub(crate) fn all_pending<A: Allocator + Copy>(
    spare: A,
    items: usize,
) -> Result<Vec<Next, A>, AllocError>
    ensures { IfOk result (λ pending. pending.items
        ≡ Next.Text (record { to = items; depth = 0 }) ∷ []) }
{
    let mut pending = Vec::new(spare);
    pending.push(text_of(Window::new(0, items, 0)))?;
    Ok(pending)
}

/// Sets the numbers to those of the placed edges.
fn set_places<A: Allocator>(
    numbers: &mut Vec<usize, A>,
    edges: &[u8],
    placed: &[u8],
) -> Result<(), AllocError>
    requires rises { IsStrictlyIncreasing edges.now }
    requires same { IsPermutation edges.now placed.now }
    ensures { OnOk result (numbers.new.items ≡ map (λ b. place_in edges.now b) placed.now) }
{
    numbers.clear();
    for edge in placed {
        match edges.binary_search(edge) {
            Ok(place) => numbers.push(place)?,
            Err(_) => unreachable!(),
        }
    }
    Ok(())
}

/// Returns what is written for a window that begins where the one before it ended.
fn text_of(window: Window) -> Next
    ensures { result ≡ text_of window }
{
    let Window { to, depth, .. } = window;
    Next::Text(PendingWindow { to, depth })
}

/// The edges of a branch, their hashed table, and their numbers in its order; or nothing.
#[derive(Drop)]
pub(crate) struct LastTable<A: Allocator> {
    edges: Vec<u8, A>,
    table: Vec<u8, A>,
    numbers: Vec<usize, A>,
}

impl<A: Allocator> Model for LastTable<A> {
    ghost use Rattle.std.specs.Prelude.{◌≡◌, ◌⊎◌, []};
    ghost use Rattle.zerotrie_build.specs.passes.Writing.{LaidTable, IsHashedLayout};

    ghost Value = { LaidTable };

    ghost view = { λ t. record {
      edges = t.edges.items;
      table = t.table.items;
      numbers = t.numbers.items;
    } };

    ghost invariant = { λ t. (t.edges.items ≡ [])
        ⊎ IsHashedLayout t.edges.items t.table.items t.numbers.items };
}

impl<A: Allocator + Copy> LastTable<A> {
    /// Returns the table of no branch.
    pub(crate) fn new(spare: A) -> Self {
        LastTable {
            edges: Vec::new(spare),
            table: Vec::new(spare),
            numbers: Vec::new(spare),
        }
    }

    /// Returns whether it is the table of these edges.
    pub(crate) fn is_of(&self, edges: &[u8]) -> bool
        ensures { IsTrue result → IsHashedLayout edges.now self.now.table self.now.numbers }
    {
        !edges.is_empty() && self.edges.as_slice() == edges
    }

    pub(crate) fn table(&self) -> &[u8]
        ensures { result.now ≡ self.now.table }
    {
        self.table.as_slice()
    }

    /// Returns the numbers of the edges, in the order of the table.
    pub(crate) fn numbers(&self) -> &[usize]
        ensures { result.now ≡ self.now.numbers }
    {
        self.numbers.as_slice()
    }

    /// Keeps the table of these edges in place of what it was.
    pub(crate) fn keep(
        &mut self,
        edges: &[u8],
        table: &[u8],
        numbers: &[usize],
    ) -> Result<(), AllocError>
        requires { IsHashedLayout edges.now table.now numbers.now }
    {
        self.edges.clear();
        self.table.clear();
        self.numbers.clear();
        self.table.extend_from_slice(table)?;
        self.numbers.extend_from_slice(numbers)?;
        self.edges.extend_from_slice(edges)?;
        Ok(())
    }
}
