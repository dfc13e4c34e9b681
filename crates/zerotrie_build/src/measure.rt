//! The first pass: the lengths of the text and of the targets of its branches.

ghost use Rattle.std.specs.Prelude.{◌≡◌, ◌≢◌, ◌↔◌, ℕ, List, [], ◌∷◌, ◌+◌, ◌-◌, ◌*◌, ◌%◌, ◌^◌, ◌<◌, ◌≤◌, ◌⊎◌, ◌++◌, length, replicate, reverse, slice_index, IfOk, OnOk, IfErr, IfSome, IsTrue};
ghost use Rattle.zerotrie_base.specs.Kind.{is_hashed, greatest_width};
ghost use Rattle.zerotrie_base.specs.Numbers.{value_form, spelled_as};
ghost use Rattle.zerotrie_base.specs.Maps.{map_of};
ghost use Rattle.zerotrie_base.specs.Branches.{total as sum};
ghost use Rattle.zerotrie_base.specs.Canonical.{size_of, branch_size};
ghost use Rattle.zerotrie_base.specs.Fits.{ExceedsCapacity};
ghost use Rattle.zerotrie_build.specs.Order.{Ordered, AreKeys, AreAsciiKeys};
ghost use Rattle.zerotrie_build.specs.passes.Windows.{window as window_of, step_of};
ghost use Rattle.zerotrie_build.specs.passes.Measured.{Passes, NoneFirst, TargetWindows, IsMeasured};
ghost use Rattle.zerotrie_build.specs.passes.Walking.{item_ends, spare_len, with_len, left_open, IsOpened, Closing, IsTurn, IsNextWindow};

use crate::items::IndexedItems;
use crate::number::number_len;
use crate::windows::{
    Step, Window, byte_in, first_step, group_of, literals_end, rest_len, single_item,
};
use std::alloc::{AllocError, Allocator};
use zerotrie_base::{ZeroTrieBuildError, ZeroTrieWithOptions, least_width};

/// The lengths that are kept for the second pass, in slots. A branch has a slot for each target, in
/// the order of the edges, with the length of its text. If its table is hashed, as many follow,
/// with how many slots the targets up to each have below them. Then come the slots below the first
/// target, the second, and so on.
#[derive(Drop)]
pub(crate) struct Measured<A: Allocator> {
    pub(crate) slots: Vec<usize, A>,
    /// How long the text is.
    pub(crate) len: usize,
}

/// A branch whose targets are measured, one after another.
#[derive(Clone, Copy)]
struct OpenBranch {
    /// Where the items of the target that is measured begin, and how many bytes of their keys are
    /// in front of its edge.
    from: usize,
    depth: usize,
    /// How many bytes of the text are in front of the branch.
    len: usize,
    /// The slots of the targets are those from `first` to below `end`, and `next` is that of the
    /// target that is measured.
    first: usize,
    next: usize,
    end: usize,
}

impl OpenBranch {
    /// Opens the branch that is first in the window, after `len` bytes, whose slots are those from
    /// `first` to below `end`.
    #[inline(always)]
    fn new(window: Window, len: usize, first: usize, end: usize) -> Self
        ensures { result ≡ record {
          from = window.from;
          depth = window.depth;
          len = len;
          first = first;
          next = first;
          end = end;
        } }
    {
        OpenBranch {
            from: window.from,
            depth: window.depth,
            len,
            first,
            next: first,
            end,
        }
    }

    /// Returns the branch with its next target, whose items begin at `from`.
    #[inline(always)]
    fn after_target(self, from: usize) -> Self
        requires { self.next + 1 < 2 ^ 64 }
        ensures { result ≡ record self { from = from; next = self.next + 1 } }
    {
        let next = self.next + 1;
        OpenBranch { from, next, ..self }
    }
}

/// What follows on a window that was measured.
#[derive(Clone, Copy)]
enum Turn {
    /// This window is measured.
    Window(Window),
    /// The whole is measured, and has this length.
    Whole(usize),
}

/// The slots, and the branches that the window is in which is measured, the innermost last.
#[derive(Drop)]
struct FirstPass<I, A: Allocator> {
    items: I,
    slots: Vec<usize, A>,
    branches: Vec<OpenBranch, A>,
}

/// Returns the sum, if it is below 2^64.
fn checked_sum(a: usize, b: usize) -> Result<usize, ZeroTrieBuildError>
    ensures sum { IfOk result (λ c. c ≡ a + b) }
    ensures refused { IfErr result (λ e.
        (e ≡ ZeroTrieBuildError.CapacityExceeded) × (2 ^ 64 ≤ a + b)) }
{
    a.checked_add(b).ok_or(ZeroTrieBuildError::CapacityExceeded)
}

/// Returns how many bytes a value node has.
fn value_len(value: usize) -> usize
    ensures { result ≡ length (spelled_as value_form value) }
{
    number_len(16, value)
}

/// Returns the end of a window of one item, as most are, and how many bytes its text has. `None` if
/// there are more items, or if the rest of the key has spans that are counted one by one. If
/// `ascii` is true, all keys are ASCII.
#[inline(always)]
fn after_leaf<'a, K: ZeroTrieWithOptions, I: IndexedItems<'a>>(
    items: I,
    start: Window,
    ascii: bool,
) -> Result<Option<(Window, usize)>, ZeroTrieBuildError>
    requires keys { AreKeys K.kind (I.pairs items) }
    requires ascii { IsTrue ascii → AreAsciiKeys (I.pairs items) }
    requires within { start.to ≤ length (I.pairs items) }
    requires ordered { Ordered K.kind (window_of (I.pairs items) start) }
    ensures run { IfOk result (λ leaf. IfSome leaf (λ r.
        Passes K.kind (I.pairs items) start r.0 r.1)) }
    ensures end { IfOk result (λ leaf. IfSome leaf (λ r.
        step_of K.kind (I.pairs items) r.0 ≡ Step.End)) }
    ensures refused { IfErr result (λ e. (e ≡ ZeroTrieBuildError.CapacityExceeded)
        × (2 ^ 64 ≤ size_of K.kind (window_of (I.pairs items) start))) }
{
    let Some((rest, value)) = single_item(items, start) else {
        return Ok(None);
    };
    let Some(len) = rest_len::<K>(rest, ascii) else {
        return Ok(None);
    };
    let end = Window::new(start.to, start.to, start.depth + rest.len());
    Ok(Some((end, checked_sum(len, value_len(value))?)))
}

/// Returns the window after the values, literals and spans that are first, and how many bytes these
/// have.
#[inline(always)]
fn after_front<'a, K: ZeroTrieWithOptions, I: IndexedItems<'a>>(
    items: I,
    start: Window,
) -> Result<(Window, usize), ZeroTrieBuildError>
    requires keys { AreKeys K.kind (I.pairs items) }
    requires within { start.to ≤ length (I.pairs items) }
    requires ordered { Ordered K.kind (window_of (I.pairs items) start) }
    ensures run { IfOk result (λ r. Passes K.kind (I.pairs items) start r.0 r.1) }
    ensures stops { IfOk result (λ r. NoneFirst K.kind (I.pairs items) r.0) }
    ensures room { IfOk result (λ r. step_of K.kind (I.pairs items) r.0 ≡ Step.Branch
        → r.0.depth + 1 < 2 ^ 64) }
    ensures refused { IfErr result (λ e. (e ≡ ZeroTrieBuildError.CapacityExceeded)
        × (2 ^ 64 ≤ size_of K.kind (window_of (I.pairs items) start))) }
{
    let mut rest = start;
    let mut len = 0;
    loop {
        match first_step::<K, I>(items, rest) {
            Step::Value(value) => {
                len = checked_sum(len, value_len(value))?;
                rest.from += 1;
            }
            Step::Literal(_) => {
                let end = literals_end(items, rest);
                len = checked_sum(len, end - rest.depth)?;
                rest.depth = end;
            }
            Step::Span(count) => {
                let lead = checked_sum(len, number_len(16, count))?;
                len = checked_sum(lead, count)?;
                rest.depth += count;
            }
            Step::Branch | Step::End => return Ok((rest, len)),
        }
    }
}

/// Like `after_front`, but measures a window of one item at once. If `ascii` is true, all keys are
/// ASCII.
#[inline(always)]
fn after_nodes<'a, K: ZeroTrieWithOptions, I: IndexedItems<'a>>(
    items: I,
    start: Window,
    ascii: bool,
) -> Result<(Window, usize), ZeroTrieBuildError>
    requires keys { AreKeys K.kind (I.pairs items) }
    requires ascii { IsTrue ascii → AreAsciiKeys (I.pairs items) }
    requires within { start.to ≤ length (I.pairs items) }
    requires ordered { Ordered K.kind (window_of (I.pairs items) start) }
    ensures run { IfOk result (λ r. Passes K.kind (I.pairs items) start r.0 r.1) }
    ensures stops { IfOk result (λ r. NoneFirst K.kind (I.pairs items) r.0) }
    ensures room { IfOk result (λ r. step_of K.kind (I.pairs items) r.0 ≡ Step.Branch
        → r.0.depth + 1 < 2 ^ 64) }
    ensures refused { IfErr result (λ e. (e ≡ ZeroTrieBuildError.CapacityExceeded)
        × (2 ^ 64 ≤ size_of K.kind (window_of (I.pairs items) start))) }
{
    match after_leaf::<K, I>(items, start, ascii)? {
        Some(leaf) => Ok(leaf),
        None => after_front::<K, I>(items, start),
    }
}

/// Returns the sum of these lengths.
fn total(lens: &[usize]) -> Result<usize, ZeroTrieBuildError>
    ensures sum { IfOk result (λ n. n ≡ sum lens.now) }
    ensures refused { IfErr result (λ e.
        (e ≡ ZeroTrieBuildError.CapacityExceeded) × (2 ^ 64 ≤ sum lens.now)) }
{
    let mut total = 0;
    for len in lens {
        total = checked_sum(total, *len)?;
    }
    Ok(total)
}

/// Returns whether this length is beyond every offset of the kind.
fn is_too_wide<K: ZeroTrieWithOptions>(total: usize) -> bool
    ensures { IsTrue result ↔ (256 ^ (greatest_width K.kind + 1) ≤ total) }
{
    !K::EXTENDED && total as u64 >= 1 << 32
}

/// Returns how long a text is that has `len` bytes in front of a branch to targets of these
/// lengths.
fn with_branch<K: ZeroTrieWithOptions>(
    len: usize,
    lens: &[usize],
) -> Result<usize, ZeroTrieBuildError>
    requires two { 2 ≤ length lens.now }
    requires few { length lens.now ≤ 256 }
    ensures len { IfOk result (λ n. n ≡ len + (branch_size K.kind lens.now + sum lens.now)) }
    ensures narrow { IfOk result (λ _. sum lens.now < 256 ^ (greatest_width K.kind + 1)) }
    ensures refused { IfErr result (λ e. (e ≡ ZeroTrieBuildError.CapacityExceeded)
        × ((256 ^ (greatest_width K.kind + 1) ≤ sum lens.now)
        ⊎ (2 ^ 64 ≤ len + (branch_size K.kind lens.now + sum lens.now)))) }
{
    let sum = total(lens)?;
    if is_too_wide::<K>(sum) {
        return Err(ZeroTrieBuildError::CapacityExceeded);
    }
    let front = checked_sum(len, branch_len::<K>(lens.len(), sum))?;
    checked_sum(front, sum)
}

/// The fewest edges that a hashed table has.
pub(crate) const HASHED_FROM: usize = 16;

/// Returns whether a branch with this number of edges has a hashed table.
pub(crate) fn is_hashed<K: ZeroTrieWithOptions>(edges: usize) -> bool
    ensures { result ≡ is_hashed K.kind edges }
{
    K::USE_PHF && edges >= HASHED_FROM
}

/// Returns how many bytes a branch with this number of edges has in front of its targets, which
/// together have `total` bytes.
fn branch_len<K: ZeroTrieWithOptions>(edges: usize, total: usize) -> usize
    requires some { 1 ≤ edges }
    requires few { edges ≤ 256 }
    ensures { (lengths : List ℕ) → length lengths ≡ edges → sum lengths ≡ total
        → result ≡ branch_size K.kind lengths }
{
    let width = least_width(total);
    let table = if is_hashed::<K>(edges) {
        2 * edges + 1
    } else {
        edges
    };
    number_len(32, 256 * width + edges % 256) + table + (width + 1) * (edges - 1)
}

impl<'a, I: IndexedItems<'a>, A: Allocator + Copy> FirstPass<I, A> {
    /// Starts with no branch. Most sets of keys have fewer targets than there is room for.
    fn new(alloc: A, items: I) -> Result<Self, AllocError>
        ensures items { IfOk result (λ m. m.items ≡ items) }
        ensures slots { IfOk result (λ m. m.slots.items ≡ []) }
        ensures branches { IfOk result (λ m. m.branches.items ≡ []) }
    {
        let room = items.len().saturating_add(items.len() / 2);
        Ok(FirstPass {
            items,
            slots: Vec::with_capacity(alloc, room)?,
            branches: Vec::new(alloc),
        })
    }

    /// Adds a slot for each target of the branch that is first in the window. Until the target is
    /// measured, it says where its items end.
    fn push_ends<K: ZeroTrieWithOptions>(&mut self, window: Window) -> Result<(), AllocError>
        requires within { window.to ≤ length (I.pairs self.old.items) }
        requires order { window.from ≤ window.to }
        requires ordered { Ordered K.kind (window_of (I.pairs self.old.items) window) }
        ensures ends { OnOk result ((targets : List Window)
            × TargetWindows (I.pairs self.old.items) window targets
            × (self.new.slots.items ≡ self.old.slots.items ++ item_ends targets)) }
        ensures items { self.new.items ≡ self.old.items }
        ensures branches { self.new.branches.items ≡ self.old.branches.items }
    {
        let mut rest = window;
        let mut byte = byte_in(self.items, window, window.from);
        while rest.from < rest.to {
            let group = group_of::<K, I>(self.items, rest, byte);
            self.slots.push(group.end)?;
            rest.from = group.end;
            byte = group.next;
        }
        Ok(())
    }

    /// Returns the window of the target of the branch that is measured next.
    fn target_of(&self, branch: OpenBranch) -> Window
        requires slot { branch.next < length self.now.slots.items }
        requires room { branch.depth + 1 < 2 ^ 64 }
        ensures { result ≡ record {
          from = branch.from;
          to = slice_index self.now.slots.items branch.next;
          depth = branch.depth + 1;
        } }
    {
        Window::new(branch.from, self.slots[branch.next], branch.depth + 1)
    }

    /// Opens the branch that is first in the window, after `len` bytes. Returns the window of its
    /// first target.
    fn push_branch<K: ZeroTrieWithOptions>(
        &mut self,
        window: Window,
        len: usize,
    ) -> Result<Window, AllocError>
        requires within { window.to ≤ length (I.pairs self.old.items) }
        requires some { window.from < window.to }
        requires room { window.depth + 1 < 2 ^ 64 }
        requires ordered { Ordered K.kind (window_of (I.pairs self.old.items) window) }
        ensures opened { IfOk result (λ first.
            IsOpened K.kind (I.pairs self.old.items) window len first
            self.old.slots.items self.old.branches.items self.new.slots.items
            self.new.branches.items) }
        ensures few { OnOk result (length self.new.slots.items < 2 ^ 64) }
        ensures items { self.new.items ≡ self.old.items }
    {
        let first = self.slots.len();
        self.push_ends::<K>(window)?;
        let end = self.slots.len();
        if is_hashed::<K>(end - first) {
            self.slots.resize(end + (end - first), 0)?;
        }
        let branch = OpenBranch::new(window, len, first, end);
        self.branches.push(branch)?;
        Ok(self.target_of(branch))
    }

    /// Keeps how long the target of the branch is that was measured.
    fn keep<K: ZeroTrieWithOptions>(&mut self, branch: OpenBranch, len: usize)
        requires order { branch.first ≤ branch.next }
        requires some { branch.next < branch.end }
        requires within { branch.end + spare_len K.kind (branch.end - branch.first)
            ≤ length self.old.slots.items }
        ensures slots { self.new.slots.items ≡ with_len K.kind branch len self.old.slots.items }
        ensures items { self.new.items ≡ self.old.items }
        ensures branches { self.new.branches.items ≡ self.old.branches.items }
    {
        self.slots[branch.next] = len;
        let edges = branch.end - branch.first;
        if is_hashed::<K>(edges) {
            self.slots[branch.next + edges] = self.slots.len() - (branch.end + edges);
        }
    }

    /// Returns the slots, when the whole is measured and so long.
    fn measured(self, len: usize) -> Measured<A>
        ensures slots { result.slots.items ≡ self.slots.items }
        ensures len { result.len ≡ len }
    {
        drop(self.branches);
        let mut slots = self.slots;
        slots.shrink_to_fit();
        Measured { slots, len }
    }

    /// Takes in how long the window is that was measured, and the branches whose last target it
    /// ends.
    fn close<K: ZeroTrieWithOptions>(&mut self, measured: usize) -> Result<Turn, ZeroTrieBuildError>
        requires keys { AreKeys K.kind (I.pairs self.old.items) }
        requires ordered { Ordered K.kind (I.pairs self.old.items) }
        requires closing { Closing K.kind (I.pairs self.old.items) (reverse self.old.branches.items)
            self.old.slots.items measured }
        ensures turn { IfOk result (λ t. IsTurn K.kind (I.pairs self.old.items) t
            (reverse self.new.branches.items) self.new.slots.items) }
        ensures less { IfOk result (λ t. IsNextWindow t
            → left_open (reverse self.new.branches.items)
            < left_open (reverse self.old.branches.items)) }
        ensures same { length self.new.slots.items ≡ length self.old.slots.items }
        ensures items { self.new.items ≡ self.old.items }
        ensures refused { IfErr result (λ e. e ≢ ZeroTrieBuildError.OutOfMemory
            → (e ≡ ZeroTrieBuildError.CapacityExceeded)
            × ExceedsCapacity K.kind (map_of (I.pairs self.old.items))) }
    {
        let mut len = measured;
        while let Some(branch) = self.branches.pop() {
            let from = self.slots[branch.next];
            self.keep::<K>(branch, len);
            if branch.next + 1 < branch.end {
                let branch = branch.after_target(from);
                self.branches.push(branch)?;
                return Ok(Turn::Window(self.target_of(branch)));
            }
            len = with_branch::<K>(branch.len, &self.slots[branch.first..branch.end])?;
        }
        Ok(Turn::Whole(len))
    }
}

/// Returns the lengths of the text of the items and of all targets. If `ascii` is true, all keys
/// are ASCII.
pub(crate) fn measure_all<'a, K: ZeroTrieWithOptions, I: IndexedItems<'a>, A: Allocator + Copy>(
    alloc: A,
    items: I,
    ascii: bool,
) -> Result<Measured<A>, ZeroTrieBuildError>
    requires ordered { Ordered K.kind (I.pairs items) }
    requires keys { AreKeys K.kind (I.pairs items) }
    requires ascii { IsTrue ascii → AreAsciiKeys (I.pairs items) }
    ensures measured { IfOk result (λ m. IsMeasured K.kind (I.pairs items) m.slots.items m.len) }
    ensures refused { IfErr result (λ e. e ≢ ZeroTrieBuildError.OutOfMemory
        → (e ≡ ZeroTrieBuildError.CapacityExceeded)
        × ExceedsCapacity K.kind (map_of (I.pairs items))) }
{
    let mut pass = FirstPass::new(alloc, items)?;
    let mut window = Window::new(0, items.len(), 0);
    loop {
        let (rest, len) = after_nodes::<K, I>(items, window, ascii)?;
        if rest.from < rest.to {
            window = pass.push_branch::<K>(rest, len)?;
        } else {
            match pass.close::<K>(len)? {
                Turn::Window(next) => window = next,
                Turn::Whole(len) => return Ok(pass.measured(len)),
            }
        }
    }
}
