//! One branch that a stream has opened.

ghost use Rattle.std.specs.Prelude.{◌≡◌, ◌≤◌, ◌<◌, ◌+◌, ◌-◌, ◌*◌, ◌↔◌, [], length, take, IsTrue};
ghost use Rattle.std.specs.Option.{option_map};
ghost use Rattle.zerotrie_base.specs.Nodes.{targets_behind, begin_of, IsTargetResult};
ghost use Rattle.zerotrie_core.specs.listing.Runs.{EndsWith};

use crate::branch::Branch;
use crate::here::Here;
use crate::offsets::{begin_at, end_at, offsets_and_targets};

/// A branch of which some targets have been entered.
#[derive(Clone, Copy, Debug)]
pub(crate) struct OpenBranch<'a> {
    /// The bytes of the branch from its edges on.
    pub behind: &'a [u8],
    /// The bytes of the whole trie from the first target on.
    pub tail: &'a [u8],
    /// How many edges it has.
    pub edges: usize,
    /// How many bytes an offset has.
    pub width: usize,
    /// The number of the next target.
    pub next: usize,
    /// Where the next target begins, counted from the first target.
    pub begin: usize,
    /// The length of the key before its edges.
    pub depth: usize,
    ghost narrow: { (1 ≤ width) × (width ≤ 8) },
    ghost whole: { edges + width * (edges - 1) ≤ length behind.now },
    ghost lies: { targets_behind edges width behind.now
        ≡ take (length (targets_behind edges width behind.now)) tail.now },
}

impl<'a> OpenBranch<'a> {
    /// Returns a branch without edges.
    pub(crate) fn closed() -> Self
        ensures edges { result.edges ≡ 0 }
        ensures next { result.next ≡ 0 }
        ensures depth { result.depth ≡ 0 }
        ensures behind { result.behind.now ≡ [] }
    {
        OpenBranch {
            behind: &[],
            tail: &[],
            edges: 0,
            width: 1,
            next: 0,
            begin: 0,
            depth: 0,
        }
    }

    /// Opens a branch with which the rest begins, before its first target.
    #[inline(always)]
    pub(crate) fn new(here: Here<'a>, branch: Branch<'a>, depth: usize) -> Self
        requires { EndsWith here.rest.now branch.behind.now }
        ensures edges { result.edges ≡ branch.entry.edges }
        ensures width { result.width ≡ branch.entry.width }
        ensures behind { result.behind.now ≡ branch.entry.behind.now }
        ensures next { result.next ≡ 0 }
        ensures begin { result.begin ≡ 0 }
        ensures depth { result.depth ≡ depth }
    {
        OpenBranch {
            behind: branch.behind,
            tail: here.behind(branch.targets()).tail,
            edges: branch.edges,
            width: branch.width,
            next: 0,
            begin: 0,
            depth,
        }
    }

    /// Returns the same branch before the target of this number.
    pub(crate) fn at_edge(self, place: usize) -> Self
        requires { place < self.edges }
        ensures edges { result.edges ≡ self.entry.edges }
        ensures width { result.width ≡ self.entry.width }
        ensures behind { result.behind.now ≡ self.entry.behind.now }
        ensures next { result.next ≡ place }
        ensures begin { result.begin ≡ begin_of self.entry.edges self.entry.width self.entry.behind.now place }
        ensures depth { result.depth ≡ self.entry.depth }
    {
        let mut at = self;
        at.next = place;
        at.begin = begin_at(self.behind, self.edges, self.width, place);
        at
    }

    /// Returns whether targets are left.
    #[inline(always)]
    pub(crate) fn has_next(&self) -> bool
        ensures { IsTrue result ↔ (self.now.next < self.now.edges) }
    {
        self.next < self.edges
    }

    /// Returns the next target, or `None` if its offsets are not ascending.
    #[inline(always)]
    pub(crate) fn target(&self) -> Option<Here<'a>>
        requires some { self.now.next < self.now.edges }
        requires begins { self.now.begin ≡ begin_of self.now.edges self.now.width self.now.behind.now self.now.next }
        ensures { IsTargetResult self.now.edges self.now.width self.now.behind.now self.now.next
            (option_map (λ here. here.rest) result) }
    {
        let (_, rest) = offsets_and_targets(self.behind, self.edges, self.width);
        let end = end_at(self.behind, self.edges, self.width, self.next);
        let targets = Here {
            rest,
            tail: self.tail,
        };
        targets.part(self.begin, end)
    }
}
