//! The branches that a stream has opened.

ghost use Rattle.std.specs.Prelude.{◌≡◌, ◌<◌, ◌∷◌, ℕ, List, [], false, length, reverse, IfOk, OnOk, IsTrue};
ghost use Rattle.zerotrie_base.specs.Kind.{Kind};
ghost use Rattle.zerotrie_core.specs.listing.Opened.{Nested, Stands, Leaves, still_open, pairs_open, pairs_left, work_open, work_left};
ghost use Rattle.zerotrie_core.specs.listing.Grouped.{AreEntered, CanEnter, AreGrouped, StandsBelow};
ghost use Rattle.zerotrie_core.specs.declared.stream.opened.OpenBranch.{OpenBranch};

use crate::here::Here;
use crate::stream::opened::OpenBranch;
use std::alloc::{AllocError, Allocator};
use std::marker::Model;

/// The open branches, the innermost beside the others. Only the innermost may have no target left.
#[derive(Debug, Drop)]
pub(crate) struct OpenBranches<'a, A: Allocator> {
    top: OpenBranch<'a>,
    outer: Vec<OpenBranch<'a>, A>,
}

impl<'a, A: Allocator> Model for OpenBranches<'a, A> {
    ghost Value = { List OpenBranch };

    ghost view = { λ s. s.top ∷ reverse s.outer.items };
}

impl<'a, A: Allocator> OpenBranches<'a, A> {
    /// Returns no open branch.
    pub(crate) fn closed(alloc: A) -> Self
        ensures stands { (depth : ℕ) → Stands depth result }
        ensures none { still_open result ≡ [] }
        ensures entered { (kind : Kind) (key : List ℕ) (depth : ℕ) → AreEntered kind key depth result }
    {
        OpenBranches {
            top: OpenBranch::closed(),
            outer: Vec::new(alloc),
        }
    }

    /// Leaves the innermost branch if none of its targets is left, and returns whether any branch
    /// has one.
    #[inline(always)]
    pub(crate) fn has_target(&mut self) -> bool
        ensures some { IsTrue result → self.new ≡ still_open self.old }
        ensures none { result ≡ false → (still_open self.old ≡ []) × (self.new ≡ self.old) }
    {
        if self.top.has_next() {
            return true;
        }
        match self.outer.pop() {
            Some(outer) => {
                self.top = outer;
                true
            }
            None => false,
        }
    }

    /// Opens a branch inside the others. Keeps the one around it only if that has targets left.
    #[inline(always)]
    pub(crate) fn open(&mut self, inner: OpenBranch<'a>) -> Result<(), AllocError>
        ensures { OnOk result (self.new ≡ inner.entry ∷ still_open self.old) }
    {
        if self.top.has_next() {
            self.outer.push(self.top)?;
        }
        self.top = inner;
        Ok(())
    }

    /// Leaves the branches that stand after this many bytes of the key or more.
    pub(crate) fn leave(&mut self, depth: usize)
        ensures leaves { Leaves depth self.old self.new }
        ensures below { StandsBelow depth self.new }
    {
        while depth <= self.top.depth {
            let Some(outer) = self.outer.pop() else {
                self.top = OpenBranch::closed();
                return;
            };
            self.top = outer;
        }
    }

    /// Enters the next target of the innermost branch: writes its edge to the key, and returns its
    /// bytes. If its offsets fall, the rest of the branch is skipped, so no byte is read twice.
    #[inline(always)]
    pub(crate) fn enter(&mut self, key: &mut Vec<u8, A>) -> Result<Here<'a>, AllocError>
        requires { Nested (length key.old.items) self.old }
        ensures stands { IfOk result (λ _. Stands (length key.new.items) self.new) }
        ensures same { (kind : Kind) → IfOk result (λ here.
            pairs_left kind key.new.items here.rest.now self.new ≡ pairs_open kind key.old.items self.old) }
        ensures grouped { (kind : Kind) → IfOk result (λ here. CanEnter kind key.old.items self.old
            → AreGrouped kind key.new.items here.rest.now self.new) }
        ensures less { IfOk result (λ here. work_left here.rest.now self.new < work_open self.old) }
    {
        key.truncate(self.top.depth);
        let Some(target) = self.top.target() else {
            self.top.next = self.top.edges;
            return Ok(Here::nowhere());
        };
        key.push(self.top.behind[self.top.next])?;
        self.top.begin += target.rest.len();
        self.top.next += 1;
        Ok(target)
    }
}
