//! The report of a trie: what it is made of, counted by one pass over its nodes.

ghost use Rattle.std.specs.Prelude.{◌≡◌, ◌+◌, ◌<◌, ◌^◌, length, OnOk, IfOk};
ghost use Rattle.zerotrie_core.specs.Maps.{Pairs};
ghost use Rattle.zerotrie_core.specs.Texts.{Lists};
ghost use Rattle.zerotrie_core.specs.walk.Seen.{visit_of};
ghost use Rattle.zerotrie_core.specs.Kinds.{kind_of};

use crate::reports::branches::Branches;
use std::alloc::{AllocError, Global};
use zerotrie_core::{Node, Nodes, Trie, TrieKind, TrieRef, Visit};

/// What a trie is made of.
#[derive(Clone, Copy, PartialEq, Eq, Debug)]
pub struct Report {
    /// Its kind.
    pub kind: TrieKind,
    /// How many bytes it has.
    pub bytes: usize,
    /// How many nodes it has.
    pub nodes: usize,
    /// How many pairs it has.
    pub pairs: usize,
    /// The greatest value. `None` if it has no pair.
    pub greatest: Option<usize>,
    /// The most branches that a key passes.
    pub depth: usize,
    /// How many nodes are literals.
    pub literals: usize,
    /// How many nodes are spans.
    pub spans: usize,
    /// The branches.
    pub branches: Branches,
}

impl Report {
    ghost use Rattle.zerotrie_queries.specs.reports.Reports.{report_of, TellsPairs};
    ghost use Rattle.zerotrie_queries.specs.reports.count.Steps.{no_nodes, with_node, with_nodes, IsWithin};

    /// Returns a report with no node counted yet.
    fn of_none(kind: TrieKind, bytes: usize) -> Self
        ensures { result ≡ no_nodes kind bytes }
    {
        Report {
            kind,
            bytes,
            nodes: 0,
            pairs: 0,
            greatest: None,
            depth: 0,
            literals: 0,
            spans: 0,
            branches: Branches::new(),
        }
    }

    fn add(&mut self, visit: &Visit<'_>)
        requires { (self.old.nodes + 1 < 2 ^ 64) × IsWithin self.old }
        ensures { self.new ≡ with_node (visit_of visit.now) self.old }
    {
        self.nodes += 1;
        match visit.node {
            Node::Value(value, _after) => {
                self.pairs += 1;
                self.greatest = Some(self.greatest.map_or(value, |most| most.max(value)));
                self.depth = self.depth.max(visit.part.depth);
            }
            Node::Literal(_byte, _after) => self.literals += 1,
            Node::Span(_run, _after) => self.spans += 1,
            Node::Branch(branch) => self.branches.add(branch.edges, branch.width),
        }
    }

    /// Counts the remaining nodes of a walk.
    fn add_all(&mut self, nodes: &mut Nodes<'_>) -> Result<(), AllocError>
        requires { (self.old.nodes + length nodes.old < 2 ^ 64) × IsWithin self.old }
        ensures { OnOk result (self.new ≡ with_nodes nodes.old self.old) }
    {
        while let Some(visit) = nodes.next_node()? {
            self.add(&visit);
        }
        Ok(())
    }

    /// Returns the report of a trie.
    ///
    /// It visits each node once. It keeps the branches around the current node in memory. The only
    /// error is that it is out of memory.
    pub fn of(alloc: Global, trie: &TrieRef<'_>) -> Result<Self, AllocError>
        ensures counts { IfOk result (λ r. r ≡ report_of trie.now.kind trie.now.bytes.now) }
        ensures pairs { IfOk result (λ r. (pairs : Pairs)
            → Lists (kind_of trie.now.kind) trie.now.bytes.now pairs → TellsPairs r pairs) }
    {
        let mut report = Report::of_none(trie.kind, trie.bytes.len());
        let mut nodes = trie.nodes(alloc)?;
        report.add_all(&mut nodes)?;
        Ok(report)
    }
}
