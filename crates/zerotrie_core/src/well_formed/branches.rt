//! Validation of a branch: its search table, the width of its offsets, and where its targets end.

ghost use Rattle.std.specs.Prelude.{◌≡◌, ◌↔◌, ◌-◌, ◌<◌, ◌≤◌, IsTrue, IfSome, IfNone, length, map, take, drop, false};
ghost use Rattle.std.specs.List.Sorted.{IsStrictlyIncreasing};
ghost use Rattle.zerotrie_base.specs.Kind.{fold_byte};
ghost use Rattle.zerotrie_base.specs.Branches.{IsWidth, table_size};
ghost use Rattle.zerotrie_base.specs.Nodes.{targets_behind, begin_of};
ghost use Rattle.zerotrie_core.specs.Shapes.{branch_shape};
ghost use Rattle.zerotrie_core.specs.well_formed.Branching.{AreBytes, HasTable, HasFront, IsTarget};
ghost use Rattle.zerotrie_core.specs.well_formed.Testing.{AlwaysNoText};

use crate::branch::Branch;
use crate::here::Here;
use crate::simd::lanes::rising_in_17;
use crate::well_formed::known_table::KnownTable;
use zerotrie_base::{ZeroTrieWithOptions, folded, least_width};

fn rises<K: ZeroTrieWithOptions>(edges: &[u8]) -> bool
    ensures rises { IsTrue result ↔ IsStrictlyIncreasing (map (fold_byte K.kind) edges.now) }
    ensures bytes { AreBytes edges.now }
{
    for index in 1..edges.len() {
        if folded::<K>(edges[index - 1]) >= folded::<K>(edges[index]) {
            return false;
        }
    }
    true
}

/// Returns whether the first `count` bytes rise when they are folded. If 17 bytes are there, up to
/// sixteen are compared at once, in the kinds that respect case.
#[inline(always)]
fn front_rises<K: ZeroTrieWithOptions>(bytes: &[u8], count: usize) -> bool
    requires { (1 ≤ count) × (count ≤ length bytes.now) }
    ensures rises { IsTrue result
        ↔ IsStrictlyIncreasing (map (fold_byte K.kind) (take count bytes.now)) }
    ensures bytes { AreBytes (take count bytes.now) }
{
    if !K::IGNORE_CASE && count <= 16 && bytes.len() >= 17 {
        return rising_in_17(bytes) >= count - 1;
    }
    let (edges, _) = bytes.split_at(count);
    rises::<K>(edges)
}

/// Returns whether the search table is one of the kind, and its edges are bytes of the kind. `tail`
/// is all bytes from the first edge on. If edges rise and the last is ASCII, all are. A hashed
/// table that passes is known from then on.
pub(crate) fn has_table<'a, K: ZeroTrieWithOptions>(
    branch: &Branch<'a>,
    tail: &[u8],
    known: &mut KnownTable<'a>,
) -> bool
    requires { branch.now.behind.now ≡ take (length branch.now.behind.now) tail.now }
    ensures { length branch.now.table.now ≡ table_size K.kind branch.now.edges
        → (IsTrue result ↔ HasTable K.kind (take branch.now.edges branch.now.behind.now)
        branch.now.table.now) }
{
    let (edges, _) = branch.behind.split_at(branch.edges);
    if !K::USE_PHF {
        branch.edge_at(branch.edges - 1) < 128 && front_rises::<K>(tail, branch.edges)
    } else if branch.edges < 16 {
        front_rises::<K>(tail, branch.edges)
    } else {
        known.is_perfect(branch.table, edges)
    }
}

/// Returns whether the offsets have the width that the targets after them need.
pub(crate) fn has_width(body: &[u8], offsets: usize, width: usize) -> bool
    requires within { offsets ≤ length body.now }
    requires some { 1 ≤ width }
    ensures width { IsTrue result ↔ IsWidth (length (drop offsets body.now)) (width - 1) }
    ensures bytes { AreBytes body.now }
{
    let (_, targets) = body.split_at(offsets);
    width - 1 == least_width(targets.len())
}

/// Returns whether the search table and the width of the offsets are valid. `edges` begins with the
/// edges.
pub(super) fn has_front<'a, K: ZeroTrieWithOptions>(
    branch: &Branch<'a>,
    edges: Here<'_>,
    known: &mut KnownTable<'a>,
) -> bool
    requires { edges.rest.now ≡ branch.now.behind.now }
    ensures yes { IsTrue result → HasFront K.kind branch.now.edges branch.now.width
        branch.now.table.now branch.now.behind.now }
    ensures no { result ≡ false → AlwaysNoText K.kind (branch_shape branch.now) }
{
    let (_, body) = branch.behind.split_at(branch.edges);
    has_width(body, branch.width * (branch.edges - 1), branch.width)
        && has_table::<K>(branch, edges.tail, known)
}

/// Returns the target of an edge, which begins at `begin`. Returns `None` if it is empty, or if its
/// offset falls or is beyond the last target.
#[inline(always)]
pub(super) fn target_from<'a, K: ZeroTrieWithOptions>(
    branch: &Branch<'_>,
    targets: Here<'a>,
    begin: usize,
    index: usize,
) -> Option<Here<'a>>
    requires index { index < branch.now.edges }
    requires targets { targets.rest.now
        ≡ targets_behind branch.now.edges branch.now.width branch.now.behind.now }
    requires begins { begin ≡ begin_of branch.now.edges branch.now.width branch.now.behind.now
        index }
    ensures some { IfSome result (λ target.
        IsTarget branch.now.edges branch.now.width branch.now.behind.now index target.rest.now) }
    ensures none { IfNone result (AlwaysNoText K.kind (branch_shape branch.now)) }
{
    let target = targets.part(begin, branch.end_at(index))?;
    if target.rest.is_empty() {
        return None;
    }
    Some(target)
}
