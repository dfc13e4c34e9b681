//! Validation of hashed tables, which remembers the last valid one.
//!
//! Many branches have the same table. Then the hashes of its edges are computed once.

ghost use Rattle.std.specs.Prelude.{◌≡◌, ℕ, ◌-◌, IsTrue, List, ◌∷◌, ◌++◌, length, drop};
ghost use Rattle.zerotrie_base.specs.Hashes.{IsPerfect};
ghost use Rattle.zerotrie_core.specs.well_formed.Branching.{AreBytes, AnswersEach};

use zerotrie_base::PerfectByteHashMap;

fn is_perfect(table: &[u8], edges: &[u8]) -> bool
    ensures bytes { AreBytes table.now × AreBytes edges.now }
    ensures yes { IsTrue result → AnswersEach table.now edges.now }
    ensures no { (p : ℕ) (qs : List ℕ) → table.now ≡ p ∷ (qs ++ edges.now)
        → IsPerfect p qs edges.now → IsTrue result }
{
    for index in 0..edges.len() {
        if PerfectByteHashMap::from_bytes(table).get(edges[index]) != Some(index) {
            return false;
        }
    }
    true
}

/// The last valid hashed table, and the number of edges at its end. At first it is empty.
#[derive(Drop)]
pub(crate) struct KnownTable<'a> {
    table: &'a [u8],
    edges: usize,
    ghost perfect: { AnswersEach table.now (drop (length table.now - edges) table.now) },
}

impl<'a> KnownTable<'a> {
    #[inline(always)]
    pub(crate) fn none() -> Self {
        KnownTable {
            table: &[],
            edges: 0,
        }
    }

    /// Returns whether a hashed table that ends with the edges has each of them at its place. A
    /// table that equals the last valid one is valid.
    #[inline(always)]
    pub(crate) fn is_perfect(&mut self, table: &'a [u8], edges: &[u8]) -> bool
        requires { edges.now ≡ drop (length table.now - length edges.now) table.now }
        ensures bytes { AreBytes table.now × AreBytes edges.now }
        ensures yes { IsTrue result → AnswersEach table.now edges.now }
        ensures no { (p : ℕ) (qs : List ℕ) → table.now ≡ p ∷ (qs ++ edges.now)
            → IsPerfect p qs edges.now → IsTrue result }
    {
        if edges.len() == self.edges && table == self.table {
            return true;
        }
        let perfect = is_perfect(table, edges);
        if perfect {
            *self = KnownTable {
                table,
                edges: edges.len(),
            };
        }
        perfect
    }
}
