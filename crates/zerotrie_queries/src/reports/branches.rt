//! How many branches a trie has, by the number of their edges and the width of their offsets.

ghost use Rattle.std.specs.Prelude.{◌≡◌, ◌≤◌, ◌<◌, ◌+◌, ◌^◌};

/// How many branches there are, by the number of their edges and the width of their offsets.
///
/// The numbers of edges are in eight groups: 2, 3 to 4, 5 to 8, and so on up to 129 to 256. A cell
/// is for one group and one width, from 1 to 8. The cells of the first group come first.
#[derive(Clone, Copy, PartialEq, Eq, Debug)]
pub struct Branches {
    /// How many there are.
    pub count: usize,
    /// How many there are of each group and width.
    pub cells: [usize; 64],
}

impl Branches {
    ghost use Rattle.zerotrie_queries.specs.reports.Counts.{group_of};
    ghost use Rattle.zerotrie_queries.specs.reports.count.Steps.{no_branches, with_branch, AreWithin};

    /// Returns the group of a number of edges.
    fn group_of(edges: usize) -> usize
        ensures group { result ≡ group_of edges }
        ensures few { result < 8 }
    {
        match edges {
            0..=2 => 0,
            3..=4 => 1,
            5..=8 => 2,
            9..=16 => 3,
            17..=32 => 4,
            33..=64 => 5,
            65..=128 => 6,
            _ => 7,
        }
    }

    /// Returns the count of no branches.
    pub fn new() -> Self
        ensures { result ≡ no_branches }
    {
        Branches {
            count: 0,
            cells: [0; 64],
        }
    }

    /// Counts a branch.
    pub fn add(&mut self, edges: usize, width: usize)
        requires { (self.old.count + 1 < 2 ^ 64) × AreWithin self.old × (1 ≤ width) × (width ≤ 8) }
        ensures { self.new ≡ with_branch edges width self.old }
    {
        self.count += 1;
        self.cells[8 * Self::group_of(edges) + (width - 1)] += 1;
    }
}
