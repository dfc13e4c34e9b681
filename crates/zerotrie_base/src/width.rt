//! The width of the offsets of a branch.

ghost use Rattle.std.specs.Prelude.{◌≤◌};
ghost use Rattle.zerotrie_base.specs.Branches.{IsWidth};

/// Returns the least width field of a branch whose targets have this many bytes in total: the least
/// number w with `total` below 256^(w + 1).
///
/// ```
/// assert_eq!(rt; least_width(255), 0);
/// assert_eq!(rt; least_width(256), 1);
/// ```
pub fn least_width(total: usize) -> usize
    ensures width { IsWidth total result }
    ensures small { result ≤ 7 }
{
    total.max(1).ilog2() as usize / 8
}
