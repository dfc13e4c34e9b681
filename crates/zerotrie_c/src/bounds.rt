//! How many bytes a build needs at most.

ghost use Rattle.std.specs.Prelude.{◌≡◌, ◌≤◌, ◌+◌, ◌*◌, ◌-◌, ◌^◌, ℕ, List, Ok, length, min};
ghost use Rattle.zerotrie_core.specs.Kind.{Kind};
ghost use Rattle.zerotrie_core.specs.Maps.{Pairs};
ghost use Rattle.zerotrie_core.specs.Routes.{Route, IsBuild};
ghost use Rattle.zerotrie_c.specs.Listed.{joined};

/// Returns a number of bytes that is enough for each build of so many pairs whose keys have so many
/// bytes together: 20 for a pair and 2 for a byte of a key, or the greatest number if that is more.
#[unsafe(no_mangle)]
pub extern "C" fn zerotrie_build_bound(count: usize, key_bytes: usize) -> usize
    ensures enough { (route : Route) (kind : Kind) (pairs : Pairs) (bytes : List ℕ)
        → IsBuild route kind (λ b. b) pairs (Ok bytes)
        → length pairs ≤ count → length (joined pairs) ≤ key_bytes → length bytes ≤ result }
    ensures number { result ≡ min (20 * count + 2 * key_bytes) (2 ^ 64 - 1) }
{
    count
        .saturating_mul(20)
        .saturating_add(key_bytes.saturating_mul(2))
}
