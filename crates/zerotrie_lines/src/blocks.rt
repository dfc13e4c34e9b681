//! Whole lines at the front of bytes.

ghost use Rattle.std.specs.Prelude.{◌≡◌, ℕ, ◌<◌, ◌≤◌, ◌⊎◌, length, take};
ghost use Rattle.zerotrie_lines.specs.Blocks.{AreWhole, HasFeed};

use memchr::memrchr;

/// Returns the length of the whole lines, each with its line feed. It is 0 if no line feed is at
/// `from` or later. Only the bytes from there on are searched.
pub fn whole_lines(bytes: &[u8], from: usize) -> usize
    ensures within { result ≤ length bytes.now }
    ensures whole { AreWhole (take result bytes.now) }
    ensures fresh { (result ≡ 0) ⊎ (from < result) }
    ensures last { (k : ℕ) → from ≤ k → result ≤ k → HasFeed bytes.now k → ⊥ }
{
    let Some(fresh) = bytes.get(from..) else {
        return 0;
    };
    match memrchr(b'\n', fresh) {
        Some(place) => from + place + 1,
        None => 0,
    }
}
