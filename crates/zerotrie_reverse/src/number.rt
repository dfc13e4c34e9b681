//! Numbers of variable length, read from any bytes.

ghost use Rattle.std.specs.Prelude.{◌≡◌, ℕ, ◌+◌, ◌*◌, ◌%◌, ◌^◌, ◌⊎◌, List, nat_lt, if◌then◌else◌, Some, None};
ghost use Rattle.std.specs.Option.{option_map};
ghost use Rattle.zerotrie_reverse.specs.Descent.{number_from, number_after};

/// Returns the number with one more digit, if it is below 2^64.
#[inline(always)]
fn with_digit(latent: u8, value: usize, byte: u8) -> Option<usize>
    ensures { result ≡ (if nat_lt (128 * value + byte % 128 + latent) (2 ^ 64)
        then Some (128 * value + byte % 128 + latent) else None) }
{
    value
        .checked_mul(128)?
        .checked_add((byte % 128) as usize + latent as usize)
}

/// Reads the trail bytes of a number that begins with a digit. Returns the number and what follows
/// it.
fn number_from(latent: u8, digit: usize, trail: &[u8]) -> Option<(usize, &[u8])>
    ensures { option_map {U = ℕ × List ℕ} (λ r. (r.0, r.1.now)) result
        ≡ number_from latent digit trail.now }
{
    let mut value = digit;
    let mut rest = trail;
    while let Some((byte, after)) = rest.split_first() {
        value = with_digit(latent, value, *byte)?;
        if *byte < 128 {
            return Some((value, after));
        }
        rest = after;
    }
    None
}

/// Reads a number by its lead and the bytes after it.
#[inline(always)]
pub(crate) fn number_after(latent: u8, lead: u8, rest: &[u8]) -> Option<(usize, &[u8])>
    requires { (latent ≡ 16) ⊎ (latent ≡ 32) }
    ensures { option_map {U = ℕ × List ℕ} (λ r. (r.0, r.1.now)) result
        ≡ number_after latent lead rest.now }
{
    let digit = (lead % latent) as usize;
    if lead / latent % 2 == 0 {
        return Some((digit, rest));
    }
    number_from(latent, digit, rest)
}
