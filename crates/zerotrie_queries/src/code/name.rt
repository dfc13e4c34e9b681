//! The names that code can have.

ghost use Rattle.std.specs.Prelude.{◌≡◌};
ghost use Rattle.zerotrie_queries.specs.code.Names.{is_letter, is_in_word, are_in_word, is_name};

/// Returns whether a byte is an ASCII letter or `_`.
fn is_letter(byte: u8) -> bool
    ensures { result ≡ is_letter byte }
{
    matches!(byte, b'a'..=b'z' | b'A'..=b'Z' | b'_')
}

/// Returns whether a byte is an ASCII letter, `_` or an ASCII digit.
fn is_in_word(byte: u8) -> bool
    ensures { result ≡ is_in_word byte }
{
    is_letter(byte) || matches!(byte, b'0'..=b'9')
}

/// Returns whether all bytes are ASCII letters, `_` or ASCII digits.
fn are_in_word(bytes: &[u8]) -> bool
    ensures { result ≡ are_in_word bytes.now }
{
    for byte in bytes {
        if !is_in_word(*byte) {
            return false;
        }
    }
    true
}

/// Returns whether the name is an identifier: ASCII letters, `_` and ASCII digits, and no digit
/// first. It may be a keyword.
pub fn is_name(name: &str) -> bool
    ensures { result ≡ is_name name.now }
{
    match name.as_bytes() {
        [first, rest @ ..] => is_letter(*first) && are_in_word(rest),
        [] => false,
    }
}
