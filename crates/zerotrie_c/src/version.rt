//! The version of the library.

ghost use Rattle.std.specs.Prelude.{◌≡◌, ◌+◌, ◌*◌};

// The version is 0.3.0.
const MAJOR: u32 = 0;

const MINOR: u32 = 3;

const PATCH: u32 = 0;

/// Returns the version of the library as one number, which is 1,002,003 in version 1.2.3.
#[unsafe(no_mangle)]
pub extern "C" fn zerotrie_version() -> u32
    ensures { result ≡ 1000000 * MAJOR + 1000 * MINOR + PATCH }
{
    1_000_000 * MAJOR + 1_000 * MINOR + PATCH
}
