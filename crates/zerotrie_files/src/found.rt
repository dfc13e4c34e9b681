//! What a path leads to.

ghost use Rattle.std.specs.Prelude.{◌≡◌, ◌%◌, ◌<◌};

/// Who may read, write and run a file: the bits of its mode that stay if it is replaced. There is
/// no set-id bit.
#[derive(Clone, Copy, Debug)]
pub struct Mode {
    bits: u32,
    pub ghost kept: { bits < 512 },
}

impl Mode {
    /// Returns what stays of the mode of a file.
    pub fn kept(mode: u32) -> Self
        ensures { result.bits ≡ mode % 512 }
    {
        Mode {
            bits: mode % 0o1000,
        }
    }

    /// Returns the bits.
    pub fn bits(self) -> u32
        ensures { result ≡ self.bits }
    {
        self.bits
    }
}

/// What a path leads to.
#[derive(Clone, Copy, Debug)]
pub enum Found {
    /// Nothing, and it is no link either.
    Nothing,
    /// A file.
    File(Mode),
    Folder,
    /// A device or a pipe.
    Stream,
}
