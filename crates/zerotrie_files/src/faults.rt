//! What failed.

ghost use Rattle.std.specs.Prelude.{◌≡◌, ◌↔◌, false, IsTrue, IfErr, OnOk};
ghost use Rattle.zerotrie_files.specs.Faults.{IsClosed, IsFault, IsOutOfMemory};

use std::io;
use std::io::ErrorKind;

/// Returns whether a call failed, for another reason than memory.
pub fn is_fault<T>(outcome: &io::Result<T>) -> bool
    ensures fault { IsTrue result ↔ IsFault outcome.now }
    ensures ok { OnOk outcome.now (result ≡ false) }
    ensures memory { IfErr outcome.now (λ e. result ≡ false → IsOutOfMemory e) }
{
    match outcome {
        Ok(_) => false,
        Err(error) => error.kind() != ErrorKind::OutOfMemory,
    }
}

/// Returns whether a write failed as whoever reads has closed the pipe.
pub fn is_closed<T>(outcome: &io::Result<T>) -> bool
    ensures { IsTrue result ↔ IsClosed outcome.now }
{
    match outcome {
        Ok(_) => false,
        Err(error) => error.kind() == ErrorKind::BrokenPipe,
    }
}
