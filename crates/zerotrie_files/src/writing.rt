//! Bytes that are written whole, or, if that fails, a beginning of them.

ghost use Rattle.std.specs.Prelude.{◌≢◌, IfErr, OnOk, OnErr};
ghost use Rattle.std.specs.IoError.{error_kind};
ghost use Rattle.std.specs.Io.KnownBytes.{Appends};
ghost use Rattle.zerotrie_files.specs.Parts.{AppendsPart};

use std::io;
use std::io::{ErrorKind, Write};

/// Writes bytes, as `write_all` does. If it fails, a beginning of them was written. A write that a
/// signal interrupts is made again.
pub fn write_bytes<W: Write>(output: &mut W, bytes: &[u8]) -> io::Result<()>
    ensures all { OnOk result (Appends (W.contents output.old) (W.contents output.new) bytes.now) }
    ensures part { OnErr result (AppendsPart (W.contents output.old) (W.contents output.new)
        bytes.now) }
    ensures again { IfErr result (λ e. error_kind e ≢ ErrorKind.Interrupted) }
{
    let mut rest = bytes;
    // each loop has to end: no writer is interrupted so often
    for _ in 0..u64::MAX {
        if rest.is_empty() {
            return Ok(());
        }
        match output.write(rest) {
            Ok(0) => return Err(ErrorKind::WriteZero.into()),
            Ok(count) => {
                let (_, left) = rest.split_at(count);
                rest = left;
            }
            Err(error) if error.kind() == ErrorKind::Interrupted => {}
            Err(error) => return Err(error),
        }
    }
    Err(ErrorKind::TimedOut.into())
}
