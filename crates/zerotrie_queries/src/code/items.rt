//! Bytes as the items of a constant.

ghost use Rattle.std.specs.Prelude.{◌≡◌, OnOk, OnErr};
ghost use Rattle.std.specs.Io.KnownBytes.{Appends};
ghost use Rattle.zerotrie_files.specs.Faults.{IsNoted};
ghost use Rattle.zerotrie_files.specs.Parts.{AppendsPart};
ghost use Rattle.zerotrie_queries.specs.code.Items.{before_item, item_number, items};

use std::io;
use std::io::Write;
use zerotrie_files::Noted;
use zerotrie_lines::hex_digit;

/// Returns the white space before an item: a new line before each sixteenth.
fn before_item(index: usize) -> &'static str
    ensures { result.now ≡ before_item index }
{
    if index % 16 == 0 { "\n    " } else { " " }
}

/// Returns a byte in hexadecimal, and a comma.
fn item_number(byte: u8) -> [u8; 5]
    ensures { result ≡ item_number byte }
{
    [b'0', b'x', hex_digit(byte / 16), hex_digit(byte % 16), b',']
}

/// Writes bytes as items, sixteen a line. It does not allocate. If it fails, a beginning of them
/// was written.
pub fn write_items<W: Write>(bytes: &[u8], output: &mut Noted<W>) -> io::Result<()>
    ensures all { OnOk result (Appends (W.contents output.old.inner) (W.contents output.new.inner)
        (items 0 bytes.now)) }
    ensures part { OnErr result (AppendsPart (W.contents output.old.inner)
        (W.contents output.new.inner) (items 0 bytes.now)) }
    ensures noted { IsNoted result output.old.failed output.new.failed }
{
    for (index, byte) in bytes.iter().enumerate() {
        output.write_bytes(before_item(index).as_bytes())?;
        output.write_bytes(&item_number(*byte))?;
    }
    Ok(())
}
