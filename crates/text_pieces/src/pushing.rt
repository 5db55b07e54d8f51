//! Parts of a text that is gathered in memory before it is written. The only error of each call is
//! out of memory.
ghost use Rattle.std.specs.Prelude.{◌≡◌, ◌++◌, OnOk, decimal};
ghost use Rattle.text_pieces.specs.Pieces.{text_with_number};

use crate::piece::Piece;
use itoa::Buffer;
use nc_number::NoMemory;

/// Adds bytes at the end of a text.
pub fn push_bytes(text: &mut Vec<u8>, bytes: &[u8]) -> Result<(), NoMemory>
    ensures { OnOk result (text.new.items ≡ text.old.items ++ bytes.now) }
{
    text.extend_from_slice(bytes)?;
    Ok(())
}

/// Adds a whole number in decimal digits at the end of a text.
fn push_number(text: &mut Vec<u8>, number: u64) -> Result<(), NoMemory>
    ensures { OnOk result (text.new.items ≡ text.old.items ++ decimal number) }
{
    let mut buffer = Buffer::new();
    push_bytes(text, buffer.format(number).as_bytes())
}

/// Adds bytes, and a number after them, at the end of a text.
pub fn push_numbered(text: &mut Vec<u8>, before: &[u8], number: u64) -> Result<(), NoMemory>
    ensures { OnOk result (text.new.items ≡ text.old.items ++ text_with_number before.now number) }
{
    push_bytes(text, before)?;
    push_number(text, number)
}

/// Adds a piece at the end of a text.
pub fn push_piece(text: &mut Vec<u8>, piece: &Piece) -> Result<(), NoMemory>
    ensures { OnOk result (text.new.items ≡ text.old.items ++ piece.now) }
{
    push_bytes(text, piece.as_slice())
}
