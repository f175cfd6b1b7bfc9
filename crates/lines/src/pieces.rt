// Pieces written one after another into a buffer of the caller's.
ghost use Rattle.std.specs.Prelude.{◌-◌, ◌≤◌, length, SomeIff};
ghost use Rattle.lines.specs.Lines.{Made};
ghost use Rattle.lines.specs.Pieces.{text_of};

use crate::cursor::Cursor;
use crate::piece::Piece;
use refusal::Refusal;

// Writes the pieces at the front of the buffer, and answers how many bytes they have.
pub fn write(pieces: &[Piece], out: &mut [u8]) -> Result<usize, Refusal>
    ensures { Made (text_of pieces.now) out.old out.new result }
{
    room_after(pieces, out.len()).ok_or(Refusal::BufferTooShort)?;
    let mut cursor = Cursor { out, at: 0 };
    for piece in pieces {
        piece.put(&mut cursor);
    }
    Ok(cursor.at)
}

// What the pieces leave of the room, or none where the room is too small. It is counted down, since the length of
// all pieces may pass a `usize`.
fn room_after(pieces: &[Piece], room: usize) -> Option<usize>
    ensures { SomeIff result (length (text_of pieces.now) ≤ room) (room - length (text_of pieces.now)) }
{
    pieces
        .iter()
        .try_fold(room, |left, piece| piece.room_after(left))
}
