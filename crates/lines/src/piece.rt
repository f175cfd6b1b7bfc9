// The pieces that a line is made of.
ghost use Rattle.std.specs.Prelude.{◌-◌, ◌≤◌, length, SomeIff};
ghost use Rattle.lines.specs.Pieces.{bytes_of};
ghost use Rattle.lines.specs.Putting.{HasRoom, Written};

use crate::cursor::{Cursor, width};
use crate::numbers;

#[derive(Clone, Copy, Debug, PartialEq, Eq)]
pub enum Piece<'a> {
    Text(&'a [u8]),
    Number(u64),
    // The numbers of a mark, parted by `/`.
    Numbers(&'a [u16]),
    Blanks(usize),
    // A text in which `?` stands for each byte that is no printed sign.
    Shown(&'a [u8]),
}

impl Piece<'_> {
    // What it leaves of the room, or none where the room is too small for it.
    pub(crate) fn room_after(self, room: usize) -> Option<usize>
        ensures { SomeIff result (length (bytes_of self.entry) ≤ room) (room - length (bytes_of self.entry)) }
    {
        match self {
            Piece::Text(bytes) | Piece::Shown(bytes) => room.checked_sub(bytes.len()),
            Piece::Number(number) => room.checked_sub(width(number)),
            Piece::Numbers(numbers) => numbers::room_after(numbers, room),
            Piece::Blanks(count) => room.checked_sub(count),
        }
    }

    // Writes it where the cursor stands.
    pub(crate) fn put(self, cursor: &mut Cursor)
        requires { HasRoom cursor.old (length (bytes_of self)) }
        ensures { Written cursor.old (bytes_of self.entry) cursor.new }
    {
        match self {
            Piece::Text(bytes) => cursor.bytes(bytes),
            Piece::Number(number) => cursor.number(number),
            Piece::Numbers(numbers) => numbers::put(numbers, cursor),
            Piece::Blanks(count) => cursor.blanks(count),
            Piece::Shown(bytes) => cursor.shown_bytes(bytes),
        }
    }
}
