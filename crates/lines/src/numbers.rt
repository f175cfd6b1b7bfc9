// The numbers of a mark, parted by `/`.
ghost use Rattle.std.specs.Prelude.{◌-◌, ◌≤◌, length, SomeIff};
ghost use Rattle.lines.specs.Pieces.{parted};
ghost use Rattle.lines.specs.Putting.{HasRoom, Written};

use crate::cursor::{Cursor, width};

// What they leave of the room, or none where the room is too small for them.
pub(crate) fn room_after(numbers: &[u16], room: usize) -> Option<usize>
    ensures { SomeIff result (length (parted numbers.now) ≤ room) (room - length (parted numbers.now)) }
{
    let Some((first, others)) = numbers.split_first() else {
        return Some(room);
    };
    let left = room.checked_sub(width(*first))?;
    // the `/` and the number
    others
        .iter()
        .try_fold(left, |left, number| left.checked_sub(1 + width(*number)))
}

// Writes them where the cursor stands.
pub(crate) fn put(numbers: &[u16], cursor: &mut Cursor)
    requires { HasRoom cursor.old (length (parted numbers.now)) }
    ensures { Written cursor.old (parted numbers.now) cursor.new }
{
    let Some((first, others)) = numbers.split_first() else {
        return;
    };
    cursor.number(*first);
    for number in others {
        cursor.bytes(b"/");
        cursor.number(*number);
    }
}
