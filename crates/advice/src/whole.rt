// Texts that end where a sheet may end.
ghost use Rattle.std.specs.Prelude.{Decides};
ghost use Rattle.advice.specs.Permitted.{WholeSheet};

use crate::reading::read;

// Whether a text has the lines of a whole sheet, and nothing after them.
pub fn is_whole(text: &[u8]) -> bool
    ensures { Decides result (WholeSheet text.now) }
{
    read(text).is_ok()
}
