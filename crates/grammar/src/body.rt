// The formula of a line.
ghost use Rattle.std.specs.Prelude.{◌<◌, ◌≤◌};

use crate::formula_part::Part;

// A formula whose entries stand from `start` on, in a table with room for 256.
#[derive(Clone, Copy, PartialEq, Eq, Debug)]
pub(crate) struct Body {
    pub(crate) start: usize,
    pub(crate) part: Part,
    ghost room: { start ≤ 256 },
    ghost some: { 0 < part.size },
}
