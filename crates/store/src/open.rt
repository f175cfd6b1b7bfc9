// The open store: a table of eight rows, of which the first ones, one for each field, are in use.
// The table is a plain array with the number of rows in use beside it, and no vector: a rule of the project asks that
// one row of an array is lent.
ghost use Rattle.std.specs.Prelude.{◌≤◌};

use crate::row::Row;

#[derive(PartialEq, Eq, Debug, Drop)]
pub struct OpenStore<R = Row> {
    pub(crate) width: usize,
    pub(crate) rows: [R; 8],
    ghost few: { (1 ≤ width) × (width ≤ 8) },
}
