// Sheets that the tests share.
use sheet::table::Sheet;
use std::test::Fail;

pub(crate) const SHELVES: &[u8] = b"field box 1 3 ; field item 0 2 ; mark box = 2 or item < 1 ;";

pub(crate) const ODD: &[u8] =
    b"field n 0 3 ; rule odd ( a ) : a = 1 or ( a > 1 and odd ( a - 2 ) ) ; mark odd ( n ) ;";

pub(crate) const REGISTERED: &[u8] = b"field box 0 9 ; field item 0 9 ; mark box >= 1 ;";

pub(crate) const EITHER: &[u8] = b"field a 0 1 ; field b 0 1 ; mark a = 0 or b = 1 ;";

// The sheet that a text spells.
pub(crate) fn spelt(text: &[u8]) -> Result<Sheet, Fail> {
    let mut sheet = Sheet::blank();
    names::read(text, &mut sheet).map_err(|_| Fail::new("a sheet"))?;
    Ok(sheet)
}
