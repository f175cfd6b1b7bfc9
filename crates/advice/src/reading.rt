// A text cut into tokens, and parsed.
ghost use Rattle.advice.specs.Reading.{IsRead};

use grammar::table::Table;
use refusal::Fault;

// The sheet, or where the text cannot go on as one. The place is the end of the text where only more text is missing.
pub(crate) fn read(text: &[u8]) -> Result<Table, Fault>
    ensures { IsRead text.now result }
{
    signs::survey(text)?;
    grammar::parse(text)
}
