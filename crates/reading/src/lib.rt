// The plain reading of a mark against a sheet.
#![tactic(auto)]

mod fields;
mod formulas;
mod terms;

ghost use Rattle.std.specs.Prelude.{◌≡◌, ℕ};
ghost use Rattle.marks.specs.Sets.{Shaped};
ghost use Rattle.meaning.specs.Terms.{fields_of};
ghost use Rattle.meaning.specs.Reading.{verdict, Checks};
ghost use Rattle.sheet.specs.Sheets.{tree_of};
ghost use Rattle.reading.specs.Steps.{answer};
ghost use Rattle.reading.specs.Answers.{verdict_of, answer_of, Right};

use refusal::Refusal;
use sheet::table::Sheet;
use terms::Numbers;

// What a check says of a mark. An enum of its own: a check has three answers, each with a name, and an `Option<bool>`,
// as the reading of a formula answers, says none of the names.
#[derive(Clone, Copy, PartialEq, Eq, Debug)]
pub enum Verdict {
    Allowed,
    NotAllowed,
    Spent,
}

// A verdict, and the number of calls made.
#[derive(Clone, Copy, PartialEq, Eq, Debug)]
pub struct Reading {
    pub verdict: Verdict,
    pub calls: u8,
}

// Checks a mark against a sheet; a list that is no mark of the sheet's fields is refused.
pub fn check(sheet: &Sheet, mark: &[u16], fuel: u8) -> Result<Reading, Refusal>
    ensures { Right (tree_of sheet.now) mark.now fuel (answer_of result) }
{
    if fields::is_mark(sheet, mark) {
        Ok(read_mark(sheet, mark, fuel))
    } else {
        Err(Refusal::NotAMark)
    }
}

// Reads a mark of the sheet's fields: its ranges, and then the formula of the mark line.
fn read_mark(sheet: &Sheet, mark: &[u16], fuel: u8) -> Reading
    requires { Shaped (fields_of (tree_of sheet.now)) mark.now }
    ensures { Checks (tree_of sheet.now) mark.now fuel
        (verdict_of result.verdict) result.calls }
{
    if !fields::in_ranges(sheet, mark) {
        return Reading {
            verdict: Verdict::NotAllowed,
            calls: 0,
        };
    }
    let mut left = fuel;
    let line = sheet.rules.len();
    let body = usize::from(sheet.mark.body);
    let numbers = Numbers { mark, args: &[] };
    let result = formulas::read(sheet, &numbers, line, body, &mut left);
    Reading {
        verdict: Verdict::from(result),
        calls: fuel - left,
    }
}

// The verdict on a mark in its ranges, by what the mark line reads as; none when it is spent.
impl From<Option<bool>> for Verdict {
    ghost from_gives = { λ outcome v. (left : ℕ) → verdict_of v ≡ verdict (answer outcome left) };

    fn from(outcome: Option<bool>) -> Verdict {
        match outcome {
            Some(true) => Verdict::Allowed,
            Some(false) => Verdict::NotAllowed,
            None => Verdict::Spent,
        }
    }
}
