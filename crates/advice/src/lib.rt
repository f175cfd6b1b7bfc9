// What is printed for a person below a fault: its line and column, that line of the text, a mark under the
// place, and advice. Each line is made in a buffer of the caller's.
#![tactic(auto)]

ghost use Rattle.lines.specs.Lines.{Made};
ghost use Rattle.advice.specs.Laws.{OnePlace, StandsUnder};
ghost use Rattle.advice.specs.Message.{advice_text, marker_text, position_text, shown_text};
ghost use Rattle.advice.specs.Permitted.{end_text, kind_text};
ghost use Rattle.advice.specs.Places.{OneLine};

use kind::Kind;
use lines::Piece::{Blanks, Number, Shown, Text};
use refusal::Refusal;

pub mod kind;
pub mod permitted;
mod place;
mod reading;
mod sentence;
pub mod whole;

pub use place::Spot;

impl Spot<'_> {
    // `line N, column N`: where the place stands, counted from 1. No other place of the text has both.
    pub fn position_line(self, out: &mut [u8]) -> Result<usize, Refusal>
        ensures made { Made (position_text self.entry.text.now self.entry.place) out.old out.new result }
        ensures one_place { OnePlace self.entry.text.now self.entry.place }
    {
        // std has no `From<usize>` for `u64`, so both are cast
        let line = [
            Text(b"line "),
            Number(self.line_number() as u64),
            Text(b", column "),
            Number(self.column() as u64),
            Text(b"\n"),
        ];
        lines::write(&line, out)
    }

    // The line of the text in which the place lies, and in no other.
    pub fn shown_line(self, out: &mut [u8]) -> Result<usize, Refusal>
        ensures made { Made (shown_text self.entry.text.now self.entry.place) out.old out.new result }
        ensures one_line { OneLine self.entry.text.now self.entry.place }
    {
        lines::write(&[Shown(self.line()), Text(b"\n")], out)
    }

    // A mark `^`, which stands under the place when printed below its line.
    pub fn marker_line(self, out: &mut [u8]) -> Result<usize, Refusal>
        ensures made { Made (marker_text self.entry.text.now self.entry.place) out.old out.new result }
        ensures stands_under { StandsUnder self.entry.text.now self.entry.place }
    {
        lines::write(&[Blanks(self.column() - 1), Text(b"^\n")], out)
    }
}

// What is wrong, and what would be right.
pub fn advice_line(refusal: Refusal, out: &mut [u8]) -> Result<usize, Refusal>
    ensures { Made (advice_text refusal) out.old out.new result }
{
    lines::write(&[Text(sentence::about(refusal)), Text(b"\n")], out)
}

// That a token of the kind may stand at a place, for a list of all that may.
pub fn kind_line(kind: Kind, out: &mut [u8]) -> Result<usize, Refusal>
    ensures { Made (kind_text kind) out.old out.new result }
{
    lines::write(
        &[Text(b"here may stand "), Text(kind.name()), Text(b"\n")],
        out,
    )
}

// That the text may end there, for the same list.
pub fn end_line(out: &mut [u8]) -> Result<usize, Refusal>
    ensures { Made end_text out.old out.new result }
{
    lines::write(&[Text(b"here the text may end\n")], out)
}
