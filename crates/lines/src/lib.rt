// Lines on marks, sheets, texts and walks, each as bytes in a buffer of the caller's. Each line has a function of its
// own, with its text as the contract: one that took the words as well would be `write` again. It is no `Display`: these
// are proved bytes, whole or not at all, in a buffer of the caller's. A function answers how many it wrote, as
// `Write::write` does.
#![tactic(auto)]

ghost use Rattle.std.specs.Prelude.{◌≡◌, take, IfOk};
ghost use Rattle.lines.specs.Lines.{Made, allowed_text, closing_text, contents_text, fault_text, mark_text};
ghost use Rattle.lines.specs.Lines.{not_allowed_text, refused_text, signs_text, spent_text};
ghost use Rattle.lines.specs.Reading.{LinesDiffer, ReadBack, numbers_of};

use piece::Piece::{Number, Numbers, Text};
use refusal::{Fault, Layer, Refusal};

mod cursor;
mod numbers;
mod piece;
mod pieces;

pub use piece::Piece;
pub use pieces::write;

// `N/N/N`, the numbers of a mark. The line reads back as the mark.
pub fn mark_line(mark: &[u16], out: &mut [u8]) -> Result<usize, Refusal>
    ensures made { Made (mark_text mark.now) out.old out.new result }
    ensures read_back { IfOk result (λ n. numbers_of (take n out.new) ≡ mark.now) }
{
    write(&[Numbers(mark), Text(b"\n")], out)
}

// Every mark can be read back from its line, so no two marks share one.
pub fn lines_differ()
    ensures read_back { ReadBack }
    ensures differ { LinesDiffer }
{}

// `issued N dead N spent N`
pub fn closing_line(issued: u64, dead: u64, spent: u64, out: &mut [u8]) -> Result<usize, Refusal>
    ensures { Made (closing_text issued dead spent) out.old out.new result }
{
    let line = [
        Text(b"issued "),
        Number(issued),
        Text(b" dead "),
        Number(dead),
        Text(b" spent "),
        Number(spent),
        Text(b"\n"),
    ];
    write(&line, out)
}

// `words N numbers N signs N`
pub fn signs_line(words: u64, numbers: u64, signs: u64, out: &mut [u8]) -> Result<usize, Refusal>
    ensures { Made (signs_text words numbers signs) out.old out.new result }
{
    let line = [
        Text(b"words "),
        Number(words),
        Text(b" numbers "),
        Number(numbers),
        Text(b" signs "),
        Number(signs),
        Text(b"\n"),
    ];
    write(&line, out)
}

// `fields N rules N formulas N`
pub fn contents_line(
    fields: u64,
    rules: u64,
    formulas: u64,
    out: &mut [u8],
) -> Result<usize, Refusal>
    ensures { Made (contents_text fields rules formulas) out.old out.new result }
{
    let line = [
        Text(b"fields "),
        Number(fields),
        Text(b" rules "),
        Number(rules),
        Text(b" formulas "),
        Number(formulas),
        Text(b"\n"),
    ];
    write(&line, out)
}

// `allowed N`, a mark that is allowed and the calls that its reading made.
pub fn allowed_line(calls: u64, out: &mut [u8]) -> Result<usize, Refusal>
    ensures { Made (allowed_text calls) out.old out.new result }
{
    write(&[Text(b"allowed "), Number(calls), Text(b"\n")], out)
}

// `not allowed N`
pub fn not_allowed_line(calls: u64, out: &mut [u8]) -> Result<usize, Refusal>
    ensures { Made (not_allowed_text calls) out.old out.new result }
{
    write(&[Text(b"not allowed "), Number(calls), Text(b"\n")], out)
}

// `spent N`
pub fn spent_line(calls: u64, out: &mut [u8]) -> Result<usize, Refusal>
    ensures { Made (spent_text calls) out.old out.new result }
{
    write(&[Text(b"spent "), Number(calls), Text(b"\n")], out)
}

// `refused N`, the number of a refusal.
pub fn refused_line(refusal: Refusal, out: &mut [u8]) -> Result<usize, Refusal>
    ensures { Made (refused_text refusal) out.old out.new result }
{
    let number = u64::from(refusal.number());
    write(&[Text(b"refused "), Number(number), Text(b"\n")], out)
}

// `fault LAYER NUMBER PLACE`
pub fn fault_line(fault: Fault, out: &mut [u8]) -> Result<usize, Refusal>
    ensures { Made (fault_text fault) out.old out.new result }
{
    let layer = fault.refusal.layer().map_or(0, Layer::number);
    // std has no `From<usize>` for `u64`, so the place is cast
    let line = [
        Text(b"fault "),
        Number(u64::from(layer)),
        Text(b" "),
        Number(u64::from(fault.refusal.number())),
        Text(b" "),
        Number(fault.place as u64),
        Text(b"\n"),
    ];
    write(&line, out)
}
