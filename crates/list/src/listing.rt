// What a walk lists: each mark's line as it comes, and the closing line.
ghost use Rattle.std.specs.Prelude.{◌≡◌, take, IfOk, OnOk};
ghost use Rattle.std.specs.Io.KnownBytes.{Appends};
ghost use Rattle.lines.specs.Lines.{mark_text};
ghost use Rattle.sheet.specs.Sheets.{tree_of};
ghost use Rattle.store.specs.Rules.{Stays};
ghost use Rattle.run.specs.Lists.{SameLists};
ghost use Rattle.walk.specs.Lending.{watch_over};
ghost use Rattle.list.specs.Listings.{Listed, figures_line};
ghost use Rattle.list.specs.Steps.{NextLine, answer_text};

use run::lists::Lists;
use sheet::table::Sheet;
use std::io;
use std::io::Write;
use store::Store;
use streams::put;
use walk::answer::{Answer, Tallies};
use walk::start;
use walk::state::Walk;

// Walks the sheet over the store to its end: each mark's line as it comes, and the closing line. It is an error where a
// next is refused, where the line list or the writer has no room for a line, and where the walk did not end within
// 2^64 - 1 nexts.
pub(crate) fn list<S: Store, W: Write>(
    sheet: &Sheet,
    store: &mut S,
    fuel: u8,
    lists: &mut Lists<'_>,
    line: &mut [u8],
    out: &mut W,
) -> io::Result<()>
    ensures same { Stays S.width S.starting store.old store.new }
    ensures own { SameLists lists.old lists.new }
    ensures listed { OnOk result (Listed (tree_of sheet.now) fuel (S.starting store.old)
        (W.contents out.old) (W.contents out.new)) }
{
    let mut walk = start(fuel);
    // Counted, since what a walk answers does not tell the proof that it ends.
    for _ in 0..u64::MAX {
        if next_line(&mut walk, sheet, store, lists, line, out)? == Answer::Finished {
            return put_figures(walk.tally(), line, out);
        }
    }
    Err(io::Error::other("the walk did not end"))
}

// A next, and the line of the mark that it issues.
fn next_line<S: Store, W: Write>(
    walk: &mut Walk,
    sheet: &Sheet,
    store: &mut S,
    lists: &mut Lists<'_>,
    line: &mut [u8],
    out: &mut W,
) -> io::Result<Answer>
    ensures same { Stays S.width S.starting store.old store.new }
    ensures own { SameLists lists.old lists.new }
    ensures told { IfOk result (λ a. NextLine (tree_of sheet.now) (S.width store.old)
        (watch_over walk.old (S.starting store.old) lists.old) (W.contents out.old) a
        (watch_over walk.new (S.starting store.new) lists.new) (W.contents out.new)) }
{
    let Ok(answer) = walk.next(sheet, store, lists) else {
        return Err(io::Error::other("the walk is refused"));
    };
    put_answer(answer, sheet.field_count(), lists.mark, line, out)?;
    Ok(answer)
}

// Writes the line of the mark at the front of the mark list where a mark was answered, and nothing otherwise.
fn put_answer<W: Write>(
    answer: Answer,
    fields: usize,
    mark: &[u16],
    line: &mut [u8],
    out: &mut W,
) -> io::Result<()>
    ensures { OnOk result (Appends (W.contents out.old) (W.contents out.new)
        (answer_text answer (take fields mark.now))) }
{
    match answer {
        Answer::Mark => put_mark(fields, mark, line, out),
        Answer::DeadEnd | Answer::Spent | Answer::Finished => Ok(()),
    }
}

// Writes the line of the mark at the front of the mark list.
fn put_mark<W: Write>(fields: usize, mark: &[u16], line: &mut [u8], out: &mut W) -> io::Result<()>
    ensures { OnOk result (Appends (W.contents out.old) (W.contents out.new)
        (mark_text (take fields mark.now))) }
{
    let mark = mark
        .get(..fields)
        .ok_or_else(|| io::Error::other("the mark list is too short"))?;
    put(lines::mark_line(mark, line), line, out)
}

// Writes the closing line.
fn put_figures<W: Write>(tallies: Tallies, line: &mut [u8], out: &mut W) -> io::Result<()>
    ensures { OnOk result (Appends (W.contents out.old) (W.contents out.new) (figures_line tallies)) }
{
    put(
        lines::closing_line(tallies.issued, tallies.dead, tallies.spent, line),
        line,
        out,
    )
}
