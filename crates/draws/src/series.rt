// What practice draws list: a line for each draw, up to the last.
ghost use Rattle.std.specs.Prelude.{◌≡◌, take, IfOk, OnOk};
ghost use Rattle.std.specs.Io.KnownBytes.{Appends};
ghost use Rattle.lines.specs.Lines.{mark_text};
ghost use Rattle.sheet.specs.Sheets.{tree_of};
ghost use Rattle.store.specs.Rules.{Stays};
ghost use Rattle.run.specs.Answering.{drawn_of};
ghost use Rattle.run.specs.Lists.{SameLists};
ghost use Rattle.draws.specs.Drawing.{ListedDraws, drawn_text};
ghost use Rattle.draws.specs.Steps.{DrawLine, is_last};

use lines::Piece::Text;
use run::answer::{Ended, Ran};
use run::draw::draw;
use run::lists::Lists;
use sheet::table::Sheet;
use source::Source;
use std::io;
use std::io::Write;
use store::Store;
use streams::put;

// Draws over the store from the source, one after the other, each with its line, until one is dry or has an empty trace.
// It is an error where a draw is refused, where the line list or the writer has no room for a line, and where the draws
// did not end within 2^64 - 1 of them.
pub(crate) fn list_draws<S: Store, R: Source, W: Write>(
    sheet: &Sheet,
    store: &mut S,
    fuel: u8,
    source: &mut R,
    lists: &mut Lists<'_>,
    line: &mut [u8],
    out: &mut W,
) -> io::Result<()>
    ensures same { Stays S.width S.starting store.old store.new }
    ensures own { SameLists lists.old lists.new }
    ensures listed { OnOk result (ListedDraws (tree_of sheet.now) fuel (S.starting store.old)
        (R.waiting source.old) (R.waiting source.new) (W.contents out.old) (W.contents out.new)) }
{
    // Counted, since a source does not tell how many numbers wait.
    for _ in 0..u64::MAX {
        if draw_line(sheet, store, fuel, source, lists, line, out)? {
            return Ok(());
        }
    }
    Err(io::Error::other("the draws did not end"))
}

// A draw and its line, and whether it is the last.
fn draw_line<S: Store, R: Source, W: Write>(
    sheet: &Sheet,
    store: &mut S,
    fuel: u8,
    source: &mut R,
    lists: &mut Lists<'_>,
    line: &mut [u8],
    out: &mut W,
) -> io::Result<bool>
    ensures same { Stays S.width S.starting store.old store.new }
    ensures own { SameLists lists.old lists.new }
    ensures told { IfOk result (λ last. DrawLine (tree_of sheet.now) fuel (S.starting store.old)
        (R.waiting source.old) (W.contents out.old) last (R.waiting source.new) (W.contents out.new)) }
{
    let Ok(ran) = draw(sheet, store, fuel, source, lists) else {
        return Err(io::Error::other("the draw is refused"));
    };
    put_end(ran.ended, sheet.field_count(), lists.mark, line, out)?;
    Ok(is_last(ran))
}

// Whether no other draw follows: the numbers ran out, or a draw without a choice would be repeated without end.
fn is_last(ran: Ran<Option<Ended>>) -> bool
    ensures { result ≡ is_last ran.ended ran.length }
{
    ran.ended.is_none() || ran.length == 0
}

// Writes the line of a draw with this end; a mark stands at the front of the mark list.
fn put_end<W: Write>(
    ended: Option<Ended>,
    fields: usize,
    mark: &[u16],
    line: &mut [u8],
    out: &mut W,
) -> io::Result<()>
    ensures { OnOk result (Appends (W.contents out.old) (W.contents out.new)
        (drawn_text (drawn_of ended fields mark.now))) }
{
    match ended {
        Some(Ended::Mark) => put_mark(fields, mark, line, out),
        Some(Ended::DeadEnd) => put_text(b"dead end\n", line, out),
        Some(Ended::Spent) => put_text(b"spent\n", line, out),
        None => put_text(b"dry\n", line, out),
    }
}

// Writes the line of the mark at the front of the mark list.
fn put_mark<W: Write>(fields: usize, mark: &[u16], line: &mut [u8], out: &mut W) -> io::Result<()>
    ensures { OnOk result (Appends (W.contents out.old) (W.contents out.new)
        (mark_text (take fields mark.now))) }
{
    let mark = mark
        .get(..fields)
        .ok_or_else(|| io::Error::other("the mark list is too short"))?;
    put(lines::mark_line(mark, line), line, out)
}

// Writes a line that has this text alone.
fn put_text<W: Write>(text: &[u8], line: &mut [u8], out: &mut W) -> io::Result<()>
    ensures { OnOk result (Appends (W.contents out.old) (W.contents out.new) text.now) }
{
    put(lines::write(&[Text(text)], line), line, out)
}
