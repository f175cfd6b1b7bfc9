// The walks and the draws of a case, over any store and any source: a line for each run, with its trace.
use crate::expected::{Expected, ROOM};
use lines::Piece;
use lines::Piece::{Number, Numbers, Text};
use run::answer::{Ended, Ran};
use run::draw::draw;
use run::lists::Lists;
use sheet::table::Sheet;
use source::Source;
use std::io;
use store::Store;
use store::open::OpenStore;
use walk::answer::Answer;

// A walk to its end, and its closing line.
pub(crate) fn walk<S: Store>(
    sheet: &Sheet,
    store: &mut S,
    fuel: u8,
    lists: &mut Lists<'_>,
    expected: &mut Expected<'_>,
) -> io::Result<()> {
    let mut walk = walk::start(fuel);
    // Counted, since what a walk answers does not tell the proof that it ends.
    for _ in 0..u64::MAX {
        let ended = match walk.next(sheet, store, lists) {
            Ok(Answer::Mark) => Ended::Mark,
            Ok(Answer::DeadEnd) => Ended::DeadEnd,
            Ok(Answer::Spent) => Ended::Spent,
            Ok(Answer::Finished) => break,
            Err(_) => return Err(io::Error::other("a walk is refused")),
        };
        let ran = Ran {
            ended: Some(ended),
            length: walk.trace_length(),
        };
        compare_run(ran, sheet.field_count(), lists, expected)?;
    }
    let tallies = walk.tally();
    let mut line = [0u8; ROOM];
    let made = lines::closing_line(tallies.issued, tallies.dead, tallies.spent, &mut line);
    expected.compare(made, &line)
}

// Draws over the open store from one source, until one is dry or has an empty trace.
pub(crate) fn draws<R: Source>(
    sheet: &Sheet,
    fuel: u8,
    source: &mut R,
    lists: &mut Lists<'_>,
    expected: &mut Expected<'_>,
) -> io::Result<()> {
    let mut store = OpenStore::new(sheet);
    // Counted, since how many numbers wait is not told.
    for _ in 0..u64::MAX {
        let ran = draw(sheet, &mut store, fuel, source, lists).map_err(|_| io::Error::other(
            "a draw is refused",
        ))?;
        compare_run(ran, sheet.field_count(), lists, expected)?;
        if ran.ended.is_none() || ran.length == 0 {
            break;
        }
    }
    Ok(())
}

// Compares a run's line: its end, and each entry of its trace. It goes in pieces, since a trace may be long.
fn compare_run(
    ran: Ran<Option<Ended>>,
    fields: usize,
    lists: &Lists<'_>,
    expected: &mut Expected<'_>,
) -> io::Result<()> {
    let mark = lists.mark.get(..fields).unwrap_or(&[]);
    expected.compare_pieces(&[end_piece(ran.ended, mark)])?;
    for (pick, width) in lists.picks.iter().zip(lists.widths.iter()).take(ran.length) {
        let entry = [
            Text(b" "),
            Number(u64::from(*pick)),
            Text(b":"),
            Number(u64::from(*width)),
        ];
        expected.compare_pieces(&entry)?;
    }
    expected.compare_pieces(&[Text(b"\n")])
}

// How a run ended; none is a draw whose numbers ran out.
fn end_piece(ended: Option<Ended>, mark: &[u16]) -> Piece<'_> {
    match ended {
        Some(Ended::Mark) => Numbers(mark),
        Some(Ended::DeadEnd) => Text(b"dead end"),
        Some(Ended::Spent) => Text(b"spent"),
        None => Text(b"dry"),
    }
}
