// What a case comes to, compared with what is expected of it.
use crate::case::Case;
use crate::expected::{Expected, ROOM};
use crate::header::Kind;
use crate::runs;
use names::Contents;
use reading::{Reading, Verdict};
use refusal::Refusal;
use register::RegisterStore;
use run::lists::Lists;
use sheet::table::Sheet;
use source::seeded::Seeded;
use source::tape::Tape;
use std::alloc::Global;
use std::io;
use store::open::OpenStore;
use withheld::layer::Withheld;
use withheld::pair::Pair;

// Runs a case, and answers the first line that differs.
pub(crate) fn first_difference(
    heap: Global,
    case: Case<'_>,
    lists: &mut Lists<'_>,
) -> io::Result<Option<u64>> {
    let kind = Kind::read(heap, case.header)?;
    let mut expected = Expected::new(case.expected);
    let mut sheet = Sheet::blank();
    match names::read(case.text, &mut sheet) {
        Ok(contents) => compare(&kind, contents, &sheet, lists, &mut expected)?,
        Err(fault) => {
            let mut line = [0u8; ROOM];
            expected.compare(lines::fault_line(fault, &mut line), &line)?;
        }
    }
    Ok(expected.first_difference())
}

// What is asked of a sheet.
fn compare(
    kind: &Kind,
    contents: Contents,
    sheet: &Sheet,
    lists: &mut Lists<'_>,
    expected: &mut Expected<'_>,
) -> io::Result<()> {
    match kind {
        Kind::Read => compare_contents(contents, expected),
        Kind::Check { fuel, mark } => compare_check(sheet, mark, *fuel, expected),
        Kind::Walk { fuel } => {
            let mut store = OpenStore::new(sheet);
            runs::walk(sheet, &mut store, *fuel, lists, expected)
        }
        Kind::Register { fuel, register } => {
            let mut store = RegisterStore::new(sheet, register);
            runs::walk(sheet, &mut store, *fuel, lists, expected)
        }
        Kind::Withheld { fuel, pairs } => {
            let mut store = Withheld::new(OpenStore::new(sheet));
            withhold(&mut store, pairs, expected)?;
            runs::walk(sheet, &mut store, *fuel, lists, expected)
        }
        Kind::Draws { seed, count, fuel } => match Seeded::new(*seed, *count) {
            Ok(mut source) => runs::draws(sheet, *fuel, &mut source, lists, expected),
            Err(refusal) => compare_refused(refusal, expected),
        },
        Kind::Tape { fuel, tape } => {
            let mut source = Tape::new(tape);
            runs::draws(sheet, *fuel, &mut source, lists, expected)
        }
    }
}

// What the sheet has.
fn compare_contents(contents: Contents, expected: &mut Expected<'_>) -> io::Result<()> {
    let mut line = [0u8; ROOM];
    let made = lines::contents_line(
        contents.fields,
        contents.rules,
        contents.formulas,
        &mut line,
    );
    expected.compare(made, &line)
}

// The number of a refusal.
fn compare_refused(refusal: Refusal, expected: &mut Expected<'_>) -> io::Result<()> {
    let mut line = [0u8; ROOM];
    expected.compare(lines::refused_line(refusal, &mut line), &line)
}

// The plain reading of a mark.
fn compare_check(
    sheet: &Sheet,
    mark: &[u16],
    fuel: u8,
    expected: &mut Expected<'_>,
) -> io::Result<()> {
    match reading::check(sheet, mark, fuel) {
        Ok(read) => {
            let mut line = [0u8; ROOM];
            expected.compare(reading_line(read, &mut line), &line)
        }
        Err(refusal) => compare_refused(refusal, expected),
    }
}

// Makes the line of a reading.
fn reading_line(read: Reading, line: &mut [u8]) -> Result<usize, Refusal> {
    let calls = u64::from(read.calls);
    match read.verdict {
        Verdict::Allowed => lines::allowed_line(calls, line),
        Verdict::NotAllowed => lines::not_allowed_line(calls, line),
        Verdict::Spent => lines::spent_line(calls, line),
    }
}

// Withholds the pairs, with a line for each that is refused.
fn withhold(
    store: &mut Withheld<OpenStore>,
    pairs: &[Pair],
    expected: &mut Expected<'_>,
) -> io::Result<()> {
    for pair in pairs {
        if let Err(refusal) = store.withhold(pair.field, pair.number) {
            compare_refused(refusal, expected)?;
        }
    }
    Ok(())
}
