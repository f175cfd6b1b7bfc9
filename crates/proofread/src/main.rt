// Proofreads a sheet from standard input: prints what it has, or where its text goes wrong and what would be right.
#![tactic(auto)]

use advice::Spot;
use advice::kind::Kind;
use refusal::{Fault, Refusal};
use sheet::table::Sheet;
use std::io::{BufWriter, Write};
use std::{env, io};
use streams::{TEXT_ROOM, put};

// Room for every line, of which the longest is a mark under the end of a text, and for a text with one token more.
const ROOM: usize = TEXT_ROOM + 8;

fn main(rt: HostRuntime) -> io::Result<()> {
    if env::args(&rt)?.nth(1).is_some() {
        eprintln!(rt; "usage: proofread  < SHEET")?;
        return Err(io::Error::other("it takes no arguments"));
    }
    let mut text = vec![in rt.alloc(); 0u8; TEXT_ROOM]?;
    let size = streams::fill(&mut rt.stdin(), &mut text)?;
    text.truncate(size);
    let mut line = vec![in rt.alloc(); 0u8; ROOM]?;
    let mut out = BufWriter::new(rt.alloc(), rt.stdout())?;
    let mut sheet = Sheet::blank();
    match names::read(&text, &mut sheet) {
        Ok(found) => {
            let made = lines::contents_line(found.fields, found.rules, found.formulas, &mut line);
            put(made, &line, &mut out)?;
        }
        Err(fault) => {
            explain(&text, fault, &mut line, &mut out)?;
            if let Refusal::TokenNotPermitted = fault.refusal {
                let before = text.get(..fault.place).unwrap_or(&text);
                let mut trial = vec![in rt.alloc(); 0u8; ROOM]?;
                put_permitted(before, &mut trial, &mut line, &mut out)?;
            }
        }
    }
    out.flush()
}

// The fault, its place in the text, and advice.
fn explain<W: Write>(text: &[u8], fault: Fault, line: &mut [u8], out: &mut W) -> io::Result<()> {
    let place = fault.place;
    let spot = Spot { text, place };
    put(lines::fault_line(fault, line), line, out)?;
    put(spot.position_line(line), line, out)?;
    put(spot.shown_line(line), line, out)?;
    put(spot.marker_line(line), line, out)?;
    put(advice::advice_line(fault.refusal, line), line, out)
}

// A line for each kind of token that may stand after these bytes, and one where the text may end there.
fn put_permitted<W: Write>(
    before: &[u8],
    trial: &mut [u8],
    line: &mut [u8],
    out: &mut W,
) -> io::Result<()> {
    for kind in Kind::all() {
        if advice::permitted::may_stand(before, kind, trial) == Ok(true) {
            put(advice::kind_line(kind, line), line, out)?;
        }
    }
    if advice::whole::is_whole(before) {
        put(advice::end_line(line), line, out)?;
    }
    Ok(())
}
