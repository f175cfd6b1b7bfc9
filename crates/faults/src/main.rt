// Reads many sheets from standard input, each ended by a line `@`, and prints what each has, or its fault.
#![tactic(auto)]

use refusal::Refusal;
use sheet::table::Sheet;
use std::io::{BufWriter, Write};
use std::{env, io};
use streams::put;

// How much standard input is read.
const ROOM: usize = 262144;

fn main(rt: HostRuntime) -> io::Result<()> {
    if env::args(&rt)?.nth(1).is_some() {
        eprintln!(rt; "usage: faults  < SHEETS")?;
        return Err(io::Error::other("it takes no arguments"));
    }
    let mut input = vec![in rt.alloc(); 0u8; ROOM]?;
    let size = streams::fill(&mut rt.stdin(), &mut input)?;
    input.truncate(size);
    let mut out = BufWriter::new(rt.alloc(), rt.stdout())?;
    tell_all(&input, &mut out)?;
    out.flush()
}

// A line for each sheet. The byte after an `@` ends its line. No `split`: what follows the last `@` is no sheet, and
// the byte after each belongs to none.
fn tell_all<W: Write>(sheets: &[u8], out: &mut W) -> io::Result<()> {
    let mut rest = sheets;
    while let Some(end) = rest.iter().position(|byte| *byte == b'@') {
        put_told(&rest[..end], out)?;
        rest = rest.get(end + 2..).unwrap_or(&[]);
    }
    Ok(())
}

// Writes the line of one sheet.
fn put_told<W: Write>(text: &[u8], out: &mut W) -> io::Result<()> {
    let mut line = [0u8; 128];
    put(tell(text, &mut line), &line, out)
}

// Makes the line of one sheet's contents, or of its fault.
fn tell(text: &[u8], line: &mut [u8]) -> Result<usize, Refusal> {
    let mut sheet = Sheet::blank();
    match names::read(text, &mut sheet) {
        Ok(found) => lines::contents_line(found.fields, found.rules, found.formulas, line),
        Err(fault) => lines::fault_line(fault, line),
    }
}
