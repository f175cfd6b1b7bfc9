// Runs the cases from standard input, as docs/CONFORMANCE.md describes them, and tells which of them disagree.
#![tactic(auto)]

mod answer;
mod case;
mod expected;
mod header;
mod runs;

use case::Case;
use run::goal::{Frame, Goal};
use run::lists::Lists;
use std::alloc::Global;
use std::io::{BufWriter, Write};
use std::{env, io};
use walk::MOST_ENTRIES;

// Room for the cases, and one byte more, enough to see that there are too many.
const ROOM: usize = 1048577;

// How long the lists are that it needs beside those of `MOST_ENTRIES`: of frames and of fields.
const FRAMES: usize = 256;

const FIELDS: usize = 8;

fn main(rt: HostRuntime) -> io::Result<()> {
    if env::args(&rt)?.nth(1).is_some() {
        eprintln!(rt; "usage: conform  < CASES")?;
        return Err(io::Error::other("it takes no arguments"));
    }
    let mut input = vec![in rt.alloc(); 0u8; ROOM]?;
    let size = streams::fill(&mut rt.stdin(), &mut input)?;
    if size == ROOM {
        return Err(io::Error::other("more than 1 MiB of cases"));
    }
    input.truncate(size);
    let mut out = BufWriter::new(rt.alloc(), rt.stdout())?;
    let told = tell_all(rt.alloc(), &input, &mut out);
    out.flush()?;
    told
}

// Makes the lists that are lent to every run, and tells the cases.
fn tell_all<W: Write>(heap: Global, input: &[u8], out: &mut W) -> io::Result<()> {
    let mut picks = vec![in heap; 0u16; MOST_ENTRIES]?;
    let mut widths = vec![in heap; 0u16; MOST_ENTRIES]?;
    let mut goals = vec![in heap; Goal::NONE; MOST_ENTRIES]?;
    let mut frames = vec![in heap; Frame::NONE; FRAMES]?;
    let mut mark = vec![in heap; 0u16; FIELDS]?;
    let mut lists = Lists {
        picks: &mut picks,
        widths: &mut widths,
        goals: &mut goals,
        frames: &mut frames,
        mark: &mut mark,
    };
    tell(heap, input, &mut lists, out)
}

// A line for each case that disagrees, and how many agree.
fn tell<W: Write>(
    heap: Global,
    input: &[u8],
    lists: &mut Lists<'_>,
    out: &mut W,
) -> io::Result<()> {
    let mut rest = input;
    let mut agreed = 0u64;
    // Counted, and no `while`: each case is shorter than the rest, which the proof would have to be told.
    for before in 0..u64::MAX {
        if rest.is_empty() {
            return writeln!(out, "{agreed} of {before} cases agree");
        }
        let (case, after) = Case::cut(rest).ok_or_else(case::not_in_form)?;
        let number = before + 1;
        match answer::first_difference(heap, case, lists)? {
            Some(line) => writeln!(out, "case {number} line {line}")?,
            None => agreed += 1,
        }
        rest = after;
    }
    Err(io::Error::other("too many cases"))
}
