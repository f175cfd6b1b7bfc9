// Lists the marks of a sheet from standard input, in the order of the walk over every mark.
#![tactic(auto)]

mod listing;

ghost use Rattle.std.specs.Prelude.{length, OnOk};
ghost use Rattle.marks.specs.Sets.{Marks};
ghost use Rattle.sheet.specs.Sheets.{tree_of};
ghost use Rattle.store.specs.Opens.{HasEvery};
ghost use Rattle.list.specs.Listings.{Listed};

use run::goal::{Frame, Goal};
use run::lists::Lists;
use sheet::table::Sheet;
use std::alloc::Global;
use std::io::{BufWriter, Write};
use std::{env, io};
use store::open::OpenStore;
use streams::{TEXT_ROOM, put};
use walk::MOST_ENTRIES;

// The fuel of a listing.
const FUEL: u8 = 255;

// How long the lists are that it needs beside those of `MOST_ENTRIES`: of frames and of fields.
const FRAMES: usize = 256;

const FIELDS: usize = 8;

// Room for every line of a listing.
const LINE: usize = 128;

fn main(rt: HostRuntime) -> io::Result<()> {
    if env::args(&rt)?.nth(1).is_some() {
        eprintln!(rt; "usage: list  < SHEET")?;
        return Err(io::Error::other("it takes no arguments"));
    }
    let mut text = vec![in rt.alloc(); 0u8; TEXT_ROOM]?;
    let size = streams::fill(&mut rt.stdin(), &mut text)?;
    text.truncate(size);
    let mut out = BufWriter::new(rt.alloc(), rt.stdout())?;
    let mut sheet = Sheet::blank();
    match names::read(&text, &mut sheet) {
        Ok(_) => list(rt.alloc(), &sheet, &mut out)?,
        Err(fault) => {
            let mut line = [0u8; 64];
            put(lines::fault_line(fault, &mut line), &line, &mut out)?;
        }
    }
    out.flush()
}

// Walks the sheet over the open store, which has every mark of its fields.
fn list<W: Write>(heap: Global, sheet: &Sheet, out: &mut W) -> io::Result<()>
    ensures { OnOk result ((S : Marks) × HasEvery (length sheet.now.ranges.items) S
        × Listed (tree_of sheet.now) 255 S (W.contents out.old) (W.contents out.new)) }
{
    let mut store = OpenStore::new(sheet);
    let mut picks = vec![in heap; 0u16; MOST_ENTRIES]?;
    let mut widths = vec![in heap; 0u16; MOST_ENTRIES]?;
    let mut goals = vec![in heap; Goal::NONE; MOST_ENTRIES]?;
    let mut frames = vec![in heap; Frame::NONE; FRAMES]?;
    let mut mark = vec![in heap; 0u16; FIELDS]?;
    let mut line = vec![in heap; 0u8; LINE]?;
    let mut lists = Lists {
        picks: &mut picks,
        widths: &mut widths,
        goals: &mut goals,
        frames: &mut frames,
        mark: &mut mark,
    };
    listing::list(sheet, &mut store, FUEL, &mut lists, &mut line, out)
}
