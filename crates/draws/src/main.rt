// Makes practice draws on a sheet from standard input: `draws SEED COUNT FUEL` prints them, a line each, by the first
// COUNT numbers of a seed.
#![tactic(auto)]

mod series;

ghost use Rattle.std.specs.Prelude.{ℕ, List, length, codes, OnOk};
ghost use Rattle.std.specs.Io.KnownBytes.{Appends};
ghost use Rattle.lines.specs.Lines.{one_text};
ghost use Rattle.marks.specs.Sets.{Marks};
ghost use Rattle.sheet.specs.Sheets.{tree_of};
ghost use Rattle.source.specs.Sources.{in_seeded, Usable};
ghost use Rattle.source.specs.Xorshift.{stream};
ghost use Rattle.store.specs.Opens.{HasEvery};
ghost use Rattle.draws.specs.Drawing.{ListedDraws};

use run::goal::{Frame, Goal};
use run::lists::Lists;
use sheet::table::Sheet;
use source::seeded::Seeded;
use std::alloc::Global;
use std::io::{BufWriter, Write};
use std::{env, io};
use store::open::OpenStore;
use streams::{TEXT_ROOM, put};
use walk::MOST_ENTRIES;

// What the arguments ask for.
#[derive(Clone, Copy, PartialEq, Eq, Debug)]
struct Asked {
    seed: u64,
    count: u64,
    fuel: u8,
}

// How long the lists are that it needs beside those of `MOST_ENTRIES`: of frames and of fields.
const FRAMES: usize = 256;

const FIELDS: usize = 8;

// Room for every line of a draw.
const LINE: usize = 128;

fn main(rt: HostRuntime) -> io::Result<()> {
    let Some(asked) = arguments(&rt)? else {
        eprintln!(rt; "usage: draws SEED COUNT FUEL  < SHEET")?;
        return Err(io::Error::other("no seed, count and fuel"));
    };
    let mut text = vec![in rt.alloc(); 0u8; TEXT_ROOM]?;
    let size = streams::fill(&mut rt.stdin(), &mut text)?;
    text.truncate(size);
    let mut line = [0u8; LINE];
    let mut out = BufWriter::new(rt.alloc(), rt.stdout())?;
    let mut sheet = Sheet::blank();
    match names::read(&text, &mut sheet) {
        Ok(_) => put_draws(rt.alloc(), &sheet, asked, &mut line, &mut out)?,
        Err(fault) => put(lines::fault_line(fault, &mut line), &line, &mut out)?,
    }
    out.flush()
}

// The arguments: a seed, a count and a fuel; none where one is missing, is no number, or others follow.
fn arguments(rt: &HostRuntime) -> io::Result<Option<Asked>> {
    let mut words = env::args(rt)?.skip(1);
    let seed = words.next().and_then(|word| word.as_str().parse().ok());
    let count = words.next().and_then(|word| word.as_str().parse().ok());
    let fuel = words.next().and_then(|word| word.as_str().parse().ok());
    if words.next().is_some() {
        return Ok(None);
    }
    match (seed, count, fuel) {
        (Some(seed), Some(count), Some(fuel)) => Ok(Some(Asked { seed, count, fuel })),
        _ => Ok(None),
    }
}

// The draws by the first numbers of the seed, or the refusal of the seed or the count.
fn put_draws<W: Write>(
    heap: Global,
    sheet: &Sheet,
    asked: Asked,
    line: &mut [u8],
    out: &mut W,
) -> io::Result<()>
    ensures drawn { OnOk result (Usable asked.seed asked.count → (S : Marks)
        × HasEvery (length sheet.now.ranges.items) S × (ls : List ℕ)
        × ListedDraws (tree_of sheet.now) asked.fuel S (stream asked.seed asked.count) ls
        (W.contents out.old) (W.contents out.new)) }
    ensures refused { OnOk result ((Usable asked.seed asked.count → ⊥) →
        Appends (W.contents out.old) (W.contents out.new) (one_text (codes "refused ") 18)) }
{
    match Seeded::new(asked.seed, asked.count) {
        Ok(source) => list_draws(heap, sheet, asked.fuel, source, line, out),
        Err(refusal) => put(lines::refused_line(refusal, line), line, out),
    }
}

// Draws from the source over the open store, which has every mark of the sheet's fields.
fn list_draws<W: Write>(
    heap: Global,
    sheet: &Sheet,
    fuel: u8,
    mut source: Seeded,
    line: &mut [u8],
    out: &mut W,
) -> io::Result<()>
    ensures { OnOk result ((S : Marks) × HasEvery (length sheet.now.ranges.items) S × (ls : List ℕ)
        × ListedDraws (tree_of sheet.now) fuel S (in_seeded source) ls (W.contents out.old) (W.contents out.new)) }
{
    let mut store = OpenStore::new(sheet);
    let mut picks = vec![in heap; 0u16; MOST_ENTRIES]?;
    let mut widths = vec![in heap; 0u16; MOST_ENTRIES]?;
    let mut goals = vec![in heap; Goal::NONE; MOST_ENTRIES]?;
    let mut frames = vec![in heap; Frame::NONE; FRAMES]?;
    let mut mark = vec![in heap; 0u16; FIELDS]?;
    let mut lists = Lists {
        picks: &mut picks,
        widths: &mut widths,
        goals: &mut goals,
        frames: &mut frames,
        mark: &mut mark,
    };
    series::list_draws(sheet, &mut store, fuel, &mut source, &mut lists, line, out)
}
