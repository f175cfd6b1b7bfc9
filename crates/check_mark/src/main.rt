// Checks one mark against a sheet from standard input: `check_mark FUEL NUMBER ..` prints the plain reading's answer.
#![tactic(auto)]

use reading::{Reading, Verdict};
use refusal::Refusal;
use sheet::table::Sheet;
use std::io::{BufWriter, Write};
use std::{env, io};
use streams::{TEXT_ROOM, put};

// What the arguments ask for.
#[derive(PartialEq, Eq, Debug, Drop)]
struct Asked {
    fuel: u8,
    mark: Vec<u16>,
}

fn main(rt: HostRuntime) -> io::Result<()> {
    let Some(asked) = arguments(&rt)? else {
        eprintln!(rt; "usage: check_mark FUEL NUMBER ..  < SHEET")?;
        return Err(io::Error::other("no fuel, or a word that is no number"));
    };
    let mut text = vec![in rt.alloc(); 0u8; TEXT_ROOM]?;
    let size = streams::fill(&mut rt.stdin(), &mut text)?;
    text.truncate(size);
    let mut line = [0u8; 64];
    let mut sheet = Sheet::blank();
    let made = match names::read(&text, &mut sheet) {
        Ok(_) => told(reading::check(&sheet, &asked.mark, asked.fuel), &mut line),
        Err(fault) => lines::fault_line(fault, &mut line),
    };
    let mut out = BufWriter::new(rt.alloc(), rt.stdout())?;
    put(made, &line, &mut out)?;
    out.flush()
}

// The arguments: a fuel, and then the mark's numbers; none where a word is no number, which is told apart from
// arguments that cannot be read.
fn arguments(rt: &HostRuntime) -> io::Result<Option<Asked>> {
    let mut words = env::args(rt)?.skip(1);
    let Some(fuel) = words.next().and_then(|word| word.as_str().parse().ok()) else {
        return Ok(None);
    };
    let mut mark = Vec::new(rt.alloc());
    for word in words {
        let Ok(number) = word.as_str().parse() else {
            return Ok(None);
        };
        mark.push(number)?;
    }
    Ok(Some(Asked { fuel, mark }))
}

// Makes the line of an answer.
fn told(answer: Result<Reading, Refusal>, line: &mut [u8]) -> Result<usize, Refusal> {
    match answer {
        Ok(read) => {
            let calls = u64::from(read.calls);
            match read.verdict {
                Verdict::Allowed => lines::allowed_line(calls, line),
                Verdict::NotAllowed => lines::not_allowed_line(calls, line),
                Verdict::Spent => lines::spent_line(calls, line),
            }
        }
        Err(refusal) => lines::refused_line(refusal, line),
    }
}
