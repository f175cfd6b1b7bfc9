// The first line of a case: what is asked, and the numbers that go with it.
use crate::case::not_in_form;
use std::alloc::Global;
use std::io;
use std::str::{FromStr, Split};
use withheld::pair::Pair;

// What is asked of a sheet.
#[derive(PartialEq, Eq, Debug, Drop)]
pub(crate) enum Kind {
    Read,
    Check { fuel: u8, mark: Vec<u16> },
    Walk { fuel: u8 },
    Register { fuel: u8, register: Vec<u16> },
    Withheld { fuel: u8, pairs: Vec<Pair> },
    Draws { seed: u64, count: u64, fuel: u8 },
    Tape { fuel: u8, tape: Vec<u32> },
}

impl Kind {
    // Reads the words of a first line.
    pub(crate) fn read(heap: Global, line: &[u8]) -> io::Result<Kind> {
        let line = str::from_utf8(line).map_err(|_| not_in_form())?;
        let mut words = line.split(' ');
        let name = words.next().unwrap_or("");
        match name {
            "read" => Kind::read_alone(words),
            "draws" => Kind::read_draws(words),
            _ => {
                let fuel = number(words.next())?;
                Kind::read_fuelled(heap, name, fuel, words)
            }
        }
    }

    // What begins with a fuel.
    fn read_fuelled(
        heap: Global,
        name: &str,
        fuel: u8,
        words: Split<'_, char>,
    ) -> io::Result<Kind> {
        match name {
            "check" => Ok(Kind::Check {
                fuel,
                mark: numbers(heap, words)?,
            }),
            "walk" => {
                end(words)?;
                Ok(Kind::Walk { fuel })
            }
            "register" => Ok(Kind::Register {
                fuel,
                register: numbers(heap, words)?,
            }),
            "withheld" => Ok(Kind::Withheld {
                fuel,
                pairs: pairs(heap, words)?,
            }),
            "tape" => Ok(Kind::Tape {
                fuel,
                tape: numbers(heap, words)?,
            }),
            _ => Err(not_in_form()),
        }
    }

    // `read`, which takes no numbers.
    fn read_alone(words: Split<'_, char>) -> io::Result<Kind> {
        end(words)?;
        Ok(Kind::Read)
    }

    // A seed, a count and a fuel.
    fn read_draws(mut words: Split<'_, char>) -> io::Result<Kind> {
        let seed = number(words.next())?;
        let count = number(words.next())?;
        let fuel = number(words.next())?;
        end(words)?;
        Ok(Kind::Draws { seed, count, fuel })
    }
}

// A word that is a number.
fn number<N: FromStr>(word: Option<&str>) -> io::Result<N>
where
    N::Err: Drop,
{
    word.and_then(|word| word.parse().ok())
        .ok_or_else(not_in_form)
}

// The words that are left, which are all numbers.
fn numbers<N: FromStr + Drop>(heap: Global, words: Split<'_, char>) -> io::Result<Vec<N>>
where
    N::Err: Drop,
{
    let mut numbers = Vec::new(heap);
    for word in words {
        numbers.push(number(Some(word))?)?;
    }
    Ok(numbers)
}

// The words that are left, which are pairs of a field and a number.
fn pairs(heap: Global, words: Split<'_, char>) -> io::Result<Vec<Pair>> {
    let numbers: Vec<u16> = numbers(heap, words)?;
    let mut pairs = Vec::new(heap);
    for pair in numbers.chunks(2) {
        let [field, number] = pair else {
            return Err(not_in_form());
        };
        pairs.push(Pair {
            field: usize::from(*field),
            number: *number,
        })?;
    }
    Ok(pairs)
}

// That no word is left.
fn end(mut words: Split<'_, char>) -> io::Result<()> {
    match words.next() {
        Some(_) => Err(not_in_form()),
        None => Ok(()),
    }
}
