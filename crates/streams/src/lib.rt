// What the programs read and write: an input into a buffer of the caller's, and a line out of one.
#![tactic(auto)]

ghost use Rattle.std.specs.Prelude.{◌≤◌, ◌<◌, length, take, IfOk, IsErr, IsOkAnd, OnOk};
ghost use Rattle.std.specs.Io.KnownBytes.{Appends, Consumes, IsAtEnd, Keeps};

use refusal::Refusal;
use std::io;
use std::io::{Read, Write};

// Room for the text of a sheet: one byte more than it may have, enough to see that it is too long.
pub const TEXT_ROOM: usize = 32769;

const _: () = prove!(TEXT_ROOM == 32768 + 1);

// Fills the buffer from its front until the input ends or the buffer is full, and answers how many bytes came,
// as `Read::read` does: no slice of the buffer, which the caller has already. That the vector is made and cut by each
// program, and not by a call of this crate, is a rule of the project: public calls allocate nothing.
pub fn fill<R: Read>(input: &mut R, buffer: &mut [u8]) -> io::Result<usize>
    ensures room { IfOk result (λ n. n ≤ length buffer.old) }
    ensures bytes { IfOk result (λ n. Consumes (R.remaining input.old) (R.remaining input.new) (take n buffer.new)) }
    ensures end { IfOk result (λ n. n < length buffer.old → IsAtEnd (R.remaining input.new)) }
{
    let mut filled = 0;
    // What a read gives moves the place on, so no iterator counts it.
    while filled < buffer.len() {
        let came = input.read(&mut buffer[filled..])?;
        if came == 0 {
            break;
        }
        filled += came;
    }
    Ok(filled)
}

// Writes a line that was made at the front of a buffer; a line that found no room there is an error.
pub fn put<W: Write>(line: Result<usize, Refusal>, buffer: &[u8], out: &mut W) -> io::Result<()>
    ensures room { OnOk result (IsOkAnd line (λ n. n ≤ length buffer.now)) }
    ensures bytes { OnOk result (IfOk line (λ n. Appends (W.contents out.old) (W.contents out.new)
        (take n buffer.now))) }
    ensures none { IsErr line → Keeps (W.contents out.old) (W.contents out.new) }
{
    let text = line
        .ok()
        .and_then(|length| buffer.get(..length))
        .ok_or_else(|| io::Error::other("a line is longer than its buffer"))?;
    out.write_all(text)
}
