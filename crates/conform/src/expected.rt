// The lines that are expected of a case, compared with those that come.
use lines::Piece;
use refusal::Refusal;
use std::io;

// Room for each line and each piece of a line that is made here, of which the closing line is the longest.
pub(crate) const ROOM: usize = 128;

// What is still expected, and the number of its first line, from 1; once something differs, the line at which it does.
#[derive(Clone, Copy, PartialEq, Eq, Debug)]
pub(crate) struct Expected<'a> {
    rest: &'a [u8],
    line: u64,
    differs: bool,
}

impl<'a> Expected<'a> {
    pub(crate) fn new(lines: &'a [u8]) -> Expected<'a> {
        Expected {
            rest: lines,
            line: 1,
            differs: false,
        }
    }

    // The first line that differs; one that is still expected is missing.
    pub(crate) fn first_difference(&self) -> Option<u64> {
        if self.differs || !self.rest.is_empty() {
            Some(self.line)
        } else {
            None
        }
    }

    // Compares a line, or a part of one, that was made at the front of a buffer.
    pub(crate) fn compare(
        &mut self,
        made: Result<usize, Refusal>,
        buffer: &[u8],
    ) -> io::Result<()> {
        let text = made
            .ok()
            .and_then(|length| buffer.get(..length))
            .ok_or_else(|| io::Error::other("a line is longer than its buffer"))?;
        self.compare_text(text);
        Ok(())
    }

    // Compares what the pieces come to, which is a part of a line.
    pub(crate) fn compare_pieces(&mut self, pieces: &[Piece]) -> io::Result<()> {
        let mut buffer = [0u8; ROOM];
        self.compare(lines::write(pieces, &mut buffer), &buffer)
    }

    // Compares bytes in which a line feed stands at most at the end.
    fn compare_text(&mut self, text: &[u8]) {
        if self.differs {
            return;
        }
        match self.rest.strip_prefix(text) {
            Some(rest) => {
                self.rest = rest;
                if text.last() == Some(&b'\n') {
                    self.line = self.line.saturating_add(1);
                }
            }
            None => self.differs = true,
        }
    }
}
