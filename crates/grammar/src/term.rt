// A term: a number, or a name that a number may move.
ghost use Rattle.std.specs.Prelude.{◌≤◌, length};
ghost use Rattle.grammar.specs.Parsing.{Takes, TermRead, SumRead, ShiftedRead};

use crate::cursor::Cursor;
use crate::table::{Term, Word};
use crate::token::Class;
use formula::term::Shift;
use refusal::Fault;

impl Cursor<'_> {
    // The term that stands there.
    pub(crate) fn term(&mut self) -> Result<Term, Fault>
        ensures { Takes self.old self.new result TermRead }
    {
        let ahead = self.peek();
        match ahead.class {
            Class::Number(value) => {
                self.at = ahead.end;
                Ok(Term::Number(value))
            }
            Class::Name(word) => {
                self.at = ahead.end;
                self.sum(word)
            }
            _ => Err(ahead.not_permitted()),
        }
    }

    // The term whose name is `word`: with the `+` or `-` and the number that follow it, if they do.
    pub(crate) fn sum(&mut self, word: Word) -> Result<Term, Fault>
        ensures { Takes self.old self.new result (λ text p r. SumRead text p word r) }
    {
        let ahead = self.peek();
        match ahead.class {
            Class::Plus => self.shifted(word, ahead.end, Shift::Up),
            Class::Minus => self.shifted(word, ahead.end, Shift::Down),
            _ => Ok(Term::Bare(word)),
        }
    }

    // The term whose name is `word`, with the number at `from`, which `shift` adds or takes away.
    fn shifted<F: FnOnce(u16) -> Shift>(
        &mut self,
        word: Word,
        from: usize,
        shift: F,
    ) -> Result<Term, Fault>
        requires callable { F.IsAlwaysCallable shift }
        requires inside { from ≤ length self.old.text.now }
        ensures { Takes self.old self.new result (λ text p r. ShiftedRead (F.post shift) text from word r) }
    {
        self.at = from;
        let number = self.number()?;
        Ok(Term::Moved(word, shift(number.value)))
    }
}
