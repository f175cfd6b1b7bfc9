// Lists in brackets: the terms of a call, and the parameters of a rule.
ghost use Rattle.std.specs.Prelude.{ℕ, List};
ghost use Rattle.grammar.specs.Grammar.{Tokens};
ghost use Rattle.grammar.specs.Parsing.{Takes, Listing, Brackets, ItemRead, ItemsRead};
ghost use Rattle.grammar.specs.Parsing.{term_listing, name_listing, TermAt, NameAt};
ghost use Rattle.grammar.specs.Listings.{term_brackets, name_brackets};

use crate::cursor::Cursor;
use crate::few::Few;
use crate::table::{Term, Word};
use crate::token::Class;
use refusal::Fault;

// What a list is of.
pub(crate) trait Item: Copy {
    // the states before a list of it, after one, and where one is due; and what one is
    ghost listing: { Listing };

    ghost is_item: { List ℕ → Tokens → Tokens → Self → Type 0 };

    // what stands where no item is kept
    const BLANK: Self;

    fn take(cursor: &mut Cursor<'_>) -> Result<Self, Fault>
        ensures { Takes cursor.old cursor.new result (ItemRead listing is_item) };

    ghost brackets: { Brackets listing };
}

impl Item for Term {
    ghost listing = { term_listing };

    ghost is_item = { TermAt };

    ghost brackets = { term_brackets };

    const BLANK: Term = Term::Number(0);

    fn take(cursor: &mut Cursor<'_>) -> Result<Term, Fault> {
        cursor.term()
    }
}

impl Item for Word {
    ghost listing = { name_listing };

    ghost is_item = { NameAt };

    ghost brackets = { name_brackets };

    const BLANK: Word = Word {
        place: 0,
        length: 0,
    };

    fn take(cursor: &mut Cursor<'_>) -> Result<Word, Fault> {
        cursor.name()
    }
}

impl Cursor<'_> {
    // The items, parted by commas, and the closing bracket.
    pub(crate) fn list<T: Item>(&mut self) -> Result<Few<T>, Fault>
        ensures { Takes self.old self.new result (ItemsRead T.listing T.is_item) }
    {
        let mut list = Few::new(T::BLANK);
        if self.pass_if(Class::Closing).is_some() {
            return Ok(list);
        }
        loop {
            let item = T::take(self)?;
            list.keep(item);
            let ahead = self.peek();
            match ahead.class {
                Class::Comma => self.at = ahead.end,
                Class::Closing => {
                    self.at = ahead.end;
                    return Ok(list);
                }
                _ => return Err(ahead.not_permitted()),
            }
        }
    }
}
