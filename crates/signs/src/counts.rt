// How many words, numbers and signs a text has.
ghost use Rattle.std.specs.Prelude.{◌+◌, ◌<◌};
ghost use Rattle.signs.specs.Answers.{spelt, Surveyed};
ghost use Rattle.signs.specs.Laws.{OneVerdict, PutTogether};
ghost use Rattle.signs.specs.Scanning.{OneMore};

use crate::cut::next;
use crate::token::Token;
use refusal::{Fault, Refusal};

#[derive(Clone, Copy, PartialEq, Eq, Debug, Default)]
pub struct TokenCounts {
    pub words: u64,
    pub numbers: u64,
    pub signs: u64,
}

impl TokenCounts {
    // One token more.
    fn count(&mut self, token: Token)
        requires { self.old.words + self.old.numbers + self.old.signs < 32768 }
        ensures { OneMore (spelt token.entry) self.old self.new }
    {
        match token {
            Token::Word(_) => self.words += 1,
            Token::Number(_) => self.numbers += 1,
            Token::Sign(_) => self.signs += 1,
        }
    }
}

// The most bytes that a text has.
const LONGEST_TEXT: usize = 32768;

// The counts of the text's tokens, or the first refusal of the text.
pub fn survey(text: &[u8]) -> Result<TokenCounts, Fault>
    ensures found { Surveyed text.now result }
    ensures one_verdict { OneVerdict text.now }
    ensures put_together { PutTogether text.now }
{
    if text.len() > LONGEST_TEXT {
        return Err(Refusal::TextTooLong.at(LONGEST_TEXT));
    }
    let mut found = TokenCounts::default();
    let mut at = 0;
    'tokens: while let Some(next) = next(text, at)? {
        found.count(next.token);
        at = next.end;
    }
    Ok(found)
}
