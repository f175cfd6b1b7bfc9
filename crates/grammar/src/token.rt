// The token ahead, as the grammar sees it.
ghost use Rattle.std.specs.Prelude.{◌≡◌, ◌≤◌, length};
ghost use Rattle.refusal.specs.declared.Refusal.TheVariants.{TokenNotPermitted};
ghost use Rattle.grammar.specs.Parsing.{class_of_word, class_of_sign, name_in, number_in, sign_in};
ghost use Rattle.grammar.specs.Parsing.{Sees, Deeper, Finds, Takes, Passes, PassedIf, Asked, Met};
ghost use Rattle.grammar.specs.Parsing.{NameRead, NumberRead, SignRead};

use crate::cursor::Cursor;
use crate::table::{Number, Word};
use formula::{Comparison, Join};
use refusal::{Fault, Refusal};
use signs::{Sign, Token};

// What a token is to the grammar: seven words are reserved, and every other word is a name.
// Each sign is a case, and no case holds a `Sign`. Tried: with `Class::Sign(Sign::Open)` as a pattern, the proofs of
// the arms that name a sign did not close.
#[derive(Clone, Copy, PartialEq, Eq, Debug)]
pub(crate) enum Class {
    End,
    Name(Word),
    Number(u16),
    Field,
    Rule,
    Mark,
    Not,
    Pick,
    Join(Join),
    Compare(Comparison),
    Opening,
    Closing,
    Comma,
    Semicolon,
    Colon,
    Plus,
    Minus,
}

// The token ahead: its class, its place and the place after it. At the end of the text both are its length.
#[derive(Clone, Copy, PartialEq, Eq, Debug)]
pub(crate) struct Ahead {
    pub(crate) class: Class,
    pub(crate) place: usize,
    pub(crate) end: usize,
}

impl Ahead {
    // The name that it is.
    pub(crate) fn name(self) -> Option<Word>
        ensures { result ≡ name_in self.class }
    {
        match self.class {
            Class::Name(word) => Some(word),
            _ => None,
        }
    }

    // The number that it is.
    pub(crate) fn number(self) -> Option<Number>
        ensures { result ≡ number_in self.class self.place }
    {
        match self.class {
            Class::Number(value) => Some(Number {
                value,
                place: self.place,
            }),
            _ => None,
        }
    }

    // The sign of comparison that it is.
    fn sign(self) -> Option<Comparison>
        ensures { result ≡ sign_in self.class }
    {
        match self.class {
            Class::Compare(sign) => Some(sign),
            _ => None,
        }
    }

    // The fault that this token, or the end of the text, is not permitted here.
    pub(crate) fn not_permitted(self) -> Fault
        ensures { result ≡ record { refusal = TokenNotPermitted; place = self.place } }
    {
        Refusal::TokenNotPermitted.at(self.place)
    }

    // The levels left within the one that this token opens, if `depth` allows one.
    pub(crate) fn deeper(self, depth: u8) -> Result<u8, Fault>
        ensures { Deeper self depth result }
    {
        depth.checked_sub(1).ok_or(Refusal::TooDeep.at(self.place))
    }
}

// The class of a word, by its spelling. No `From`: a name takes its place along, which its bytes do not tell.
fn word_class(word: &[u8], place: usize) -> Class
    ensures { result ≡ class_of_word word.now place }
{
    match word {
        b"field" => Class::Field,
        b"rule" => Class::Rule,
        b"mark" => Class::Mark,
        b"and" => Class::Join(Join::And),
        b"or" => Class::Join(Join::Or),
        b"not" => Class::Not,
        b"pick" => Class::Pick,
        _ => Class::Name(Word {
            place,
            length: word.len(),
        }),
    }
}

impl From<Sign> for Class {
    ghost from_gives = { λ sign class. class ≡ class_of_sign sign };

    fn from(sign: Sign) -> Class {
        match sign {
            Sign::Open => Class::Opening,
            Sign::Close => Class::Closing,
            Sign::Comma => Class::Comma,
            Sign::Semicolon => Class::Semicolon,
            Sign::Colon => Class::Colon,
            Sign::Plus => Class::Plus,
            Sign::Minus => Class::Minus,
            Sign::Compare(comparison) => Class::Compare(comparison),
        }
    }
}

impl Cursor<'_> {
    // The token that comes next.
    pub(crate) fn peek(&self) -> Ahead
        ensures sees { Sees self.now result }
        ensures within { result.end ≤ length self.now.text.now }
    {
        // past a fault there is no token, as past the end of the text
        match signs::next(self.text, self.at).unwrap_or(None) {
            Some(next) => {
                let class = match next.token {
                    Token::Word(word) => word_class(word, next.place),
                    Token::Number(number) => Class::Number(number),
                    Token::Sign(sign) => Class::from(sign),
                };
                Ahead {
                    class,
                    place: next.place,
                    end: next.end,
                }
            }
            None => Ahead {
                class: Class::End,
                place: self.text.len(),
                end: self.text.len(),
            },
        }
    }

    // What is found in the token ahead, which is passed; or the fault that the token is not permitted.
    fn take<T: Drop, F: FnOnce(Ahead) -> Option<T>>(&mut self, find: F) -> Result<T, Fault>
        requires { F.IsAlwaysCallable find }
        ensures { Finds (F.post find) self.old self.new result }
    {
        let ahead = self.peek();
        let value = find(ahead).ok_or(ahead.not_permitted())?;
        self.at = ahead.end;
        Ok(value)
    }

    // Passes the token ahead if it is of the class, and answers its place.
    pub(crate) fn pass_if(&mut self, class: Class) -> Option<usize>
        ensures { PassedIf class self.old self.new result }
    {
        let ahead = self.peek();
        if ahead.class != class {
            return None;
        }
        self.at = ahead.end;
        Some(ahead.place)
    }

    // Passes a token that the grammar asks for by itself, and answers its place. Not by `pass_if` nor by `take`: the
    // one tells no place of a token that it does not pass, and the other asks what is in a token, not which it is.
    pub(crate) fn expect(&mut self, class: Class) -> Result<usize, Fault>
        ensures asked { Passes self.old self.new result (Asked class) }
        ensures met { Met class self.old self.new result }
    {
        let ahead = self.peek();
        if ahead.class != class {
            return Err(ahead.not_permitted());
        }
        self.at = ahead.end;
        Ok(ahead.place)
    }

    // The name that stands there.
    pub(crate) fn name(&mut self) -> Result<Word, Fault>
        ensures { Takes self.old self.new result NameRead }
    {
        self.take(Ahead::name)
    }

    // The number that stands there.
    pub(crate) fn number(&mut self) -> Result<Number, Fault>
        ensures { Takes self.old self.new result NumberRead }
    {
        self.take(Ahead::number)
    }

    // The sign of comparison that stands there.
    pub(crate) fn sign(&mut self) -> Result<Comparison, Fault>
        ensures { Takes self.old self.new result SignRead }
    {
        self.take(Ahead::sign)
    }
}
