// The token that comes next in a text.
ghost use Rattle.std.specs.Prelude.{◌≡◌, ◌≤◌, true, false, length, slice_index};
ghost use Rattle.signs.specs.Bytes.{letter, digit, value, Only};
ghost use Rattle.signs.specs.Tokens.{sign_bytes};
ghost use Rattle.signs.specs.Answers.{Follows};
ghost use Rattle.signs.specs.Scanning.{BeginsSolid, Leads, LongestSign};

use crate::byte::Class;
use crate::token::{Placed, Sign, Token};
use formula::Comparison;
use refusal::{Fault, Refusal};

// The token that comes next in the text from `from` on, or none where only blanks are left.
pub fn next<'a>(text: &'a [u8], from: usize) -> Result<Option<Placed<'a>>, Fault>
    ensures { Follows text.now from result }
{
    if from >= text.len() {
        return Ok(None);
    }
    let place = from + Class::Blank.front(&text[from..]);
    if place >= text.len() {
        return Ok(None);
    }
    let Leading { token, size } = first_token(&text[place..]).map_err(|refusal| refusal.at(place))?;
    let end = place + size;
    Ok(Some(Placed { token, place, end }))
}

// The token that some bytes begin with, and how many of them spell it.
#[derive(Clone, Copy, PartialEq, Eq, Debug)]
struct Leading<'a> {
    token: Token<'a>,
    size: usize,
}

// The token that the bytes begin with, where no blank is first.
fn first_token<'a>(bytes: &'a [u8]) -> Result<Leading<'a>, Refusal>
    requires { BeginsSolid bytes.now }
    ensures { Leads bytes.now result }
{
    let first = bytes[0];
    if Class::Letter.has(first) {
        word(bytes)
    } else if Class::Digit.has(first) {
        number(bytes)
    } else {
        sign(bytes)
    }
}

// Not one function with `number`: that would take the class, the limit and the making of the token as parameters,
// and a number has a second limit, on its value.
fn word<'a>(bytes: &'a [u8]) -> Result<Leading<'a>, Refusal>
    requires { letter (slice_index bytes.now 0) ≡ true }
    ensures { Leads bytes.now result }
{
    let size = Class::Alphanumeric.front(bytes);
    if size > 16 {
        return Err(Refusal::OverLimit);
    }
    let token = Token::Word(&bytes[..size]);
    Ok(Leading { token, size })
}

fn number<'a>(bytes: &'a [u8]) -> Result<Leading<'a>, Refusal>
    requires { digit (slice_index bytes.now 0) ≡ true }
    ensures { Leads bytes.now result }
{
    let size = Class::Digit.front(bytes);
    if size > 4 {
        return Err(Refusal::OverLimit);
    }
    let value = decimal(&bytes[..size]);
    if value > 1023 {
        return Err(Refusal::OverLimit);
    }
    let token = Token::Number(value);
    Ok(Leading { token, size })
}

// The number that the digits write. A loop and no fold: that a step fits 16 bits rests on how many digits came
// before, which the closure of a fold does not see.
fn decimal(digits: &[u8]) -> u16
    requires digits { Only digit digits.now }
    requires few { length digits.now ≤ 4 }
    ensures { result ≡ value digits.now }
{
    let mut number: u16 = 0;
    for byte in digits {
        number = number * 10 + u16::from(*byte - b'0');
    }
    number
}

fn sign<'a>(bytes: &'a [u8]) -> Result<Leading<'a>, Refusal>
    requires solid { BeginsSolid bytes.now }
    requires wordless { letter (slice_index bytes.now 0) ≡ false }
    requires numberless { digit (slice_index bytes.now 0) ≡ false }
    ensures { Leads bytes.now result }
{
    let sign = longest_sign(bytes).ok_or(Refusal::ByteNotPermitted)?;
    let size = sign.size();
    let token = Token::Sign(sign);
    Ok(Leading { token, size })
}

// The longest sign that the bytes begin with, or none.
fn longest_sign(bytes: &[u8]) -> Option<Sign>
    ensures { LongestSign bytes.now result }
{
    Some(match bytes {
        [b'/', b'=', ..] => Sign::Compare(Comparison::Differ),
        [b'<', b'=', ..] => Sign::Compare(Comparison::AtMost),
        [b'>', b'=', ..] => Sign::Compare(Comparison::AtLeast),
        [b'=', ..] => Sign::Compare(Comparison::Equal),
        [b'<', ..] => Sign::Compare(Comparison::Less),
        [b'>', ..] => Sign::Compare(Comparison::More),
        [b'(', ..] => Sign::Open,
        [b')', ..] => Sign::Close,
        [b',', ..] => Sign::Comma,
        [b';', ..] => Sign::Semicolon,
        [b':', ..] => Sign::Colon,
        [b'+', ..] => Sign::Plus,
        [b'-', ..] => Sign::Minus,
        _ => return None,
    })
}

impl Sign {
    // How many bytes spell the sign.
    fn size(self) -> usize
        ensures { result ≡ length (sign_bytes self) }
    {
        match self {
            Sign::Compare(Comparison::Differ | Comparison::AtMost | Comparison::AtLeast) => 2,
            _ => 1,
        }
    }
}
