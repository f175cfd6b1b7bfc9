// The input cut into cases.
use std::io;

// A case as it stands in the input: its first line, the text of its sheet, and the lines that are expected.
#[derive(Clone, Copy, PartialEq, Eq, Debug)]
pub(crate) struct Case<'a> {
    pub(crate) header: &'a [u8],
    pub(crate) text: &'a [u8],
    pub(crate) expected: &'a [u8],
}

impl<'a> Case<'a> {
    // Cuts the first case off; none where it is not in the form.
    pub(crate) fn cut(input: &'a [u8]) -> Option<(Case<'a>, &'a [u8])> {
        let (header, rest) = cut_at(input, b'\n')?;
        let (text, rest) = cut_part(rest)?;
        let (expected, rest) = cut_part(rest)?;
        if is_lines(expected) {
            let case = Case {
                header,
                text,
                expected,
            };
            Some((case, rest))
        } else {
            None
        }
    }
}

// The error of an input that is not in the form.
pub(crate) fn not_in_form() -> io::Error {
    io::Error::other("a case is not in the form")
}

// The bytes up to the first of that kind, and those after it.
fn cut_at(bytes: &[u8], end: u8) -> Option<(&[u8], &[u8])> {
    let at = bytes.iter().position(|byte| *byte == end)?;
    let (front, rest) = bytes.split_at(at);
    let (_, rest) = rest.split_first()?;
    Some((front, rest))
}

// The bytes up to the next `@`, and those after the line feed that follows it.
fn cut_part(bytes: &[u8]) -> Option<(&[u8], &[u8])> {
    let (front, rest) = cut_at(bytes, b'@')?;
    match rest.split_first() {
        Some((b'\n', rest)) => Some((front, rest)),
        _ => None,
    }
}

// Whether they are whole lines.
fn is_lines(bytes: &[u8]) -> bool {
    match bytes.last() {
        Some(last) => *last == b'\n',
        None => true,
    }
}
