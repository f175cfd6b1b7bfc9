// Texts at each limit and one past it, with the line of their tokens or of their fault.
use formula::Comparison;
use signs::{Placed, Sign, Token};
use std::test::Fail;

struct Case<'a> {
    text: &'a [u8],
    line: &'a [u8],
}

const CASES: [Case<'static>; 16] = [
    Case {
        text: b"",
        line: b"words 0 numbers 0 signs 0\n",
    },
    Case {
        text: b" \n ",
        line: b"words 0 numbers 0 signs 0\n",
    },
    Case {
        text: b"field a 0 1;",
        line: b"words 2 numbers 2 signs 1\n",
    },
    Case {
        text: b"a<=b/=c>=1=2<3>4",
        line: b"words 3 numbers 4 signs 6\n",
    },
    Case {
        text: b"a2b 2a",
        line: b"words 2 numbers 1 signs 0\n",
    },
    Case {
        text: b"abcdefghijklmnop",
        line: b"words 1 numbers 0 signs 0\n",
    },
    Case {
        text: b" abcdefghijklmnopq",
        line: b"fault 1 3 1\n",
    },
    Case {
        text: b"1023",
        line: b"words 0 numbers 1 signs 0\n",
    },
    Case {
        text: b"1024",
        line: b"fault 1 3 0\n",
    },
    Case {
        text: b"0001",
        line: b"words 0 numbers 1 signs 0\n",
    },
    Case {
        text: b"00001",
        line: b"fault 1 3 0\n",
    },
    Case {
        text: b"a /",
        line: b"fault 1 2 2\n",
    },
    Case {
        text: b"a / b 9999",
        line: b"fault 1 2 2\n",
    },
    Case {
        text: b"9999 /",
        line: b"fault 1 3 0\n",
    },
    Case {
        text: b"aB",
        line: b"fault 1 2 1\n",
    },
    Case {
        text: b"a\tb",
        line: b"fault 1 2 1\n",
    },
];

// The line for a text, in the front of the buffer.
fn told(text: &[u8], line: &mut [u8; 128]) -> Result<usize, Fail> {
    let made = match signs::survey(text) {
        Ok(found) => lines::signs_line(found.words, found.numbers, found.signs, line),
        Err(fault) => lines::fault_line(fault, line),
    };
    made.map_err(|_| Fail::new("a line"))
}

#[test]
fn texts_at_their_limits(rt: HostRuntime) -> Result<(), Fail> {
    for case in &CASES {
        let mut line = [0u8; 128];
        let length = told(case.text, &mut line)?;
        assert!(rt; length <= 128);
        assert!(rt; &line[0..length] == case.line);
    }
    Ok(())
}

#[test]
fn a_text_too_long(rt: HostRuntime) -> Result<(), Fail> {
    let text = vec![in rt.alloc(); b'?'; 32769]?;
    let mut line = [0u8; 128];
    let length = told(&text, &mut line)?;
    assert!(rt; length <= 128);
    assert!(rt; &line[0..length] == b"fault 1 1 32768\n".as_slice());
    let length = told(&text[0..32768], &mut line)?;
    assert!(rt; length <= 128);
    assert!(rt; &line[0..length] == b"fault 1 2 0\n".as_slice());
    Ok(())
}

// The token that comes next, which is there.
fn next_token(text: &[u8], from: usize) -> Result<Placed<'_>, Fail> {
    signs::next(text, from)
        .ok()
        .flatten()
        .ok_or_else(|| Fail::new("a token"))
}

#[test]
fn tokens_have_places(rt: HostRuntime) -> Result<(), Fail> {
    let text = b" box <=7";
    let word = next_token(text, 0)?;
    assert!(rt; word.token == Token::Word(b"box"));
    assert!(rt; word.place == 1 && word.end == 4);
    let sign = next_token(text, word.end)?;
    assert!(rt; sign.token == Token::Sign(Sign::Compare(Comparison::AtMost)));
    assert!(rt; sign.place == 5 && sign.end == 7);
    let number = next_token(text, sign.end)?;
    assert!(rt; number.token == Token::Number(7));
    assert!(rt; signs::next(text, number.end) == Ok(None));
    assert!(rt; signs::next(text, 1000) == Ok(None));
    Ok(())
}
