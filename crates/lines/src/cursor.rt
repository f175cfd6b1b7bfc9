// A buffer of the caller's, and how far it is written, from its front on. No `io::Cursor<&mut [u8]>`: its `write`
// answers an `io::Result` of how many bytes had room, and here room is known before the first byte is put. It has no
// equality, since only the front of its buffer means something.
ghost use Rattle.std.specs.Prelude.{◌≡◌, ◌≤◌, map, length, replicate};
ghost use Rattle.lines.specs.Pieces.{shown};
ghost use Rattle.lines.specs.Putting.{HasRoom, Written};

use itoa::{Buffer, Integer};

#[derive(Debug, Drop)]
pub(crate) struct Cursor<'a> {
    pub(crate) out: &'a mut [u8],
    pub(crate) at: usize,
}

impl Cursor<'_> {
    pub(crate) fn bytes(&mut self, codes: &[u8])
        requires { HasRoom self.old (length codes.now) }
        ensures { Written self.old codes.now self.new }
    {
        let to = self.at + codes.len();
        self.out[self.at..to].copy_from_slice(codes);
        self.at = to;
    }

    pub(crate) fn number<I: Integer>(&mut self, value: I)
        requires { HasRoom self.old (length (I.text value)) }
        ensures { Written self.old (I.text value) self.new }
    {
        self.bytes(Buffer::new().format(value).as_bytes());
    }

    pub(crate) fn blanks(&mut self, count: usize)
        requires { HasRoom self.old count }
        ensures { Written self.old (replicate count 32) self.new }
    {
        let to = self.at + count;
        self.out[self.at..to].fill(b' ');
        self.at = to;
    }

    // The bytes as they are shown.
    pub(crate) fn shown_bytes(&mut self, codes: &[u8])
        requires { HasRoom self.old (length codes.now) }
        ensures { Written self.old (map shown codes.now) self.new }
    {
        let from = self.at;
        self.bytes(codes);
        show(&mut self.out[from..self.at]);
    }
}

fn show(bytes: &mut [u8])
    ensures { bytes.new ≡ map shown bytes.old }
{
    for byte in bytes.iter_mut() {
        *byte = shown(*byte);
    }
}

// A byte that is no printed sign is shown as `?`, so that columns stay aligned.
fn shown(byte: u8) -> u8
    ensures { result ≡ shown byte }
{
    match byte {
        b' '..=b'~' => byte,
        _ => b'?',
    }
}

// How many digits a number has.
pub(crate) fn width<I: Integer>(value: I) -> usize
    ensures len { result ≡ length (I.text value) }
    ensures few { result ≤ 40 }
{
    Buffer::new().format(value).len()
}
