// A place in a text, from which tokens are taken one by one.
ghost use Rattle.std.specs.Prelude.{◌≤◌, length};

// The text, and the place in it up to which it is read.
#[derive(PartialEq, Eq, Debug, Drop)]
pub(crate) struct Cursor<'a> {
    pub(crate) text: &'a [u8],
    pub(crate) at: usize,
    ghost inside: { at ≤ length text.now },
}
