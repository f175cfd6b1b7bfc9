// Classes of bytes, and how far a run of one class goes.
ghost use Rattle.std.specs.Prelude.{◌≡◌, length};
ghost use Rattle.std.specs.List.{take_while};
ghost use Rattle.signs.specs.Scanning.{has};

// An enum and no closure of a byte, since the contracts name a class's test by `has`.
#[derive(Clone, Copy, PartialEq, Eq, Debug)]
pub(crate) enum Class {
    Blank,
    Letter,
    Digit,
    Alphanumeric,
}

impl Class {
    pub(crate) fn has(self, byte: u8) -> bool
        ensures { result ≡ has self byte }
    {
        match self {
            Class::Blank => matches!(byte, b' ' | b'\n'),
            Class::Letter => byte.is_ascii_lowercase(),
            Class::Digit => byte.is_ascii_digit(),
            Class::Alphanumeric => byte.is_ascii_lowercase() || byte.is_ascii_digit(),
        }
    }

    // How many bytes of this class the text begins with.
    pub(crate) fn front(self, text: &[u8]) -> usize
        ensures { result ≡ length (take_while (has self) text.now) }
    {
        text.iter().take_while(|byte| self.has(**byte)).count()
    }
}
