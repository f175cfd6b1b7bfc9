// The layers of reading a text.
ghost use Rattle.std.specs.Prelude.{◌≡◌};
ghost use Rattle.refusal.specs.Table.{layer_number};

#[derive(Clone, Copy, PartialEq, Eq, Debug)]
pub enum Layer {
    Signs = 1,
    Grammar = 2,
    Names = 3,
}

impl Layer {
    // The number that stands for it where a fault is printed.
    pub fn number(self) -> u8
        ensures { result ≡ layer_number self }
    {
        self as u8
    }
}
