// Why a call refuses: one enum of all refusals, each with its own number.
#![tactic(auto)]

mod layers;

ghost use Rattle.std.specs.Prelude.{◌≡◌};
ghost use Rattle.refusal.specs.Table.{number, layer, answered};

pub use layers::Layer;

#[derive(Clone, Copy, PartialEq, Eq, PartialOrd, Ord, Debug)]
pub enum Refusal {
    TextTooLong = 1,
    ByteNotPermitted = 2,
    OverLimit = 3,
    TokenNotPermitted = 4,
    TooDeep = 5,
    JoinMixes = 6,
    NameTaken = 7,
    NameUnknown = 8,
    WrongTermCount = 9,
    WrongNumber = 10,
    TooMany = 11,
    FieldsDiffer = 12,
    ListTooShort = 13,
    TraceUnfit = 14,
    NotFinished = 15,
    NotAMark = 16,
    BadSeed = 18,
    BufferTooShort = 19,
    Outside = 20,
    PairsFull = 21,
}

// Where a sheet's text goes wrong: the offset of the byte where it stands, and the refusal. The first fault of some
// is the least: that of the first place, and there of the least number.
#[derive(Clone, Copy, PartialEq, Eq, PartialOrd, Ord, Debug)]
pub struct Fault {
    pub place: usize,
    pub refusal: Refusal,
}

impl Refusal {
    // The number of the table.
    pub fn number(self) -> u8
        ensures { result ≡ number self }
    {
        self as u8
    }

    // The fault that this refusal is at a place of the text.
    pub fn at(self, place: usize) -> Fault
        ensures { result ≡ record { place = place; refusal = self } }
    {
        Fault {
            place,
            refusal: self,
        }
    }

    // The layer of reading that refuses, or none for a refusal that is not of a text. It goes by number, since each
    // layer has a stretch of the table's numbers: the cases by name would say no more.
    pub fn layer(self) -> Option<Layer>
        ensures { answered result ≡ layer self }
    {
        match self.number() {
            1..=3 => Some(Layer::Signs),
            4..=6 => Some(Layer::Grammar),
            7..=11 => Some(Layer::Names),
            _ => None,
        }
    }
}
