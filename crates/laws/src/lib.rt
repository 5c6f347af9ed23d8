// Refusals, checks and ranges; tests, orders and searches are in specs/.
#![tactic(auto)]

ghost use Rattle.std.specs.Prelude.{◌≡◌};
ghost use Rattle.laws.specs.Truth.{pick, within};
ghost use Rattle.laws.specs.Refusals.{number_of, number_in};

// Why a line or a call is refused, each with the paper's number.
#[derive(Clone, Copy, Debug, PartialEq, Eq)]
pub enum Refusal {
    Malformed = 1,
    OutOfRange = 2,
    OutOfOrder = 3,
    UnknownCode = 4,
    NoSuchDate = 5,
    WrongCount = 6,
    TooManyLots = 7,
    BookFull = 8,
    NotFree = 9,
    NotAllowed = 10,
    PairsFull = 11,
    NoSuchPair = 12,
    WrongDay = 13,
    LineMissing = 14,
    BufferShort = 15,
    NotSound = 16,
}

impl Refusal {
    // The paper's number.
    pub fn number(self) -> u8
        ensures { result ≡ number_of self }
    {
        self as u8
    }
}

// Why a text is refused, and which line is at fault: 0 where no single one is.
#[derive(Clone, Copy, Debug, PartialEq, Eq)]
pub struct Fault {
    pub refusal: Refusal,
    pub line: u32,
}

// One check: the refusal where it fails.
pub fn ensure(passes: bool, refusal: Refusal) -> Result<(), Refusal>
    ensures { number_in result ≡ pick passes 0 (number_of refusal) }
{
    if passes { Ok(()) } else { Err(refusal) }
}

// Whether x is least to greatest.
pub fn in_range(least: u32, greatest: u32, x: u32) -> bool
    ensures { result ≡ within least greatest x }
{
    least <= x && x <= greatest
}
