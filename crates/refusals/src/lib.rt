// Why a call is refused: the rows of document 01's table, and of document 02's, each with its number.
#![tactic(auto)]

ghost use Rattle.std.specs.Prelude.{◌≡◌};
ghost use Rattle.refusals.specs.Number.{number_of, number_in};

#[derive(Clone, Copy, Debug, PartialEq, Eq, Hash)]
pub enum Refusal {
    ShortTransfer = 2,
    LongTransfer = 3,
    HeaderAlone = 4,
    NoSuchChannel = 9,
    Repeat = 20,
    NotJoined = 21,
    LengthOfOnes = 22,
    Unsound = 23,
    ShortCargoBuffer = 24,
    EmptyCargo = 26,
    LongCargo = 27,
    ShortOutput = 28,
    OtherUnderWay = 29,
    UnknownId = 30,
    FlagAfterEscape = 31,
    LongMessage = 32,
    ControlPayload = 33,
    OneByteLeft = 34,
    ValuePastEnd = 35,
    LongValue = 36,
    NoErrorList = 37,
    FullIndex = 38,
    Circumference = 39,
    NoTotal = 40,
    TotalBehind = 41,
    LongDistance = 42,
    NoPermit = 43,
    SmallPermit = 44,
    EndedPermit = 45,
}

impl Refusal {
    // The number that the documents give it.
    pub fn number(self) -> u8
        ensures { result ≡ number_of self }
    {
        self as u8
    }
}

// An answer's number: 0, or its refusal's.
pub fn number_in<T>(answer: &Result<T, Refusal>) -> u8
    ensures { result ≡ number_in answer.now }
{
    match answer {
        Ok(_) => 0,
        Err(refusal) => refusal.number(),
    }
}
