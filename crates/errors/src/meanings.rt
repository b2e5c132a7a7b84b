// The meanings of the error codes.
ghost use Rattle.std.specs.Prelude.{◌≡◌};
ghost use Rattle.errors.specs.Meanings.{meaning_of};

// Each is numbered as its code, the last one behind them.
#[derive(Clone, Copy, Debug, PartialEq, Eq)]
pub enum Meaning {
    NoError = 0,
    ReadCargoTooLong = 1,
    WriteTooShort = 2,
    LengthAboveMaximum = 3,
    LengthWithinHeader = 4,
    FirstFragmentUnsupported = 5,
    ContinuationUnsupported = 6,
    UnknownCommand = 7,
    UnknownParameter = 8,
    UnknownChannel = 9,
    AdvertisementPending = 10,
    WriteBeforeAdvertisement = 11,
    ListTruncated = 12,
    Unknown = 13,
}

// Codes 0 to 12, in the order of 004's table.
const MEANINGS: [Meaning; 13] = [
    Meaning::NoError,
    Meaning::ReadCargoTooLong,
    Meaning::WriteTooShort,
    Meaning::LengthAboveMaximum,
    Meaning::LengthWithinHeader,
    Meaning::FirstFragmentUnsupported,
    Meaning::ContinuationUnsupported,
    Meaning::UnknownCommand,
    Meaning::UnknownParameter,
    Meaning::UnknownChannel,
    Meaning::AdvertisementPending,
    Meaning::WriteBeforeAdvertisement,
    Meaning::ListTruncated,
];

pub fn meaning_of(code: u8) -> Meaning
    ensures { result ≡ meaning_of code }
{
    MEANINGS
        .get(code as usize)
        .copied()
        .unwrap_or(Meaning::Unknown)
}
