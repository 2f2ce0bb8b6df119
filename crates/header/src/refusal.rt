// Why a call is refused, and the answers of checks and calls.
ghost use Rattle.std.specs.Prelude.{◌≡◌};
ghost use Rattle.header.specs.Refusals.{number, answered};

// Why a call is refused; its number is 01's.
#[derive(Clone, Copy, PartialEq, Eq)]
pub enum Refusal {
    ImageSize = 1,
    Magic = 2,
    Version = 3,
    NoProfile = 4,
    BadRecord = 5,
    BadArea = 6,
    UnknownProfile = 7,
    BadStripes = 8,
    KeyLength = 9,
    LowCount = 10,
    BadUuid = 11,
    ShortImage = 12,
    BadSlot = 13,
    BadPassphrase = 14,
    WrongState = 15,
    BadLength = 16,
    WrongKey = 17,
    LastSlot = 18,
    BadRange = 19,
    BadBuffer = 20,
}

// (The number is 01's: C gets it, and the test programs print it.)
impl From<Refusal> for u8 {
    ghost from_gives = { λ r n. n ≡ number r };

    fn from(refusal: Refusal) -> u8 {
        refusal as u8
    }
}

// A refused call: why, and how many values of HMAC it made (02, Wish 6).
#[derive(Clone, Copy)]
pub struct Refused {
    pub refusal: Refusal,
    pub values: u64,
}

// A check makes no value of HMAC.
impl From<Refusal> for Refused {
    ghost from_gives = { λ r f. f ≡ record { refusal = r; values = 0 } };

    fn from(refusal: Refusal) -> Refused {
        Refused { refusal, values: 0 }
    }
}

// 01's number of a call's answer; 0 is accepted.
// (A number, and no enum: the clause is 01's numbering of all answers, with the 0 that no refusal has.)
pub fn number_of<T: Copy>(answer: Result<T, Refused>) -> u8
    ensures { result ≡ answered answer }
{
    match answer {
        Ok(_) => 0,
        Err(refused) => u8::from(refused.refusal),
    }
}
