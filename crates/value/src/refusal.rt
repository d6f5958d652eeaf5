// Why a call is refused, and the number that each reason has in a trace and for C.

ghost use Rattle.std.specs.Prelude.{◌≡◌};
ghost use Rattle.value.specs.Refusals.{refusal_number, answer_number};

use std::error::Error;
use std::fmt;

#[derive(Clone, Copy, Debug, PartialEq, Eq)]
pub enum Refusal {
    KeyIsNil,
    KeyIsNan,
    NoRoom,
    WrongShape,
    // the words that were passed are no value's
    NoValue,
}

impl From<Refusal> for u8 {
    ghost from_gives = { λ refusal number. number ≡ refusal_number refusal };

    fn from(refusal: Refusal) -> u8 {
        match refusal {
            Refusal::KeyIsNil => 1,
            Refusal::KeyIsNan => 2,
            Refusal::NoRoom => 3,
            Refusal::WrongShape => 4,
            Refusal::NoValue => 15,
        }
    }
}

impl fmt::Display for Refusal {
    fn fmt<W: fmt::Write>(&self, f: &mut fmt::Formatter<W>) -> fmt::Result {
        f.write_str(match self {
            Refusal::KeyIsNil => "the key is Nil",
            Refusal::KeyIsNan => "the key is NaN",
            Refusal::NoRoom => "there is no room",
            Refusal::WrongShape => "the shape is wrong",
            Refusal::NoValue => "the words are no value's",
        })
    }
}

impl Error for Refusal {}

// The number of an answer: 0 where the call was done.
pub fn answer_number<T>(answer: &Result<T, Refusal>) -> u8
    ensures { result ≡ answer_number answer.now }
{
    match answer {
        Ok(_) => 0,
        Err(refusal) => u8::from(*refusal),
    }
}
