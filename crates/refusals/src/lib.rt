// Section 3 of document 01: every refusal there is, whichever crate gives it, and its number.
#![tactic(auto)]

ghost use Rattle.std.specs.Prelude.{◌≡◌, Some};
ghost use Rattle.refusals.specs.Refusals.{number_of, name_of};

use std::error::Error;
use std::fmt;

#[derive(Clone, Copy, Debug, PartialEq, Eq)]
pub enum Refusal {
    Room = 1,
    Busy,
    Kind,
    Long,
    Short,
    Start,
    Length,
    Tail,
    Sum,
    Form,
    Range,
}

// The number that document 01 gives it.
impl From<Refusal> for u8 {
    ghost from_gives = { λ refusal number. number ≡ number_of refusal };

    fn from(refusal: Refusal) -> u8 {
        refusal as u8
    }
}

// The name that document 01 gives it.
impl fmt::Display for Refusal {
    ghost output = { λ refusal. Some (name_of refusal) };

    fn fmt<W: fmt::Write>(&self, f: &mut fmt::Formatter<W>) -> fmt::Result {
        f.write_str(match self {
            Refusal::Room => "ROOM",
            Refusal::Busy => "BUSY",
            Refusal::Kind => "KIND",
            Refusal::Long => "LONG",
            Refusal::Short => "SHORT",
            Refusal::Start => "START",
            Refusal::Length => "LENGTH",
            Refusal::Tail => "TAIL",
            Refusal::Sum => "SUM",
            Refusal::Form => "FORM",
            Refusal::Range => "RANGE",
        })
    }
}

impl Error for Refusal {}
