// The refusals, each with its number and a line of English.

ghost use Rattle.calls.specs.Numbers.{ByNumber, refusal_number};
ghost use Rattle.std.specs.Prelude.{◌≡◌};

use std::error::Error;
use std::fmt;

#[derive(Clone, Copy, PartialEq, Eq, Debug)]
pub enum Refusal {
    NoTask = 1,
    NoFreeRecord = 2,
    IdInUse = 3,
    NoSuchId = 4,
    AtUnit = 5,
    CellFull = 6,
    NoMessage = 7,
    NoTicks = 8,
    NoSuchUnit = 9,
    BadLength = 10,
    NoLineEnd = 11,
    NoRequest = 12,
    ClockAtEnd = 13,
    Unlawful = 14,
    NoClock = 15,
    OutOfRange = 16,
    NoRoom = 17,
}

// A number that no refusal has.
#[derive(Clone, Copy, PartialEq, Eq, Debug)]
pub struct UnknownRefusal(pub u16);

impl From<Refusal> for u8 {
    ghost from_gives = { λ refusal n. n ≡ refusal_number refusal };

    fn from(refusal: Refusal) -> u8 {
        refusal as u8
    }
}

impl TryFrom<u16> for Refusal {
    type Error = UnknownRefusal;

    ghost try_from_gives = { ByNumber };

    fn try_from(number: u16) -> Result<Refusal, UnknownRefusal> {
        Ok(match number {
            1 => Refusal::NoTask,
            2 => Refusal::NoFreeRecord,
            3 => Refusal::IdInUse,
            4 => Refusal::NoSuchId,
            5 => Refusal::AtUnit,
            6 => Refusal::CellFull,
            7 => Refusal::NoMessage,
            8 => Refusal::NoTicks,
            9 => Refusal::NoSuchUnit,
            10 => Refusal::BadLength,
            11 => Refusal::NoLineEnd,
            12 => Refusal::NoRequest,
            13 => Refusal::ClockAtEnd,
            14 => Refusal::Unlawful,
            15 => Refusal::NoClock,
            16 => Refusal::OutOfRange,
            17 => Refusal::NoRoom,
            _ => return Err(UnknownRefusal(number)),
        })
    }
}

impl fmt::Display for Refusal {
    fn fmt<W: fmt::Write>(&self, f: &mut fmt::Formatter<W>) -> fmt::Result {
        let text = match self {
            Refusal::NoTask => "no task is running",
            Refusal::NoFreeRecord => "no task record is free",
            Refusal::IdInUse => "a live task has this id",
            Refusal::NoSuchId => "no live task has this id",
            Refusal::AtUnit => "the task waits at a unit",
            Refusal::CellFull => "the cell holds a message",
            Refusal::NoMessage => "a message is not zero",
            Refusal::NoTicks => "a delay is not zero ticks",
            Refusal::NoSuchUnit => "there is no such unit",
            Refusal::BadLength => "the length is out of range",
            Refusal::NoLineEnd => "the text has no line end",
            Refusal::NoRequest => "the unit has no request",
            Refusal::ClockAtEnd => "the clock stands at its last reading",
            Refusal::Unlawful => "the words are no lawful call",
            Refusal::NoClock => "there is no clock",
            Refusal::OutOfRange => "the answer is out of range",
            Refusal::NoRoom => "there is no room for the words",
        };
        f.write_str(text)
    }
}

impl fmt::Display for UnknownRefusal {
    fn fmt<W: fmt::Write>(&self, f: &mut fmt::Formatter<W>) -> fmt::Result {
        write!(f, "no refusal has the number {}", self.0)
    }
}

impl Error for UnknownRefusal {}
