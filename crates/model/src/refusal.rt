// Why a call is refused.
ghost use Rattle.std.specs.Prelude.{◌≡◌, Some};
ghost use Rattle.model.specs.Refusals.{number_of};
ghost use Rattle.model.specs.Shown.{refusal_shown};

use std::error::Error;
use std::fmt;

// Each refusal has the number by which it is told.
#[derive(Clone, Copy, Debug, PartialEq, Eq)]
pub enum Refusal {
    // the record passes the end of the file
    PastEnd = 1,
    // a kind of record that does not exist
    UnknownKind = 2,
    // a length that the record's kind does not have
    WrongLength = 3,
    // the first record is no node record, or a later one is
    WrongPlace = 4,
    // a rate, floor, cap, units, period or deadline outside its limits
    OutsideLimits = 5,
    // a seventeenth task
    TooManyTasks = 6,
    // a name with a byte that is not graphic
    WrongName = 7,
    // a unit's draw above the room between floor and cap
    DrawAboveRoom = 8,
    // the harvester promises less than the table's rate
    PromiseTooLow = 9,
    // a start level outside floor to cap
    LevelOutside = 10,
    // no task of that number
    NoSuchTask = 11,
    // a job's units or draw outside the task's
    OutsideTask = 12,
    // the text does not fit the output
    OutputTooShort = 13,
    // a release less than a period after the task's last one
    TooEarly = 14,
    // the clock is at its end, or would pass it
    ClockEnd = 15,
}

impl Refusal {
    // The number by which the refusal is told.
    pub fn number(self) -> u8
        ensures { result ≡ number_of self }
    {
        self as u8
    }
}

// A refusal is told by its number.
impl fmt::Display for Refusal {
    ghost output = { λ refusal. Some (refusal_shown refusal) };

    fn fmt<W: fmt::Write>(&self, f: &mut fmt::Formatter<W>) -> fmt::Result {
        write!(f, "{}", self.number())
    }
}

impl Error for Refusal {}
