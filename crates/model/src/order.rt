// Orders to a node, and what it reports.
ghost use Rattle.std.specs.Prelude.{◌≡◌, Some};
ghost use Rattle.model.specs.Orders.{report_of};
ghost use Rattle.model.specs.Shown.{ask_shown, order_shown};

use crate::state::State;
use std::fmt;

#[derive(Clone, Copy, Debug, PartialEq, Eq)]
pub enum Ask {
    Release { task: u8, units: u16, draw: u64 },
    Slots { count: u32 },
}

// An order with the mark of its outcome: 0, or the number of a refusal.
// The mark is a number by a rule of the project, and one that a caller hands in may be any.
#[derive(Clone, Copy, Debug, PartialEq, Eq)]
pub struct Order {
    pub ask: Ask,
    pub mark: u8,
}

#[derive(Clone, Copy, Debug, PartialEq, Eq)]
pub struct Report {
    pub clock: u32,
    pub level: u64,
    pub released: u64,
    pub closed: u64,
    pub finished: u64,
    pub longest: [Option<u32>; 16],
}

impl From<&State> for Report {
    ghost from_gives = { λ s r. r ≡ report_of s.now };

    fn from(state: &State) -> Report {
        Report {
            clock: state.clock,
            level: state.level,
            released: state.released,
            closed: state.closed,
            finished: state.finished,
            longest: state.longest,
        }
    }
}

impl fmt::Display for Ask {
    ghost output = { λ ask. Some (ask_shown ask) };

    fn fmt<W: fmt::Write>(&self, f: &mut fmt::Formatter<W>) -> fmt::Result {
        match self {
            Ask::Release { task, units, draw } => write!(f, "release {task} {units} {draw}"),
            Ask::Slots { count } => write!(f, "slots {count}"),
        }
    }
}

// The order and its outcome.
impl fmt::Display for Order {
    ghost output = { λ order. Some (order_shown order) };

    fn fmt<W: fmt::Write>(&self, f: &mut fmt::Formatter<W>) -> fmt::Result {
        if self.mark == 0 {
            write!(f, "{} done", self.ask)
        } else {
            write!(f, "{} refused {}", self.ask, self.mark)
        }
    }
}
