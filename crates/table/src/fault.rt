// Why a file is refused, and where.
ghost use Rattle.std.specs.Prelude.{Some};
ghost use Rattle.table.specs.Shown.{fault_shown};

use model::refusal::Refusal;
use std::error::Error;
use std::fmt;

// The refusal, and the byte where the refused record starts.
#[derive(Clone, Copy, Debug, PartialEq, Eq)]
pub struct LoadFault {
    pub refusal: Refusal,
    pub at: usize,
}

impl fmt::Display for LoadFault {
    ghost output = { λ fault. Some (fault_shown fault) };

    fn fmt<W: fmt::Write>(&self, f: &mut fmt::Formatter<W>) -> fmt::Result {
        write!(f, "refused {} at {}", self.refusal, self.at)
    }
}

impl Error for LoadFault {}
