// The same amount in every slot.
ghost use Rattle.std.specs.Prelude.{◌≡◌, ◌≤◌};
ghost use Rattle.harvest.specs.Samples.{cut};
ghost use Rattle.harvest.specs.declared.harvester.TheConstants.{CEILING};

use crate::harvester::{CEILING, Harvester};

#[derive(Clone, Copy, Debug, PartialEq, Eq)]
pub struct Steady {
    amount: u32,
    ghost limited: { amount ≤ CEILING },
}

impl Steady {
    // An amount above the ceiling counts as the ceiling.
    pub fn new(amount: u32) -> Steady
        ensures { result.amount ≡ cut amount }
    {
        Steady {
            amount: amount.min(CEILING),
        }
    }
}

impl Harvester for Steady {
    ghost promised = { λ s. s.amount };

    ghost coming = { λ s. s.amount };

    ghost taken = { λ s t. t.amount ≡ s.amount };

    fn promise(&self) -> u32 {
        self.amount
    }

    fn take(&mut self) -> u32 {
        self.amount
    }
}
