// Two harvesters at once.
ghost use Rattle.std.specs.Prelude.{◌≡◌};
ghost use Rattle.harvest.specs.Samples.{joint};

use crate::harvester::{CEILING, Harvester};

// Takes from both; the sum is cut at the ceiling.
#[derive(Clone, Debug, Drop, PartialEq, Eq)]
pub struct Pair<P, Q> {
    first: P,
    second: Q,
}

impl<P: Harvester, Q: Harvester> Pair<P, Q> {
    pub fn new(first: P, second: Q) -> Pair<P, Q>
        ensures { (result.first ≡ first) × (result.second ≡ second) }
    {
        Pair { first, second }
    }
}

impl<P: Harvester, Q: Harvester> Harvester for Pair<P, Q> {
    ghost promised = { λ s. joint (P.Harvester.promised s.first) (Q.Harvester.promised s.second) };

    ghost coming = { λ s. joint (P.Harvester.coming s.first) (Q.Harvester.coming s.second) };

    ghost taken = { λ s t. P.Harvester.taken s.first t.first × Q.Harvester.taken s.second t.second };

    fn promise(&self) -> u32 {
        (self.first.promise() + self.second.promise()).min(CEILING)
    }

    fn take(&mut self) -> u32 {
        (self.first.take() + self.second.take()).min(CEILING)
    }
}
