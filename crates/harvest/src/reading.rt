// What the trait asks of who writes a harvester, and what it tells a caller that knows one only at run time: worked cases.
ghost use Rattle.std.specs.Prelude.{◌≡◌};
ghost use Rattle.model.specs.Energy.{Harvest};

use crate::harvester::Harvester;

// A source that a sensor reads in 16 bits. The width alone keeps it below the ceiling, so nothing else is stated of it.
#[derive(Clone, Copy, Debug, PartialEq, Eq)]
pub struct Reading {
    pub amount: u16,
}

impl Harvester for Reading {
    ghost promised = { λ s. s.amount };

    ghost coming = { λ s. s.amount };

    ghost taken = { λ s t. t.amount ≡ s.amount };

    fn promise(&self) -> u32 {
        u32::from(self.amount)
    }

    fn take(&mut self) -> u32 {
        u32::from(self.amount)
    }
}

// The promise of a harvester that is known only at run time, and its law.
pub fn promise_of(harvester: &dyn Harvester) -> u32
    ensures value { result ≡ promised harvester.now }
    ensures law { Harvest result (coming harvester.now) }
{
    harvester.promise()
}

// What such a harvester brings: it keeps its promise, and its law holds before and after. `taken` relates two values of one type, which two values of a
// `dyn` are not known to have, so no clause says `once` here.
pub fn amount_of(harvester: &mut dyn Harvester) -> u32
    ensures amount { result ≡ coming harvester.old }
    ensures same { promised harvester.new ≡ promised harvester.old }
    ensures law { Harvest (promised harvester.old) result }
    ensures after { Harvest (promised harvester.new) (coming harvester.new) }
{
    harvester.take()
}
