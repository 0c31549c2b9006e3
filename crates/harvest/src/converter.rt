// A harvester behind a converter, which lets a part of each amount through.
ghost use Rattle.std.specs.Prelude.{◌≡◌, ◌≤◌, min};
ghost use Rattle.model.specs.Energy.{scaled};

use crate::harvester::Harvester;
use crate::steady::Steady;

// Lets a number of 256ths through, rounded down.
#[derive(Debug, Drop, PartialEq, Eq)]
pub struct Converter<H> {
    inner: H,
    factor: u16,
    ghost partial: { factor ≤ 256 },
}

impl<H: Harvester> Converter<H> {
    // A factor above 256 counts as 256.
    pub fn new(inner: H, factor: u16) -> Converter<H>
        ensures { (result.inner ≡ inner) × (result.factor ≡ min factor 256) }
    {
        Converter {
            inner,
            factor: factor.min(256),
        }
    }
}

impl<H: Harvester> Harvester for Converter<H> {
    ghost promised = { λ s. scaled (H.Harvester.promised s.inner) s.factor };

    ghost coming = { λ s. scaled (H.Harvester.coming s.inner) s.factor };

    ghost taken = { λ s t. H.Harvester.taken s.inner t.inner × (t.factor ≡ s.factor) };

    fn promise(&self) -> u32 {
        scale(self.inner.promise(), self.factor)
    }

    fn take(&mut self) -> u32 {
        scale(self.inner.take(), self.factor)
    }
}

// An amount times a factor of at most 256, over 256.
fn scale(amount: u32, factor: u16) -> u32
    requires { factor ≤ 256 }
    ensures { result ≡ scaled amount factor }
{
    // It is proved that the quotient fits, so `u32::try_from` would only add a case that never comes.
    (u64::from(amount) * u64::from(factor) / 256) as u32
}

// Half of a steady 15 is 7.
pub fn half_of_fifteen() -> u32
    ensures { result ≡ 7 }
{
    Converter::new(Steady::new(15), 128).take()
}
