// Recorded samples, in turn and over again.
ghost use Rattle.std.specs.Prelude.{◌≡◌, ◌-◌, ◌≤◌, length};
ghost use Rattle.harvest.specs.Samples.{least, sample, next_index};

use crate::harvester::{CEILING, Harvester};

// Gives each sample, cut at the ceiling, and starts over at the end; no samples give 0.
#[derive(Debug, Drop, PartialEq, Eq)]
pub struct Trace<'a> {
    samples: &'a [u32],
    index: usize,
    low: u32,
    ghost inside: { index ≤ length samples.now - 1 },
    ghost known: { low ≡ least samples.now },
}

impl<'a> Trace<'a> {
    // At the first sample.
    pub fn new(samples: &'a [u32]) -> Trace<'a>
        ensures { (result.samples.now ≡ samples.now) × (result.index ≡ 0) }
    {
        let low = lowest(samples);
        Trace {
            samples,
            index: 0,
            low,
        }
    }
}

fn lowest(samples: &[u32]) -> u32
    ensures { result ≡ least samples.now }
{
    samples.iter().copied().min().unwrap_or(0).min(CEILING)
}

impl Harvester for Trace<'_> {
    ghost promised = { λ s. least s.samples.now };

    ghost coming = { λ s. sample s.samples.now s.index };

    ghost taken = { λ s t. (t.samples.now ≡ s.samples.now) × (t.index ≡ next_index s.samples.now s.index) };

    fn promise(&self) -> u32 {
        self.low
    }

    fn take(&mut self) -> u32 {
        // by an index, which contracts name and an iterator over the samples in turn would hide
        let Some(&amount) = self.samples.get(self.index) else {
            return 0;
        };
        self.index = (self.index + 1) % self.samples.len();
        amount.min(CEILING)
    }
}

// After the last of two samples comes the first again.
pub fn first_again() -> u32
    ensures { result ≡ 5 }
{
    let samples = [5, 9];
    let mut trace = Trace::new(&samples);
    let _ = trace.take();
    let _ = trace.take();
    trace.take()
}
