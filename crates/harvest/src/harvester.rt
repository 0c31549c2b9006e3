// What a node asks of the source of its energy.
ghost use Rattle.std.specs.Prelude.{◌≡◌, ℕ};
ghost use Rattle.model.specs.Energy.{Harvest};

// The most that a slot brings.
pub const CEILING: u32 = 1_000_000_000;

// A harvester means two numbers, what every slot brings at least and what the next one brings, and what a take makes of it.
pub trait Harvester {
    ghost promised: { Self → ℕ };

    ghost coming: { Self → ℕ };

    // The second is the first after it was taken from once.
    ghost taken: { Self → Self → Type 0 };

    // What every slot brings at least.
    fn promise(&self) -> u32
        ensures value { result ≡ promised self.now }
        ensures law { Harvest (promised self.now) (coming self.now) };

    // What this slot brings.
    fn take(&mut self) -> u32
        ensures amount { result ≡ coming self.old }
        ensures once { taken self.old self.new }
        ensures same { promised self.new ≡ promised self.old }
        ensures law { Harvest (promised self.old) (coming self.old) }
        ensures after { Harvest (promised self.new) (coming self.new) };
}
