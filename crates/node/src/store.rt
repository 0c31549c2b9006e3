// The store of energy, whose level lies between a floor and a cap.
ghost use Rattle.std.specs.Prelude.{◌≡◌, ◌+◌, ◌-◌, ◌≤◌, min};

#[derive(Clone, Copy, Debug, PartialEq, Eq)]
pub(crate) struct Store {
    level: u64,
    floor: u64,
    cap: u64,
    ghost low: { floor ≤ level },
    ghost high: { level ≤ cap },
    ghost small: { cap ≤ 8000000000 },
}

impl Store {
    // A store at a level.
    pub(crate) fn new(level: u64, floor: u64, cap: u64) -> Store
        requires { (floor ≤ level) × ((level ≤ cap) × (cap ≤ 8000000000)) }
        ensures level { result.level ≡ level }
        ensures bounds { (result.floor ≡ floor) × (result.cap ≡ cap) }
    {
        Store { level, floor, cap }
    }

    // What the store holds.
    pub(crate) fn level(&self) -> u64
        ensures { result ≡ self.now.level }
    {
        self.level
    }

    // The store after a slot: the harvest comes in, the draw goes out, and what passes the cap is lost.
    pub(crate) fn put(self, harvest: u32, draw: u64) -> Store
        requires covered { self.floor + draw ≤ self.level + harvest }
        requires harvest { harvest ≤ 1000000000 }
        ensures level { result.level ≡ min self.cap (self.level + harvest - draw) }
        ensures bounds { (result.floor ≡ self.floor) × (result.cap ≡ self.cap) }
    {
        let full = self.level + u64::from(harvest) - draw;
        // field by field, since `..self` is refused where a type has ghost fields
        Store {
            level: full.min(self.cap),
            floor: self.floor,
            cap: self.cap,
        }
    }
}
