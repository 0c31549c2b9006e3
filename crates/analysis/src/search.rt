// The search for the least window that a curve does not exceed.
ghost use Rattle.std.specs.Prelude.{◌≡◌, ℕ, ◌≤◌};
ghost use Rattle.model.specs.Windows.{Rising, Positive, LeastWindow, Rounds};

use crate::verdict::Bound;

// A curve has one value for each window; it never falls, and is at least 1.
pub(crate) trait Curve {
    ghost value: { Self → ℕ → ℕ };

    // A window is a number that is asked to be in range, as a type for it would be opened for every sum.
    fn at(&self, window: u32) -> u64
        requires { (1 ≤ window) × (window ≤ 100000) }
        ensures { result ≡ value self.now window };

    ghost rises: { (c : Self) → Rising (value c) };

    ghost positive: { (c : Self) → Positive (value c) };
}

// From window 1 on, each value of the curve is the next window, until the curve holds or the deadline is passed.
pub(crate) fn search<C: Curve>(curve: &C, deadline: u32) -> Bound
    requires { (1 ≤ deadline) × (deadline ≤ 100000) }
    ensures least { LeastWindow (C.Curve.value curve.now) deadline result.window }
    ensures rounds { Rounds (C.Curve.value curve.now) deadline 1 result.window result.rounds }
    ensures few { result.rounds ≤ deadline }
{
    let mut window = 1u32;
    let mut rounds = 0u32;
    // a rule of the project: the loop yields bound and rounds by `break`; a `for` over the rounds would have an end that no search reaches
    loop {
        let needed = curve.at(window);
        rounds += 1;
        if needed <= u64::from(window) {
            break Bound {
                window: Some(window),
                rounds,
            };
        }
        if needed > u64::from(deadline) {
            break Bound {
                window: None,
                rounds,
            };
        }
        // no more than the deadline, so nothing is lost
        window = needed as u32;
    }
}
