// The three demand curves of a task: time alone, the greater of time and energy, and the safe one.
ghost use Rattle.std.specs.Prelude.{◌≡◌, ◌+◌, ◌^◌, ◌<◌, ◌≤◌, length};
ghost use Rattle.model.specs.Tasks.{Sized, Timed, Payable, LawfulRate, Each};
ghost use Rattle.model.specs.Demand.{divide_up, slot_weight, safe_weight, demand, time_curve, greater_curve, safe_curve};
ghost use Rattle.model.proofs.Curves.{time_curve_rises, time_curve_positive, greater_curve_rises, greater_curve_positive};
ghost use Rattle.model.proofs.Curves.{safe_curve_rises, safe_curve_positive};

use crate::search::{Curve, search};
use crate::verdict::TaskBounds;
use model::task::Task;

// A task of a lawful table, by its index among all tasks, the most urgent first.
#[derive(Clone, Copy)]
pub(crate) struct Subject<'a> {
    pub(crate) rate: u32,
    pub(crate) tasks: &'a [Task],
    pub(crate) index: usize,
    ghost lawful: { LawfulRate rate },
    ghost within: { (index < length tasks.now) × (length tasks.now ≤ 16) },
    ghost sized: { Each Sized tasks.now (length tasks.now) },
    ghost timed: { Each Timed tasks.now (length tasks.now) },
    ghost payable: { Each (Payable 8000000000) tasks.now (length tasks.now) },
}

// What the jobs in a window ask for: slots, and energy.
#[derive(Clone, Copy)]
struct Sums {
    slots: u64,
    energy: u64,
}

impl Subject<'_> {
    ghost use Rattle.analysis.specs.Verdicts.{BoundsOf};

    // The three bounds of the task.
    pub(crate) fn bounds(&self) -> TaskBounds
        ensures { BoundsOf self.now.rate self.now.tasks.now self.now.index result }
    {
        let deadline = self.tasks[self.index].deadline;
        TaskBounds {
            time: search(&TimeCurve(*self), deadline),
            greater: search(&GreaterCurve(*self), deadline),
            safe: search(&SafeCurve(*self), deadline),
        }
    }

    // One job of the task and every job of the more urgent ones; a unit's energy counts as `least` at least.
    fn demand(&self, least: u32, window: u32) -> Sums
        requires { (1 ≤ window) × (window ≤ 100000) }
        ensures slots { result.slots ≡ demand slot_weight self.now.tasks.now self.now.index window }
        ensures energy { result.energy ≡ demand (safe_weight least) self.now.tasks.now self.now.index window }
        ensures small { result.energy ≤ 6000004000000000000 }
    {
        let mut slots = 0u64;
        let mut energy = 0u64;
        for task in &self.tasks[..self.index] {
            // div_ceil brings the heaviest table from 1.04 to 1.14 of the twin's instructions, and the bar is 1.10
            let jobs = u64::from((window + task.period - 1) / task.period);
            let units = u64::from(task.units);
            let unit = task.draw.max(u64::from(least));
            slots += jobs * units;
            energy += jobs * (units * unit);
        }
        let own = &self.tasks[self.index];
        let units = u64::from(own.units);
        let unit = own.draw.max(u64::from(least));
        Sums {
            slots: slots + units,
            energy: energy + units * unit,
        }
    }
}

// The slots that bring an amount.
fn slots_for(energy: u64, rate: u32) -> u64
    requires some { 1 ≤ rate }
    requires fits { energy + rate < 2 ^ 64 }
    ensures { result ≡ divide_up energy rate }
{
    let rate = u64::from(rate);
    // div_ceil brings the table of most rounds from 1.09 to 1.11 of the twin's instructions, and the bar is 1.10
    (energy + rate - 1) / rate
}

// The slots that the demand takes.
#[derive(Clone, Copy)]
struct TimeCurve<'a>(Subject<'a>);

impl Curve for TimeCurve<'_> {
    ghost value = { λ c w. time_curve c.0.tasks.now c.0.index w };

    ghost rises = { λ c. time_curve_rises c.0.tasks.now c.0.index c.0.within.0 c.0.sized c.0.timed };

    ghost positive = { λ c. time_curve_positive c.0.tasks.now c.0.index c.0.within.0 c.0.sized c.0.timed };

    fn at(&self, window: u32) -> u64 {
        self.0.demand(0, window).slots
    }
}

// The slots that the demand takes, or those that bring its energy, whichever are more.
#[derive(Clone, Copy)]
struct GreaterCurve<'a>(Subject<'a>);

impl Curve for GreaterCurve<'_> {
    ghost value = { λ c w. greater_curve c.0.rate c.0.tasks.now c.0.index w };

    ghost rises = { λ c. greater_curve_rises c.0.tasks.now c.0.index c.0.within.0 c.0.sized c.0.timed c.0.rate c.0.lawful.0 };

    ghost positive = { λ c. greater_curve_positive c.0.tasks.now c.0.index c.0.within.0 c.0.sized c.0.timed c.0.rate c.0.lawful.0 };

    fn at(&self, window: u32) -> u64 {
        let sums = self.0.demand(0, window);
        sums.slots.max(slots_for(sums.energy, self.0.rate))
    }
}

// The slots that bring the demand's energy, where a unit counts no less than what its slot brings.
#[derive(Clone, Copy)]
struct SafeCurve<'a>(Subject<'a>);

impl Curve for SafeCurve<'_> {
    ghost value = { λ c w. safe_curve c.0.rate c.0.tasks.now c.0.index w };

    ghost rises = { λ c. safe_curve_rises c.0.tasks.now c.0.index c.0.within.0 c.0.sized c.0.timed c.0.rate c.0.lawful.0 };

    ghost positive = { λ c. safe_curve_positive c.0.tasks.now c.0.index c.0.within.0 c.0.sized c.0.timed c.0.rate c.0.lawful.0 };

    fn at(&self, window: u32) -> u64 {
        let rate = self.0.rate;
        slots_for(self.0.demand(rate, window).energy, rate)
    }
}
