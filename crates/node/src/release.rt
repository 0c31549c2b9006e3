// When a job of a task may be released.
ghost use Rattle.std.specs.Prelude.{◌≡◌};
ghost use Rattle.model.specs.Releases.{too_early, job_fits};

use model::state::Line;
use model::task::Task;

// The last clock.
pub(crate) const CLOCK_END: u32 = 4_000_000_000;

// Whether a job keeps the limits of its task.
pub(crate) fn is_within(task: &Task, units: u16, draw: u64) -> bool
    ensures { result ≡ job_fits task.now units draw }
{
    (1..=task.units).contains(&units) && draw <= task.draw
}

// Whether less than a period has passed since the last release of a task.
pub(crate) fn is_early(clock: u32, task: &Task, line: Line) -> bool
    ensures { result ≡ too_early clock task.now line }
{
    match line {
        Line::Never => false,
        Line::Closed { released } | Line::Open { released, .. } => {
            u64::from(clock) < u64::from(released) + u64::from(task.period)
        }
    }
}
