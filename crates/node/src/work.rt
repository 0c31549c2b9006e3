// The unit of a slot, in place.
ghost use Rattle.std.specs.Prelude.{◌≡◌, ◌<◌, ◌≤◌};
ghost use Rattle.model.specs.Slots.{runs, activity_of};
ghost use Rattle.model.specs.Releases.{clock_end};
ghost use Rattle.node.specs.Turns.{job_said, turn_said, progress_of, Workable, worked_state};

use crate::turn::{Job, Turn};
use model::slot::{Activity, Progress};
use model::state::{Line, State};

// One unit of a job; its last one closes the job and notes the response. Here and below limits are asked for, as a state without its table has none.
fn run_unit(job: &Job, state: &mut State) -> Progress
    requires place { job.now.index < 16 }
    requires since { job.now.since ≤ state.old.clock }
    requires counts { (state.old.clock < clock_end) × ((state.old.closed ≤ 68000000000) × (state.old.finished ≤ 68000000000)) }
    ensures state { state.new ≡ worked_state (runs (job_said job.now)) state.old }
    ensures progress { result ≡ progress_of (job_said job.now) state.old.clock }
{
    if job.left > 1 {
        state.lines[job.index] = Line::Open {
            released: job.since,
            left: job.left - 1,
            draw: job.draw,
        };
        return Progress::GoesOn;
    }
    let response = state.clock + 1 - job.since;
    state.lines[job.index] = Line::Closed {
        released: job.since,
    };
    state.longest[job.index] = state.longest[job.index].max(Some(response));
    state.closed += 1;
    state.finished += 1;
    Progress::Finished { response }
}

// What the slot is used for, done in place.
pub(crate) fn work(turn: Turn, state: &mut State) -> Activity
    requires turn { Workable turn state.old }
    requires counts { (state.old.clock < clock_end) × ((state.old.closed ≤ 68000000000) × (state.old.finished ≤ 68000000000)) }
    ensures state { state.new ≡ worked_state (turn_said turn) state.old }
    ensures activity { result ≡ activity_of (turn_said turn) state.old.clock }
{
    match turn {
        Turn::Idle => Activity::Idle,
        Turn::Waits { job } => Activity::Waited { task: job.number() },
        Turn::Runs { job } => {
            let progress = run_unit(&job, state);
            Activity::Ran {
                task: job.number(),
                progress,
            }
        }
    }
}
