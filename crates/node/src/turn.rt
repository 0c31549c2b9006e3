// What a slot is used for.
ghost use Rattle.std.specs.Prelude.{◌≡◌, ◌+◌, ◌<◌};
ghost use Rattle.model.specs.Slots.{drawn};

use model::task::Task;

// An open job: its task and that task's index, the clock of its release, the units left of it, and what each draws.
#[derive(Clone, Copy, Debug, PartialEq, Eq)]
pub(crate) struct Job {
    pub(crate) index: usize,
    pub(crate) task: Task,
    pub(crate) since: u32,
    pub(crate) left: u16,
    pub(crate) draw: u64,
}

impl Job {
    // The number of the job's task, from 1.
    pub(crate) fn number(&self) -> u8
        requires { self.now.index < 16 }
        ensures { result ≡ self.now.index + 1 }
    {
        // below 16, so nothing is lost
        self.index as u8 + 1
    }
}

// The most urgent open job runs, or the node waits until a unit of it is paid for.
#[derive(Clone, Copy, Debug, PartialEq, Eq)]
pub(crate) enum Turn {
    Idle,
    Waits { job: Job },
    Runs { job: Job },
}

impl Turn {
    ghost use Rattle.node.specs.Turns.{turn_said, open_from, turn_job};

    // What the turn draws from the store.
    pub(crate) fn draw(&self) -> u64
        ensures { result ≡ drawn (turn_said self.now) }
    {
        match self {
            Turn::Runs { job } => job.draw,
            Turn::Idle | Turn::Waits { .. } => 0,
        }
    }

    // The index of the job that the turn is about, or the number of tasks.
    pub(crate) fn first_open(&self, count: usize) -> usize
        ensures { result ≡ open_from count (turn_job self.now) }
    {
        match self {
            Turn::Idle => count,
            Turn::Runs { job } | Turn::Waits { job } => job.index,
        }
    }
}
