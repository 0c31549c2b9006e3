// What a node keeps from slot to slot so that most slots look at few lines.
ghost use Rattle.std.specs.Prelude.{◌≡◌, ◌≤◌, length};
ghost use Rattle.model.specs.Slots.{expired, abandoned};

use crate::scan::{earliest, expire};
use model::state::Line;
use model::task::Task;

#[derive(Clone, Copy, Debug, PartialEq, Eq)]
pub(crate) struct Ahead {
    // no job is open before this index
    pub(crate) first: usize,
    // no open job is due before this clock
    pub(crate) due: u64,
}

impl Ahead {
    ghost use Rattle.node.specs.Ahead.{LooksAhead};

    // Abandons each open job whose deadline is this clock, and says how many these were; mostly there is none, and no line is looked at.
    pub(crate) fn pass_deadlines(&mut self, clock: u32, tasks: &[Task], lines: &mut [Line]) -> u8
        requires sizes { (length tasks.now ≤ length lines.old) × (length tasks.now ≤ 16) }
        requires ahead { LooksAhead self.old tasks.now lines.old }
        ensures lines { lines.new ≡ expired clock tasks.now lines.old }
        ensures count { result ≡ abandoned clock tasks.now lines.old }
        ensures ahead { LooksAhead self.new tasks.now lines.new }
    {
        if u64::from(clock) < self.due {
            return 0;
        }
        let tasks = &tasks[self.first..];
        let count = expire(clock, tasks, &mut lines[self.first..]);
        self.due = earliest(tasks, &lines[self.first..]);
        count
    }
}
