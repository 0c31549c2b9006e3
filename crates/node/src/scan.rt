// The lines of a node beside its tasks: the most urgent open job, and the jobs that are due.
ghost use Rattle.std.specs.Prelude.{◌≡◌, ◌+◌, ◌≤◌, length};
ghost use Rattle.model.specs.Slots.{candidate as most_urgent, expired, abandoned};
ghost use Rattle.node.specs.Turns.{candidate_said};
ghost use Rattle.node.specs.Ahead.{NoneDueBefore};

use crate::turn::Job;
use model::state::Line;
use model::task::Task;

// The open job of the smallest index, the indices counted from a first one. Here and below tasks and lines come as two slices, since a struct
// of both would be needed twice: one that lends the lines and one that lets them be written.
pub(crate) fn candidate(first: usize, tasks: &[Task], lines: &[Line]) -> Option<Job>
    requires { (first + length tasks.now ≤ 16) × (length lines.now ≤ length tasks.now) }
    ensures { candidate_said result ≡ most_urgent first tasks.now lines.now }
{
    // over the lines alone, since a zip walks both slices in every slot; the task is looked up once
    'open: for (i, line) in lines.iter().enumerate() {
        if let Line::Open {
            released,
            left,
            draw,
        } = *line
        {
            return Some(Job {
                index: first + i,
                task: tasks[i],
                since: released,
                left,
                draw,
            });
        }
    }
    None
}

// The clock at which a job of a task is due.
pub(crate) fn due_clock(released: u32, task: &Task) -> u64
    ensures { result ≡ released + task.now.deadline }
{
    u64::from(released) + u64::from(task.deadline)
}

// Abandons each open job whose deadline is this clock, and says how many these were. Few slots call it, so it stays out of their loop.
#[inline(never)]
pub(crate) fn expire(clock: u32, tasks: &[Task], lines: &mut [Line]) -> u8
    requires { (length tasks.now ≤ length lines.old) × (length tasks.now ≤ 16) }
    ensures lines { lines.new ≡ expired clock tasks.now lines.old }
    ensures count { result ≡ abandoned clock tasks.now lines.old }
{
    let mut count = 0u8;
    // a line is reached by its index, since nothing is proved of what is written through a zip of `iter_mut`
    'each: for (i, task) in tasks.iter().enumerate() {
        if let Line::Open { released, .. } = lines[i] {
            if due_clock(released, task) == u64::from(clock) {
                lines[i] = Line::Closed { released };
                count += 1;
            }
        }
    }
    count
}

// A clock before which no open job is due, the latest such clock. Few slots call it, so it stays out of their loop.
#[inline(never)]
pub(crate) fn earliest(tasks: &[Task], lines: &[Line]) -> u64
    ensures { NoneDueBefore result tasks.now lines.now }
{
    let mut due = u64::MAX;
    'each: for (task, line) in tasks.iter().zip(lines) {
        if let Line::Open { released, .. } = *line {
            due = due.min(due_clock(released, task));
        }
    }
    due
}
