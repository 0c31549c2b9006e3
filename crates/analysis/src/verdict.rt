// What the analysis says of a table: the bounds of each task, and whether the table is accepted.

// The least window that holds a task's demand, where there is one, and how often the curve was worked out to find it.
#[derive(Clone, Copy, Debug, Default, PartialEq, Eq)]
pub struct Bound {
    pub window: Option<u32>,
    pub rounds: u32,
}

// The bounds of one task: by time alone, by the greater of time and energy, and the safe one.
#[derive(Clone, Copy, Debug, Default, PartialEq, Eq)]
pub struct TaskBounds {
    pub time: Bound,
    pub greater: Bound,
    pub safe: Bound,
}

// The bounds of the first `count` tasks, and whether each of them has a safe one.
// An array with a count, since no list of a fixed memory is `Copy`.
#[derive(Clone, Copy, Debug, PartialEq, Eq)]
pub struct Verdict {
    pub bounds: [TaskBounds; 16],
    pub count: usize,
    pub accepted: bool,
}
