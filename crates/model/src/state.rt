// What a node holds besides its table and its harvester.

// What a node knows of one task.
#[derive(Clone, Copy, Debug, PartialEq, Eq)]
pub enum Line {
    // no job was ever released
    Never,
    // no job is open; the last one was released at this clock
    Closed { released: u32 },
    // a job is open: the clock of its release, the units left of it, and what each draws
    Open { released: u32, left: u16, draw: u64 },
}

#[derive(Clone, Copy, Debug, PartialEq, Eq)]
pub struct State {
    // slots already run
    pub clock: u32,
    // energy in the store
    pub level: u64,
    // jobs released, closed, and finished by their deadline
    pub released: u64,
    pub closed: u64,
    pub finished: u64,
    // a line for each task, and the longest response of its finished jobs: arrays, since a node has a fixed memory, and two, as a report copies one
    pub lines: [Line; 16],
    pub longest: [Option<u32>; 16],
}
