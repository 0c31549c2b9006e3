// One task of a table, as the analysis and the node see it.

#[derive(Clone, Copy, Debug, Default, PartialEq, Eq)]
pub struct Task {
    // processor units of a full job
    pub units: u16,
    // least number of slots between two releases
    pub period: u32,
    // slots from a job's release to its deadline
    pub deadline: u32,
    // energy that a unit draws at most
    pub draw: u64,
}
