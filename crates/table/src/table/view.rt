// Reading what a table holds.
ghost use Rattle.std.specs.Prelude.{◌≡◌, ◌<◌, ◌≤◌, [], length, map, slice_index_or, All, MatchOption};
ghost use Rattle.model.specs.Tasks.{LawfulRate, LawfulStore, LawfulTasks};
ghost use Rattle.table.specs.Names.{name_bytes, Short};
ghost use Rattle.table.specs.Tables.{task_list, name_list, room_of};

use crate::name::Name;
use crate::table::Table;
use model::task::Task;

impl Table {
    // What a slot surely brings.
    pub fn rate(&self) -> u32
        ensures value { result ≡ self.now.rate }
        ensures limits { LawfulRate result }
    {
        self.rate
    }

    // The level that no draw may pass below.
    pub fn floor(&self) -> u64
        ensures value { result ≡ self.now.floor }
        ensures limits { LawfulStore result self.now.cap }
    {
        self.floor
    }

    // The level that the store cannot pass.
    pub fn cap(&self) -> u64
        ensures value { result ≡ self.now.cap }
        ensures limits { LawfulStore self.now.floor result }
    {
        self.cap
    }

    // The tasks, the most urgent first.
    pub fn tasks(&self) -> &[Task]
        ensures value { result.now ≡ task_list self.now }
        ensures limits { LawfulTasks (room_of self.now) result.now }
    {
        &self.tasks[..self.count]
    }

    // The names of the tasks, in the order of the tasks.
    pub fn names(&self) -> &[Name]
        ensures value { map name_bytes result.now ≡ name_list self.now }
        ensures len { length result.now ≡ length (task_list self.now) }
        ensures short { All (λ n. Short (name_bytes n)) result.now }
    {
        &self.names[..self.count]
    }

    // The name of the task at an index.
    pub fn name(&self, index: usize) -> Option<Name>
        ensures { MatchOption result (length (task_list self.now) ≤ index) (λ n.
            (index < length (name_list self.now)) × (name_bytes n ≡ slice_index_or (name_list self.now) index []) × Short (name_bytes n)) }
    {
        self.names().get(index).copied()
    }
}
