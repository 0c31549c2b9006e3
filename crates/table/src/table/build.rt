// Making a table.
ghost use Rattle.std.specs.Prelude.{◌≡◌, ◌↔◌, IsTrue, MatchResult};
ghost use Rattle.model.specs.declared.refusal.Refusal.TheVariants.{OutsideLimits};
ghost use Rattle.model.specs.Tasks.{Sized, Timed};
ghost use Rattle.table.specs.Contents.{bare, extended};
ghost use Rattle.table.specs.Limits.{Allowed, TurnedAway, LawfulNode};
ghost use Rattle.table.specs.Tables.{contents_of};

use crate::name::Name;
use crate::table::Table;
use model::refusal::Refusal;
use model::task::Task;

fn in_limits(task: &Task) -> bool
    ensures { IsTrue result ↔ (Sized task.now × Timed task.now) }
{
    (1..=500).contains(&task.units)
        && u32::from(task.units) <= task.deadline
        && task.deadline <= task.period
        && task.period <= 100_000
}

impl Table {
    // The least table that there is, for a caller that lends one to be filled.
    pub fn empty() -> Table
        ensures { contents_of result ≡ bare 1 0 0 }
    {
        Table::new(1, 0, 0).unwrap()
    }

    // A table with no tasks, or a refusal of its numbers, which come one by one, as a node's record and callers have them.
    pub fn new(rate: u32, floor: u64, cap: u64) -> Result<Table, Refusal>
        ensures { MatchResult result
            (λ t. LawfulNode rate floor cap × (contents_of t ≡ bare rate floor cap))
            (λ e. (LawfulNode rate floor cap → ⊥) × (e ≡ OutsideLimits)) }
    {
        if !(1..=1_000_000_000).contains(&rate) || floor > cap || cap > 8_000_000_000 {
            return Err(Refusal::OutsideLimits);
        }
        Ok(Table {
            rate,
            floor,
            cap,
            tasks: [Task::default(); 16],
            names: [Name::NONE; 16],
            count: 0,
        })
    }

    // The table with one task more, less urgent than the others, or a refusal of that task.
    pub fn with_task(self, task: Task, name: &[u8]) -> Result<Table, Refusal>
        ensures { MatchResult result
            (λ t. Allowed (contents_of self) task name.now × (contents_of t ≡ extended (contents_of self) task name.now))
            (λ e. TurnedAway (contents_of self) task name.now e) }
    {
        if !(1..=12).contains(&name.len()) {
            return Err(Refusal::WrongLength);
        }
        let at = self.count;
        if at >= 16 {
            return Err(Refusal::TooManyTasks);
        }
        if !in_limits(&task) {
            return Err(Refusal::OutsideLimits);
        }
        if task.draw > self.cap - self.floor {
            return Err(Refusal::DrawAboveRoom);
        }
        if !Name::is_graphic(name) {
            return Err(Refusal::WrongName);
        }
        let mut longer = self;
        longer.tasks[at] = task;
        longer.names[at] = Name::keep(name);
        longer.count = at + 1;
        Ok(longer)
    }
}
