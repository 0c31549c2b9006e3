// The table of a node: its numbers and 0 to 16 tasks, the most urgent first, with every limit in the type.
ghost use Rattle.std.specs.Prelude.{◌-◌, ◌≤◌};
ghost use Rattle.model.specs.Tasks.{Sized, Timed, Payable, LawfulRate, LawfulStore, Each};
ghost use Rattle.table.specs.Names.{Short, Graphic, EachName};

use crate::name::Name;
use model::task::Task;

// Two arrays and a count, since `tasks` lends the tasks as one slice, and a table is Copy and allocates nothing.
#[derive(Clone, Copy, Debug, PartialEq, Eq)]
pub struct Table {
    rate: u32,
    floor: u64,
    cap: u64,
    tasks: [Task; 16],
    names: [Name; 16],
    count: usize,
    ghost rated: { LawfulRate rate },
    ghost stored: { LawfulStore floor cap },
    ghost few: { count ≤ 16 },
    ghost sized: { Each Sized tasks count },
    ghost timed: { Each Timed tasks count },
    ghost payable: { Each (Payable (cap - floor)) tasks count },
    ghost short: { EachName Short names count },
    ghost graphic: { EachName Graphic names count },
}

pub mod build;
pub mod view;
