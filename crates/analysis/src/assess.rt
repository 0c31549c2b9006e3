// The bounds of every task of a table, and the verdict.
ghost use Rattle.std.specs.Prelude.{◌≡◌, ◌↔◌, true, All, IsSome, IsTrue, Decides};
ghost use Rattle.model.specs.Tasks.{LawfulRate, LawfulTasks};
ghost use Rattle.model.specs.OnTime.{MeetsDeadlines};
ghost use Rattle.model.specs.Setups.{OneSided};
ghost use Rattle.table.specs.Tables.{task_list, setup_of};
ghost use Rattle.analysis.specs.Verdicts.{VerdictOf, NoBoundsBehind};

use crate::curve::Subject;
use crate::verdict::{TaskBounds, Verdict};
use model::task::Task;
use table::table::Table;

// The tasks are accepted if each of them has a safe bound.
fn assess_tasks(rate: u32, tasks: &[Task]) -> Verdict
    requires rated { LawfulRate rate }
    requires lawful { LawfulTasks 8000000000 tasks.now }
    ensures verdict { VerdictOf rate tasks.now result }
    ensures rest { NoBoundsBehind tasks.now result }
{
    let mut bounds = [TaskBounds::default(); 16];
    for (index, place) in bounds[..tasks.len()].iter_mut().enumerate() {
        *place = Subject { rate, tasks, index }.bounds();
    }
    let accepted = all_safe(&bounds[..tasks.len()]);
    Verdict {
        bounds,
        count: tasks.len(),
        accepted,
    }
}

// Whether each of these tasks has a safe bound.
fn all_safe(bounds: &[TaskBounds]) -> bool
    ensures { IsTrue result ↔ All (λ b. IsSome b.safe.window) bounds.now }
{
    bounds.iter().all(|found| found.safe.window.is_some())
}

// The bounds of every task of a table, and whether the table is accepted: an accepted table is never late, and a one-sided table
// is accepted exactly if it never is.
pub fn assess(table: &Table) -> Verdict
    ensures verdict { VerdictOf table.now.rate (task_list table.now) result }
    ensures rest { NoBoundsBehind (task_list table.now) result }
    ensures on_time { result.accepted ≡ true → MeetsDeadlines (setup_of table.now) }
    ensures exact { OneSided (setup_of table.now) → Decides result.accepted (MeetsDeadlines (setup_of table.now)) }
{
    assess_tasks(table.rate(), table.tasks())
}
