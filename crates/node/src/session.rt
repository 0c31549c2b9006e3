// A whole run of a new node: start, orders, report.
ghost use Rattle.std.specs.Prelude.{◌≡◌, ◌≤◌, Ok, Err};
ghost use Rattle.model.specs.Windows.{Accepted};
ghost use Rattle.model.specs.Energy.{LawfulLevel};
ghost use Rattle.table.specs.Tables.{setup_of, task_list};
ghost use Rattle.node.specs.Marks.{Unmarked};
ghost use Rattle.node.specs.Sessions.{Session};
ghost use Rattle.node.specs.Starts.{IsNotStarted};

use crate::node::Node;
use harvest::harvester::Harvester;
use model::order::{Order, Report};
use model::refusal::Refusal;
use table::table::Table;

// Starts a node, drives it by orders and reports. No order of a node that was started is refused for a low promise, and no job
// of an accepted table is late.
pub fn run_orders<H: Harvester + Drop>(
    table: Table,
    level: u64,
    harvester: H,
    orders: &mut [Order],
) -> Result<Report, Refusal>
    ensures cases { elim result [
      | Err e ↦ IsNotStarted (setup_of table) (H.Harvester.promised harvester) level e × (orders.new ≡ orders.old)
      | Ok report ↦ (table.rate ≤ H.Harvester.promised harvester) × Unmarked 9 orders.new
          × (Accepted table.rate (task_list table) → report.closed ≡ report.finished)
    ] }
    ensures session { elim result [
      | Err e ↦ Unit {0}
      | Ok report ↦ LawfulLevel (setup_of table) level
          × Session H.Harvester.coming H.Harvester.taken (setup_of table) (H.Harvester.promised harvester) harvester level
          orders.old orders.new report
    ] }
{
    let mut node = Node::start(table, level, harvester)?;
    let _ = node.drive(orders);
    Ok(node.report())
}
