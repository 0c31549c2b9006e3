// A run: the start, the orders of standard input, and the report.
use crate::orders::ask_of;
use crate::show::{show_order, show_report, show_verdict};
use analysis::verdict::Verdict;
use anyhow::Context;
use harvest::harvester::Harvester;
use model::order::{Ask, Order};
use model::refusal::Refusal;
use node::node::Node;
use std::io::{BufRead, BufReader, BufWriter, Write};
use std::process::ExitCode;
use table::table::Table;

// The most lines that a run reads.
const MOST_LINES: u32 = 4096;

// What a run starts from, besides its harvester.
#[derive(Clone, Copy)]
pub(crate) struct Plan {
    pub(crate) table: Table,
    pub(crate) verdict: Verdict,
    pub(crate) level: u64,
    pub(crate) quiet: bool,
}

// Starts a node, does the orders and reports. The run is a success if the node started and every line was an order.
pub(crate) fn run<H: Harvester + Drop>(
    rt: &HostRuntime,
    plan: &Plan,
    harvester: H,
) -> anyhow::Result<ExitCode> {
    let mut out = BufWriter::new(rt.alloc(), rt.stdout())?;
    if !plan.quiet {
        show_verdict(&mut out, &plan.verdict)?;
    }
    let node = match Node::start(plan.table, plan.level, harvester) {
        Ok(node) => node,
        Err(refused) => {
            writeln!(out, "start refused {}", refused.refusal)?;
            out.flush()?;
            return Ok(ExitCode::FAILURE);
        }
    };
    let mut session = Session {
        node,
        quiet: plan.quiet,
        out,
        orders: 0,
    };
    let status = session.do_lines(rt)?;
    let report = session.node.report();
    show_report(&mut session.out, plan, &report)?;
    session.out.flush()?;
    Ok(status)
}

// A node at work, and where its orders are told with their outcomes.
#[derive(Drop)]
struct Session<H, W> {
    node: Node<H>,
    quiet: bool,
    out: W,
    // how many orders came so far
    orders: u32,
}

impl<H: Harvester, W: Write> Session<H, W> {
    // Does the order of each line. It is a success if every line was an order or empty.
    fn do_lines(&mut self, rt: &HostRuntime) -> anyhow::Result<ExitCode> {
        let mut status = ExitCode::SUCCESS;
        let lines = BufReader::new(rt.alloc(), rt.stdin())?.split(rt.alloc(), b'\n');
        for (number, line) in (1u32..).zip(lines) {
            let line = line?;
            if number > MOST_LINES {
                eprintln!(rt; "noderun: line {number}: more than {MOST_LINES} lines")?;
                return Ok(ExitCode::FAILURE);
            }
            if line.is_empty() {
                continue;
            }
            match ask_of(line.as_slice()) {
                Some(ask) => self.obey(ask)?,
                None => {
                    eprintln!(rt;
                        "noderun: line {number}: no order, or a number that does not fit"
                    )?;
                    status = ExitCode::FAILURE;
                }
            }
        }
        Ok(status)
    }

    // Does one order, and prints it with its outcome and its slots. A match on its form, which was read and is printed too.
    fn obey(&mut self, ask: Ask) -> anyhow::Result<()> {
        // counted here, since a line that is no order has no number among the orders
        self.orders = self.orders.saturating_add(1);
        let number = self.orders;
        if self.quiet {
            let mut orders = [Order { ask, mark: 0 }];
            let _ = self.node.drive(&mut orders);
            show_order(&mut self.out, number, ask, orders[0].mark)?;
            return Ok(());
        }
        let refused = match ask {
            Ask::Release { task, units, draw } => self.node.release(task, units, draw).err(),
            Ask::Slots { count } => self.node.slots_refused(count),
        };
        let mark = refused.map_or(0, Refusal::number);
        show_order(&mut self.out, number, ask, mark)?;
        if let (Ask::Slots { count }, None) = (ask, refused) {
            self.show_slots(count)?;
        }
        Ok(())
    }

    // Runs some slots that are not refused, and prints each.
    fn show_slots(&mut self, count: u32) -> anyhow::Result<()> {
        let start = u64::from(self.node.report().clock);
        for clock in start..start + u64::from(count) {
            let answer = self.node.slot().context("a slot is refused")?;
            writeln!(self.out, "slot {clock} {answer}")?;
        }
        Ok(())
    }
}
