// The lines that a run prints.
use crate::run::Plan;
use analysis::verdict::Verdict;
use model::order::{Ask, Report};
use std::io::Write;
use std::{fmt, io};

pub(crate) fn show_verdict<W: Write>(out: &mut W, verdict: &Verdict) -> io::Result<()> {
    if verdict.accepted {
        writeln!(out, "table accepted")
    } else {
        writeln!(out, "table not accepted")
    }
}

// The order and its outcome: a mark of 0, or the number of a refusal. In the pieces of `Display` the writer's buffer would be cut at
// other bytes, and trouble told in between would stand elsewhere where both go to one file.
pub(crate) fn show_order<W: Write>(out: &mut W, number: u32, ask: Ask, mark: u8) -> io::Result<()> {
    match ask {
        Ask::Release { task, units, draw } => {
            write!(out, "order {number} release {task} {units} {draw} ")?;
        }
        Ask::Slots { count } => write!(out, "order {number} slots {count} ")?,
    }
    match mark {
        0 => writeln!(out, "done"),
        _ => writeln!(out, "refused {mark}"),
    }
}

// A number of slots, or a minus sign where there is none.
#[derive(Clone, Copy)]
struct Slots(Option<u32>);

impl fmt::Display for Slots {
    fn fmt<W: fmt::Write>(&self, f: &mut fmt::Formatter<W>) -> fmt::Result {
        match self.0 {
            Some(slots) => write!(f, "{slots}"),
            None => f.write_str("-"),
        }
    }
}

// The state at the end, and for each task its longest response and its safe bound.
pub(crate) fn show_report<W: Write>(out: &mut W, plan: &Plan, report: &Report) -> io::Result<()> {
    let Report {
        clock,
        level,
        released,
        closed,
        finished,
        longest,
    } = report;
    write!(out, "clock {clock} level {level} released {released} ")?;
    writeln!(out, "closed {closed} finished {finished}")?;
    let Plan { table, verdict, .. } = plan;
    let lines = table.names().iter().zip(longest).zip(&verdict.bounds);
    for (number, ((name, longest), bounds)) in (1u8..).zip(lines) {
        write!(out, "task {number} ")?;
        // a name is bytes, and only text can be formatted
        out.write_all(name.as_bytes())?;
        let longest = Slots(*longest);
        let bound = Slots(bounds.safe.window);
        writeln!(out, " longest {longest} bound {bound}")?;
    }
    Ok(())
}
