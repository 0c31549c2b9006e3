// noderun: runs a node of a table by orders from standard input, and prints what happened.
#![tactic(auto)]

mod file;
mod numbers;
mod orders;
mod request;
mod run;
mod serve;
mod show;

use crate::request::{Asked, asked_for};
use crate::serve::serve;
use anyhow::anyhow;
use input::finish;
use std::process::ExitCode;

const HELP: &str = "usage: noderun [--quiet] TABLE LEVEL HARVESTER < ORDERS

Starts a node of the table file TABLE at the energy LEVEL over a harvester, does the
orders of standard input, one on a line, and prints what happened: the verdict on the
table, each order with its outcome, each slot, and a report. HARVESTER is one of

  steady N                      N in every slot
  trace LIST                    the numbers of LIST in turn, as 3,0,12; or none
  converter F steady N          F/256 of what the harvester behind it brings
  converter F trace LIST
  pair steady N trace LIST      what both bring together

A list has at most 64 numbers, and an F above 256 counts as 256.

An order is `release TASK UNITS DRAW`, with the task's number, or `slots N`. At most
4,096 lines are read, of at most 200 bytes each; empty ones are passed over.
With --quiet only the orders and the report are printed.

The exit status is 0 if the table was loaded, the node started and every line was an
order, done or refused; else 1. Trouble is told on standard error.
";

fn main(rt: HostRuntime) -> anyhow::Result<ExitCode> {
    finish(&rt, "noderun", answer(&rt))
}

// Does what the arguments ask for.
fn answer(rt: &HostRuntime) -> anyhow::Result<ExitCode> {
    let asked = asked_for(rt).map_err(|trouble| anyhow!("{trouble}; try noderun --help"))?;
    match asked {
        Asked::Help => {
            rt.print(HELP)?;
            Ok(ExitCode::SUCCESS)
        }
        Asked::Run(request) => serve(rt, &request),
    }
}
