// From a request to a run: the table is loaded and assessed.
use crate::file::read_file;
use crate::request::{Request, Single, Source};
use crate::run::{Plan, run};
use analysis::assess::assess;
use either::Either;
use harvest::converter::Converter;
use harvest::pair::Pair;
use harvest::steady::Steady;
use harvest::trace::Trace;
use input::MOST_BYTES;
use std::process::ExitCode;
use table::load::load;
use table::table::Table;

// Loads the table and runs the node over its harvester.
pub(crate) fn serve(rt: &HostRuntime, request: &Request) -> anyhow::Result<ExitCode> {
    let Some(table) = table_of(rt, request.table.as_str())? else {
        return Ok(ExitCode::FAILURE);
    };
    let plan = Plan {
        table,
        verdict: assess(&table),
        level: request.level,
        quiet: request.quiet,
    };
    run_over(rt, &plan, &request.source)
}

// The table of a file, or none where it is missing or refused, which is told. A call of its own, so that a run has the stack that this took.
#[inline(never)]
fn table_of(rt: &HostRuntime, path: &str) -> anyhow::Result<Option<Table>> {
    let mut buffer = [0u8; MOST_BYTES];
    // told here, since an error of anyhow would cut a long path short
    let file = match read_file(rt, path, &mut buffer) {
        Ok(file) => file,
        Err(trouble) => {
            eprintln!(rt; "noderun: {path}: {trouble}")?;
            return Ok(None);
        }
    };
    let mut table = Table::empty();
    if let Err(fault) = load(file, &mut table) {
        println!(rt; "{fault}")?;
        return Ok(None);
    }
    Ok(Some(table))
}

// A call for each form of harvester, as a run has its type. A call of its own, so that a refused file needs no stack for a run.
#[inline(never)]
fn run_over(rt: &HostRuntime, plan: &Plan, source: &Source) -> anyhow::Result<ExitCode> {
    match source {
        // by its own type, as the choice of an `Either` in every slot takes longer
        Source::Alone(single) => match harvester_of(single) {
            Either::Left(steady) => run(rt, plan, steady),
            Either::Right(trace) => run(rt, plan, trace),
        },
        Source::Converter { factor, single } => {
            run(rt, plan, Converter::new(harvester_of(single), *factor))
        }
        Source::Pair { amount, samples } => {
            let first = Steady::new(*amount);
            let second = Trace::new(samples.as_slice());
            run(rt, plan, Pair::new(first, second))
        }
    }
}

fn harvester_of(single: &Single) -> Either<Steady, Trace<'_>> {
    match single {
        Single::Steady { amount } => Either::Left(Steady::new(*amount)),
        Single::Trace { samples } => Either::Right(Trace::new(samples.as_slice())),
    }
}
