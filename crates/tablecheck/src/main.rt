// tablecheck: reads a table file from standard input and writes its listing.
#![tactic(auto)]

use anyhow::{Context, bail};
use input::{MOST_BYTES, finish, read_front};
use listing::list::listing;
use std::env;
use std::io::Write;
use std::process::ExitCode;

const HELP: &str = "usage: tablecheck < TABLE

Reads a table file (at most 1,024 bytes) from standard input and writes its listing
to standard output: for each task a line with its name, its time bound, its greater
bound, its safe bound, the rounds of the search for the safe bound, and ok or late;
a bound that is absent is a minus sign. The last line is `accepted` or `not accepted`.
A file that is refused gives the one line `refused N at B`: the refusal's number, and
the byte where the refused record starts.

The exit status is 0 if the table is accepted, and 1 if it is not accepted, if the file
is refused, or if there is trouble with the input or the output.
";

fn main(rt: HostRuntime) -> anyhow::Result<ExitCode> {
    finish(&rt, "tablecheck", answer(&rt))
}

// Does what the arguments ask for; they are not kept, so that no list of them can run out of memory.
fn answer(rt: &HostRuntime) -> anyhow::Result<ExitCode> {
    let mut arguments = env::args(rt)?.skip(1);
    let Some(word) = arguments.next() else {
        return check(rt);
    };
    if word.as_str() != "--help" || arguments.next().is_some() {
        bail!("unknown arguments; try tablecheck --help");
    }
    rt.print(HELP)?;
    Ok(ExitCode::SUCCESS)
}

// Lists the table on standard input.
fn check(rt: &HostRuntime) -> anyhow::Result<ExitCode> {
    let mut buffer = [0u8; MOST_BYTES];
    let file = read_front(&mut rt.stdin(), &mut buffer)?;
    // lent, as `listing` allocates nothing
    let mut output = [0u8; 1024];
    let listed = listing(file, &mut output).context("the listing does not fit")?;
    rt.write_all(&output[..listed.length])?;
    Ok(if listed.accepted {
        ExitCode::SUCCESS
    } else {
        ExitCode::FAILURE
    })
}
