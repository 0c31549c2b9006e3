// What the arguments ask for.
use crate::numbers::number;
use anyhow::{Context, bail, ensure};
use arrayvec::ArrayVec;
use std::alloc::Global;
use std::env;

// The most samples that a list has.
const MOST_SAMPLES: usize = 64;

type Samples = ArrayVec<u32, MOST_SAMPLES>;

// No Option, since no request is the wish for help.
#[derive(Drop)]
pub(crate) enum Asked {
    Help,
    Run(Request),
}

// A run: its table file, the level at the start, the source of energy, and whether slots are left out.
#[derive(Drop)]
pub(crate) struct Request {
    pub(crate) quiet: bool,
    pub(crate) table: String,
    pub(crate) level: u64,
    pub(crate) source: Source,
}

// What brings the energy.
#[derive(Drop)]
pub(crate) enum Source {
    Alone(Single),
    Converter { factor: u16, single: Single },
    Pair { amount: u32, samples: Samples },
}

#[derive(Drop)]
pub(crate) enum Single {
    Steady { amount: u32 },
    Trace { samples: Samples },
}

// What the arguments of this run ask for.
pub(crate) fn asked_for(rt: &HostRuntime) -> anyhow::Result<Asked> {
    let heap = rt.alloc();
    let arguments: Vec<String> = env::args(rt)?.skip(1).collect(heap)?;
    let words: Vec<&str> = arguments.iter().map(String::as_str).collect(heap)?;
    match words.as_slice() {
        ["--help"] => Ok(Asked::Help),
        ["--quiet", rest @ ..] => Ok(Asked::Run(request_of(heap, true, rest)?)),
        words => Ok(Asked::Run(request_of(heap, false, words)?)),
    }
}

fn request_of(heap: Global, quiet: bool, words: &[&str]) -> anyhow::Result<Request> {
    match words {
        [table, level, source @ ..] if source.len() >= 2 => Ok(Request {
            quiet,
            table: String::from_str(heap, table)?,
            level: number(level).context("the level is no number that fits")?,
            source: Source::try_from(source)?,
        }),
        _ => bail!("arguments are missing"),
    }
}

impl TryFrom<&[&str]> for Source {
    type Error = anyhow::Error;

    fn try_from(words: &[&str]) -> anyhow::Result<Source> {
        match words {
            ["converter", factor, single @ ..] => Ok(Source::Converter {
                factor: number(factor).context("the factor is no number that fits")?,
                single: Single::try_from(single)?,
            }),
            ["pair", "steady", amount, "trace", list] => Ok(Source::Pair {
                amount: amount_of(amount)?,
                samples: samples_of(list)?,
            }),
            ["pair", ..] => bail!("a pair is `pair steady N trace LIST`"),
            single => Ok(Source::Alone(Single::try_from(single)?)),
        }
    }
}

impl TryFrom<&[&str]> for Single {
    type Error = anyhow::Error;

    fn try_from(words: &[&str]) -> anyhow::Result<Single> {
        match words {
            ["steady", amount] => Ok(Single::Steady {
                amount: amount_of(amount)?,
            }),
            ["trace", list] => Ok(Single::Trace {
                samples: samples_of(list)?,
            }),
            _ => bail!("that is no harvester"),
        }
    }
}

// An amount, which stands in three places.
fn amount_of(word: &str) -> anyhow::Result<u32> {
    number(word).context("an amount is no number that fits")
}

// The numbers of a list, joined by commas; `none` has no number.
fn samples_of(list: &str) -> anyhow::Result<Samples> {
    let mut samples = Samples::new();
    if list == "none" {
        return Ok(samples);
    }
    for word in list.split(',') {
        ensure!(
            !samples.is_full(),
            "a list has at most {MOST_SAMPLES} numbers"
        );
        samples.push(amount_of(word)?);
    }
    Ok(samples)
}
