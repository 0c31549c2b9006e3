// What the programs share: reading an input into a buffer, and the end of a run.
#![tactic(auto)]

ghost use Rattle.std.specs.Prelude.{◌≡◌, ◌<◌, ◌≤◌, length, take, Ok, IfOk, OnErr};
ghost use Rattle.std.specs.Io.KnownBytes.{Consumes, IsAtEnd};

use std::io;
use std::io::Read;
use std::process::ExitCode;

// The most bytes that the programs read of a table file.
pub const MOST_BYTES: usize = 1024;

// Reads until the input ends or the buffer is full, and answers how many bytes came.
pub fn fill<R: Read>(input: &mut R, buffer: &mut [u8]) -> io::Result<usize>
    ensures fits { IfOk result (λ n. n ≤ length buffer.old) }
    ensures bytes { IfOk result (λ n. Consumes (R.Read.remaining input.old) (R.Read.remaining input.new) (take n buffer.new)) }
    ensures whole { IfOk result (λ n. n < length buffer.old → IsAtEnd (R.Read.remaining input.new)) }
{
    // counted here, since no method of `Read` fills a buffer, tells how far, and allocates nothing
    let mut len = 0;
    while len < buffer.len() {
        let n = input.read(&mut buffer[len..])?;
        if n == 0 {
            return Ok(len);
        }
        len += n;
    }
    Ok(len)
}

// Reads the front of an input into a buffer, and answers the part that it filled.
pub fn read_front<'a, R: Read>(input: &mut R, buffer: &'a mut [u8]) -> io::Result<&'a [u8]>
    ensures fits { IfOk result (λ front. length front.now ≤ length buffer.old) }
    ensures bytes { IfOk result (λ front. Consumes (R.Read.remaining input.old) (R.Read.remaining input.new) front.now) }
    ensures whole { IfOk result (λ front. length front.now < length buffer.old → IsAtEnd (R.Read.remaining input.new)) }
{
    let len = fill(input, buffer)?;
    Ok(&buffer[..len])
}

// The end of a program's run: trouble is told on standard error, after the program's name.
pub fn finish(
    rt: &impl Eprint,
    program: &str,
    run: anyhow::Result<ExitCode>,
) -> anyhow::Result<ExitCode>
    ensures done { IfOk run (λ code. result ≡ Ok code) }
    ensures trouble { OnErr run (IfOk result (λ code. code ≡ ExitCode.FAILURE)) }
{
    run.or_else(|trouble| {
        eprintln!(rt; "{program}: {trouble}")?;
        Ok(ExitCode::FAILURE)
    })
}
