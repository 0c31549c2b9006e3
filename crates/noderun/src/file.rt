// Reading the front of a file.
ghost use Rattle.std.specs.Prelude.{◌≤◌, length, IfOk};

use input::read_front;
use std::fs::File;
use std::io;

// Reads the front of a file into a buffer, and answers the part that it filled.
pub(crate) fn read_file<'a>(
    rt: &HostRuntime,
    path: &str,
    buffer: &'a mut [u8],
) -> io::Result<&'a [u8]>
    ensures { IfOk result (λ front. length front.now ≤ length buffer.old) }
{
    read_front(&mut File::open(rt, path)?, buffer)
}
