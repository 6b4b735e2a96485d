// The output: bytes are written to a file in as many writes as they take; `what` begins the message of one that fails.
ghost use Rattle.std.specs.Prelude.{◌<◌, is_ok, length};
ghost use Rattle.streams.specs.System.{AtMost, IsSent};

use crate::system;
use crate::system::Stop;
use std::io;
use std::io::{ErrorKind, Write};

// Not all bytes were written; a write that failed was told where it failed.
#[derive(Clone, Copy)]
pub struct Unsent;

// One write of bytes of which there is at least one: a write that takes none is one that failed.
fn write_some<W: Write, M: Write>(
    file: &mut W,
    rest: &[u8],
    what: &[u8],
    messages: &mut M,
) -> Result<usize, Stop>
    requires { 0 < length rest.now }
    ensures { AtMost (length rest.now) result }
{
    let put = file.write(rest);
    if let Ok(0) = put {
        system::fail(what, io::Error::from(ErrorKind::WriteZero), messages);
        return Err(Stop::Failed);
    }
    system::meaning(put, rest, what, messages)
}

// Writes bytes to a file, and answers whether all were taken. A write that was interrupted is made again; nothing says how often that can
// be, so the writes are counted up to a number that they never reach.
pub fn write_to<W: Write, M: Write>(
    file: &mut W,
    out: &[u8],
    what: &[u8],
    messages: &mut M,
) -> Result<(), Unsent>
    ensures { IsSent out.now (is_ok result) }
{
    let mut rest = out;
    for _ in 0..u64::MAX {
        if rest.is_empty() {
            break;
        }
        match write_some(file, rest, what, messages) {
            Ok(k) => rest = &rest[k..],
            Err(Stop::Interrupted) => {}
            Err(Stop::Failed) => return Err(Unsent),
        }
    }
    if rest.is_empty() { Ok(()) } else { Err(Unsent) }
}

// The same to standard output.
pub fn write_out(rt: &HostRuntime, out: &[u8], what: &[u8]) -> Result<(), Unsent>
    ensures { IsSent out.now (is_ok result) }
{
    write_to(&mut rt.stdout(), out, what, &mut rt.stderr())
}
