// The input buffer: the bytes from `at` up to `end` are still to be read. `last` says that no more will come, and `failed` that
// this is because a read failed.
ghost use Rattle.std.specs.Prelude.{◌≡◌, ◌+◌, ◌-◌, ◌≤◌, ◌<◌, ◌^◌, length, take};
ghost use Rattle.streams.specs.System.{AtMost};
ghost use Rattle.streams.specs.Input.{Within, input_by, IsRefill, IsWhole};

use crate::system;
use crate::system::Stop;
use std::io::{Read, Write};

// Places, and no slice of the bytes: `refill` moves what is left, for which nothing of them may be lent. Both flags stay, since `refill`
// and `run` (laps) promise on each of their four values (what may not change), and neither has a value beside it.
#[derive(Clone, Copy)]
pub struct Input {
    pub at: usize,
    pub end: usize,
    pub last: bool,
    pub failed: bool,
}

// One read of a file into the bytes from `to` on, of which there is at least one, so that a read that gives nothing is the end of the
// file; `what` begins the message of one that fails.
fn read_at<R: Read, M: Write>(
    file: &mut R,
    bytes: &mut [u8],
    to: usize,
    what: &[u8],
    messages: &mut M,
) -> Result<usize, Stop>
    requires { to < length bytes.old }
    ensures at_most { AtMost (length bytes.old - to) result }
    ensures bytes_unchanged { take to bytes.new ≡ take to bytes.old }
{
    let room = &mut bytes[to..];
    let got = file.read(room);
    system::meaning(got, room, what, messages)
}

// The input once a read answered, where that many bytes were kept.
#[tactic(auto, unfolding(crate::specs::Input::input_by))]
fn input_by(kept: usize, got: Result<usize, Stop>) -> Input
    requires { AtMost (2 ^ 64 - 1 - kept) got }
    ensures { result ≡ input_by kept got }
{
    let (end, last, failed) = match got {
        Ok(n) => (kept + n, n == 0, false),
        Err(Stop::Interrupted) => (kept, false, false),
        Err(Stop::Failed) => (kept, true, true),
    };
    Input {
        at: 0,
        end,
        last,
        failed,
    }
}

// What is left moves to the front, and one read of a file fills up the rest; `what` begins the message of one that fails.
pub fn refill<R: Read, M: Write>(
    file: &mut R,
    bytes: &mut [u8],
    from: Input,
    what: &[u8],
    messages: &mut M,
) -> Input
    requires { Within from (length bytes.old) × (from.end - from.at < length bytes.old) }
    ensures { Within result (length bytes.new) × IsRefill from bytes.old result bytes.new }
{
    let kept = from.end - from.at;
    bytes.copy_within(from.at..from.end, 0);
    let got = read_at(file, bytes, kept, what, messages);
    input_by(kept, got)
}

// Reads a file until it ends, a read fails, or the buffer is full; `what` begins the message of a read that fails. A read that was
// interrupted is made again; nothing says how often that can be, so the reads are counted up to a number that they never reach.
pub fn whole<R: Read, M: Write>(
    file: &mut R,
    bytes: &mut [u8],
    what: &[u8],
    messages: &mut M,
) -> Input
    ensures { IsWhole result bytes.new }
{
    let mut input = Input {
        at: 0,
        end: 0,
        last: false,
        failed: false,
    };
    for _ in 0..u64::MAX {
        let end = input.end;
        if input.last || end >= bytes.len() {
            break;
        }
        let got = read_at(file, bytes, end, what, messages);
        input = input_by(end, got);
    }
    input
}
