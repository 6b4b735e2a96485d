// Mends a damaged day file: it reads one of at most 6,291,456 bytes from standard input, writes the records that are kept to standard
// output, and tells on standard error what was dropped, one line a drop. A longer file, or a read or a write that fails, ends the run with
// a message on standard error; of a file that did not come whole nothing is written.
#![tactic(auto)]

ghost use Rattle.std.specs.Prelude.{◌≡◌, true, ◌*◌, ◌≤◌, length, take};
ghost use Rattle.snapshot.specs.Requests.{blank_day};
ghost use Rattle.packed_rows.specs.Rows.{LongRows};
ghost use Rattle.packed_days.specs.Boxes.{box_in};
ghost use Rattle.dayfile.specs.Pieces.{pieces};
ghost use Rattle.mending.specs.Mending.{judged, parts_of};
ghost use Rattle.mending.specs.Judging.{HasNext};
ghost use Rattle.mendlines.specs.DropText.{longest_drop, rows_text};
ghost use Rattle.streams.specs.Input.{incoming};
ghost use Rattle.day_mend.specs.Runs.{Tells, IsWritten, Writes, IsPassed, parts_written, IsMendRun};

use mender::Progress;
use snapshot::Day;
use streams::input::Input;
use streams::{input, output};

// The bytes of the longest day file, and one more: a file that fills the buffer is too long.
const INPUT: usize = 6291457;

// How many pieces of a file are done before what they come to is written.
const PIECES: usize = 1024;

// Room for the records that are kept of so many pieces, ten bytes each.
const ROOM: usize = 10240;

// Room for as many lines, 82 bytes each.
const LINES: usize = 83968;

// Room for what so many pieces come to: the bytes that are kept, the rows of the drops, and the lines of these.
#[derive(Drop)]
struct Buffers {
    kept: [u8; ROOM],
    rows: [[u64; 3]; PIECES],
    lines: [u8; LINES],
}

// Whether standard output took all that was written, and whether every drop could be told. Two flags, since neither says the other, and
// one theorem speaks of each (`day_mend_written` and `day_mend_told`, proofs/Written).
#[derive(Clone, Copy)]
struct Writing {
    went: bool,
    told: bool,
}

// How far a file has come: the day, the place of the next byte, and how the writes went, as in Writing.
#[derive(Clone, Copy)]
struct Stand {
    day: Day,
    at: usize,
    wrote: Writing,
}

// Nothing was to be written yet, so that all was taken.
const ALL: Writing = Writing {
    went: true,
    told: true,
};

// Tells the drops of the first `count` rows. Once one could not be told no more are, so that what is told is a beginning of the list.
fn tell(rt: &HostRuntime, telling: bool, rows: &[[u64; 3]], count: usize, lines: &mut [u8]) -> bool
    requires { (count ≤ length rows.now) × (longest_drop * count ≤ length lines.old) }
    ensures { Tells telling (rows_text (take count rows.now)) result }
{
    if !telling {
        return false;
    }
    let n = mendlines::lay_rows(&rows[..count], lines);
    let sent = output::write_to(
        &mut rt.stderr(),
        &lines[..n],
        b"day_mend: cannot write standard error",
        &mut rt.stderr(),
    );
    sent.is_ok()
}

// Writes what is kept, and tells what is dropped. A drop that cannot be told does not hold up the file.
fn write_pass(rt: &HostRuntime, s: Progress, telling: bool, buffers: &mut Buffers) -> Writing
    requires { (s.kept ≤ 10240) × (s.drops ≤ 1024) }
    ensures { IsWritten (take s.kept buffers.old.kept) (rows_text (take s.drops buffers.old.rows)) telling result.went result.told }
{
    let kept = &buffers.kept[..s.kept];
    match output::write_out(rt, kept, b"day_mend: cannot write standard output") {
        Ok(()) => Writing {
            went: true,
            told: tell(rt, telling, &buffers.rows, s.drops, &mut buffers.lines),
        },
        Err(_) => Writing {
            went: false,
            told: telling,
        },
    }
}

// Mends the next pieces of a file, and writes what they come to.
fn pass_on(
    rt: &HostRuntime,
    s: Stand,
    bytes: &[u8],
    t: &mut [[u32; 369]],
    page: &mut [u32],
    buffers: &mut Buffers,
) -> Stand
    requires { HasNext s.at bytes.now t.old }
    ensures { IsPassed bytes.now s t.old page.old result t.new page.new }
{
    let from = Progress {
        day: s.day,
        at: s.at,
        kept: 0,
        drops: 0,
    };
    let p = mender::pass(
        from,
        PIECES,
        bytes,
        t,
        page,
        &mut buffers.kept,
        &mut buffers.rows,
    );
    let wrote = write_pass(rt, p, s.wrote.told, buffers);
    Stand {
        day: p.day,
        at: p.at,
        wrote,
    }
}

// Mends a file, some pieces at a time, on a table and a page list.
fn passes(
    rt: &HostRuntime,
    bytes: &[u8],
    t: &mut [[u32; 369]],
    page: &mut [u32],
    buffers: &mut Buffers,
) -> Writing
    requires { (length t.old ≡ 8) × LongRows t.old }
    ensures { Writes 0 true (judged (box_in blank_day t.old page.old) (pieces bytes.now))
        result.went result.told }
{
    let mut s = Stand {
        day: snapshot::blank(),
        at: 0,
        wrote: ALL,
    };
    // A loop on a condition: no index is counted by hand, since where the next piece begins is in what was read.
    while s.wrote.went && s.at < bytes.len() {
        s = pass_on(rt, s, bytes, t, page, buffers);
    }
    s.wrote
}

// Mends a file from a blank day on.
fn mend(rt: &HostRuntime, bytes: &[u8], buffers: &mut Buffers) -> Writing
    ensures { Writes 0 true (parts_of bytes.now) result.went result.told }
{
    let mut t = [[0u32; 369]; 8];
    let mut page = [0u32; 16];
    passes(rt, bytes, &mut t, &mut page, buffers)
}

// Mends an input that came whole; a read that failed was told where it failed.
fn mend_input(rt: &HostRuntime, input: Input, bytes: &[u8], buffers: &mut Buffers) -> Writing
    requires { (input.at ≡ 0) × (input.end ≤ length bytes.now) }
    ensures { Writes 0 true (parts_written (incoming input bytes.now)) result.went result.told }
{
    if input.failed {
        return ALL;
    }
    if !input.last {
        let _ = eprintln!(rt; "day_mend: the day file has more than 6291456 bytes");
        return ALL;
    }
    mend(rt, &bytes[..input.end], buffers)
}

// Reads the whole input, and mends it.
fn run(rt: &HostRuntime, bytes: &mut [u8; INPUT], buffers: &mut Buffers) -> Writing
    ensures { IsMendRun bytes.new result.went result.told }
{
    let input = input::whole(
        &mut rt.stdin(),
        bytes,
        b"day_mend: cannot read standard input",
        &mut rt.stderr(),
    );
    mend_input(rt, input, bytes, buffers)
}

// The run, with room for the longest day file.
fn main(rt: HostRuntime) {
    let mut bytes = [0u8; INPUT];
    let mut buffers = Buffers {
        kept: [0; ROOM],
        rows: [[0; 3]; PIECES],
        lines: [0; LINES],
    };
    run(&rt, &mut bytes, &mut buffers);
}
