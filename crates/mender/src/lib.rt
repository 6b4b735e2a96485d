// Mending a damaged day file: it is read from end to end, and each piece of it is kept or dropped. What is kept goes into one lent room,
// and a row for each drop into another: its first byte, its byte count and the number of its refusal.
#![tactic(auto)]

ghost use Rattle.std.specs.Prelude.{◌≡◌, not, map, ◌≤◌, length};
ghost use Rattle.std.proofs.lemmas.List.Edits.{sets};
ghost use Rattle.packed_rows.specs.Rows.{LongRows};
ghost use Rattle.mending.specs.Mending.{mended, dropped};
ghost use Rattle.mending.specs.Judging.{HasNext};
ghost use Rattle.mender.specs.Results.{row_of, lacks_room, mending_of, kept_with, rows_with};
ghost use Rattle.mender.specs.Passes.{blank_progress, stage, Steady, IsPass, IsPassUpTo, IsRun};

use snapshot::{Day, Refusal};

// How many bytes are kept, and how many pieces dropped.
#[derive(Clone, Copy, Debug, PartialEq, Eq)]
pub struct Mended {
    pub kept: usize,
    pub drops: usize,
}

// How far a file has come: the day, the place of the next byte, how many bytes are kept so far, and how many pieces dropped.
#[derive(Clone, Copy)]
pub struct Progress {
    pub day: Day,
    pub at: usize,
    pub kept: usize,
    pub drops: usize,
}

// The beginning of a file.
pub fn start() -> Progress
    ensures { result ≡ blank_progress }
{
    Progress {
        day: snapshot::blank(),
        at: 0,
        kept: 0,
        drops: 0,
    }
}

// Lays a part into a room from place `at` on, as far as the room goes. By index: with `copy_from_slice`, which was tried, the library asks
// for `memmove` beside `memcpy` and `memset`, of which the header says that they are all (tests/bindings).
fn lay<T: Copy>(part: &[T], room: &mut [T], at: usize)
    ensures { room.new ≡ sets room.old at part.now }
{
    let first = at.min(room.len());
    let fits = part.len().min(room.len() - first);
    for i in 0..fits {
        room[first + i] = part[i];
    }
}

// The next piece: it is judged, and kept or dropped.
fn lap(
    s: Progress,
    bytes: &[u8],
    t: &mut [[u32; 369]],
    page: &mut [u32],
    room: &mut [u8],
    rows: &mut [[u64; 3]],
) -> Progress
    requires { HasNext s.at bytes.now t.old × Steady s }
    ensures { IsPass bytes.now 1
        (stage s t.old page.old room.old rows.old)
        (stage result t.new page.new room.new rows.new) }
{
    let j = mending::judge(s.at, s.day, bytes, t, page);
    let end = s.at + j.span;
    if j.number == 0 {
        lay(&bytes[s.at..end], room, s.kept);
        return Progress {
            day: j.day,
            at: end,
            kept: s.kept + j.span,
            ..s
        };
    }
    lay(
        &[[s.at as u64, j.span as u64, j.number as u64]],
        rows,
        s.drops,
    );
    Progress {
        day: j.day,
        at: end,
        drops: s.drops + 1,
        ..s
    }
}

// The next pieces of a file, at most so many: what is kept of them is laid into the room, as far as it goes, and their drops into the rows.
pub fn pass(
    s: Progress,
    most: usize,
    bytes: &[u8],
    t: &mut [[u32; 369]],
    page: &mut [u32],
    room: &mut [u8],
    rows: &mut [[u64; 3]],
) -> Progress
    requires { (s.at ≤ length bytes.now) × (length t.old ≡ 8) × LongRows t.old × Steady s }
    ensures { IsPassUpTo bytes.now most
        (stage s t.old page.old room.old rows.old)
        (stage result t.new page.new room.new rows.new) }
{
    let mut p = s;
    for _i in 0..most {
        if bytes.len() <= p.at {
            break;
        }
        p = lap(p, bytes, t, page, room, rows);
    }
    p
}

// A whole file, from a blank day on.
fn run(bytes: &[u8], room: &mut [u8], rows: &mut [[u64; 3]]) -> Progress
    ensures run { IsRun bytes.now result }
    ensures room_after { room.new ≡ sets room.old 0 (mended bytes.now) }
    ensures rows_after { rows.new ≡ sets rows.old 0 (map row_of (dropped bytes.now)) }
{
    let mut t = [[0u32; 369]; 8];
    let mut page = [0u32; 16];
    pass(start(), bytes.len(), bytes, &mut t, &mut page, room, rows)
}

// Whether so many places are enough for what is kept, and so many rows for the drops. A pass that is lent none of either counts them,
// unless there are surely enough: each byte is kept or dropped, and a drop has two bytes at least, but the last one may have one.
fn has_room(bytes: &[u8], places: usize, rows: usize) -> bool
    ensures { result ≡ not (lacks_room bytes.now places rows) }
{
    if bytes.len() <= places && bytes.len() / 2 < rows {
        return true;
    }
    let counted = run(bytes, &mut [], &mut []);
    counted.kept <= places && counted.drops <= rows
}

// Mends a day file: lays the records that are kept into the room, and a row for each drop into the rows, each from the first place on,
// and answers how many there are of both. Later places stay as they are. Where either has too few places, both stay whole, and it is
// refused (12).
pub fn mend(bytes: &[u8], room: &mut [u8], rows: &mut [[u64; 3]]) -> Result<Mended, Refusal>
    ensures value { result ≡ mending_of bytes.now (length room.old) (length rows.old) }
    ensures room_after { room.new ≡ kept_with bytes.now room.old (length rows.old) }
    ensures rows_after { rows.new ≡ rows_with bytes.now (length room.old) rows.old }
{
    if !has_room(bytes, room.len(), rows.len()) {
        return Err(Refusal::RoomShort);
    }
    let done = run(bytes, room, rows);
    Ok(Mended {
        kept: done.kept,
        drops: done.drops,
    })
}
