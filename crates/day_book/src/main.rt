// The day's book: it reads a day file of at most 2,097,152 bytes from standard input and prints its finished operations in one
// order, one line each, then `end` and how many there are. A longer file, or a read or a write that fails, ends the run with a
// message on standard error.
#![tactic(auto)]

ghost use Rattle.std.specs.Prelude.{◌≡◌, ◌≤◌, is_ok, length};
ghost use Rattle.texts.specs.Laying.{Laid};
ghost use Rattle.streams.specs.Input.{incoming};
ghost use Rattle.day_book.specs.Runs.{LinesFit, book_of, written_of, IsBookRun};

use streams::input::Input;
use streams::output::Unsent;
use streams::{input, output};

// The bytes of the longest day file, and one more: a file that fills the buffer is too long.
const INPUT: usize = 2097153;

// A day has at most 65,535 events, and a finished operation takes three of them at least, its call and two turns.
const PLACES: usize = 21845;

// Room for the line of each place, 121 bytes, and for the end: 272, daytext's LONGEST.
const OUTPUT: usize = 2643517;

// Lays the text of the book of a whole day file, and answers how many bytes it takes. With PLACES places it is not refused: no book
// has more.
fn lay(rt: &HostRuntime, bytes: &[u8], places: &mut [[u32; 11]], out: &mut [u8]) -> usize
    requires { LinesFit (length places.old) (length out.old) }
    ensures { Laid out.old 0 (book_of (length places.old) bytes.now) out.new result }
{
    let booking = book::write(bytes, places);
    match booking {
        Ok(booked) => booklines::lay_book(places, booked.places, booked.processes as usize, out),
        Err(_) => {
            let _ = eprintln!(rt; "day_book: the book has more than 21845 places");
            0
        }
    }
}

// Lays what is to be written of an input; a read that failed was told where it failed.
fn lay_input(
    rt: &HostRuntime,
    input: Input,
    bytes: &[u8],
    places: &mut [[u32; 11]],
    out: &mut [u8],
) -> usize
    requires { (input.at ≡ 0) × (input.end ≤ length bytes.now) × LinesFit (length places.old) (length out.old) }
    ensures { Laid out.old 0
        (written_of (length places.old) (incoming input bytes.now)) out.new result }
{
    if input.failed {
        return 0;
    }
    if !input.last {
        let _ = eprintln!(rt; "day_book: the day file has more than 2097152 bytes");
        return 0;
    }
    lay(rt, &bytes[..input.end], places, out)
}

// Reads the whole input, and writes the text of its book.
fn run(
    rt: &HostRuntime,
    bytes: &mut [u8; INPUT],
    places: &mut [[u32; 11]; PLACES],
    out: &mut [u8; OUTPUT],
) -> Result<(), Unsent>
    ensures { IsBookRun 21845 bytes.new out.old out.new (is_ok result) }
{
    let input = input::whole(
        &mut rt.stdin(),
        bytes,
        b"day_book: cannot read standard input",
        &mut rt.stderr(),
    );
    let n = lay_input(rt, input, bytes, places, out);
    output::write_out(rt, &out[..n], b"day_book: cannot write standard output")
}

// The run, with room for the longest day file and the book of any.
fn main(rt: HostRuntime) {
    let mut bytes = [0u8; INPUT];
    let mut places = [[0u32; 11]; PLACES];
    let mut out = [0u8; OUTPUT];
    let _ = run(&rt, &mut bytes, &mut places, &mut out);
}
