// Whether what stands in a damaged day file is kept or dropped: it is read, and run on a table of packed records.
#![tactic(auto)]

ghost use Rattle.std.specs.Prelude.{◌≡◌};
ghost use Rattle.packed_days.specs.Boxes.{box_in};
ghost use Rattle.mending.specs.Judging.{number_with, HasNext, IsJudged};

use dayfile::Reading;
use snapshot::Day;

// A piece that was judged: the day after it, how many bytes it has, and the number of the refusal by which it is dropped, 0 if it
// is kept: the number is that of a reply, which crosses to C.
#[derive(Clone, Copy)]
pub struct Judged {
    pub day: Day,
    pub span: usize,
    pub number: u32,
}

// The number of the refusal by which what was read is dropped, 0 if it is kept; of a record that was run it is the reply's.
fn number_of(x: Reading, replied: u32) -> u32
    ensures { result ≡ number_with x replied }
{
    match x {
        Reading::Found { record: _, next: _ } => replied,
        Reading::End => 0,
        Reading::Refused(k) => u32::from(k),
    }
}

// Reads what stands at a place, and runs it.
pub fn judge(at: usize, day: Day, bytes: &[u8], t: &mut [[u32; 369]], page: &mut [u32]) -> Judged
    requires { HasNext at bytes.now t.old }
    ensures { IsJudged at bytes.now (box_in day t.old page.old) result t.new page.new }
{
    let x = dayfile::read(&bytes[at..]);
    let span = dayfile::span(&bytes[at..], x);
    let r = packed_days::replied(day, t, x, page);
    Judged {
        day: numbers::day_in(r),
        span,
        number: number_of(x, r.refusal),
    }
}
