// A file's records asked of a table of eight packed records, of which as many are lent as the day has processes. Functions over words
// need no proof along their compiled code, as those of `days` do, whose records are structs.
#![tactic(auto)]

ghost use Rattle.std.specs.Prelude.{◌≡◌, length};
ghost use Rattle.days.specs.Happenings.{outcome_in};
ghost use Rattle.packed_days.specs.Boxes.{box_in, IsAfter, IsReplied};
ghost use Rattle.packed_rows.specs.Rows.{LongRows};

use dayfile::Reading;
use numbers::ReplyNumbers;
use snapshot::{Day, Outcome};

// What was read is asked of the table; where no record was found, nothing.
pub fn asked(day: Day, t: &mut [[u32; 369]], x: Reading, page: &mut [u32]) -> Outcome
    requires { (length t.old ≡ 8) × LongRows t.old }
    ensures value { result ≡ outcome_in (box_in day t.old page.old) x }
    ensures after { IsAfter x (box_in day t.old page.old) result.day t.new page.new }
{
    let Some(request) = days::request_in(x) else {
        return days::unasked(day);
    };
    let n = days::lent_for(day, x);
    packed_table::step(day, &mut t[..n], request, page)
}

// The same, with the reply by numbers: asked as the library's own requests are. A twin that stays for its speed: with a second caller of
// `packed_table::step` beside `packed_requests::asked` each request through the library took 10 to 20 instructions more (measured for K7).
pub fn replied(day: Day, t: &mut [[u32; 369]], x: Reading, page: &mut [u32]) -> ReplyNumbers
    requires { (length t.old ≡ 8) × LongRows t.old }
    ensures { IsReplied x (box_in day t.old page.old) result t.new page.new }
{
    let Some(request) = days::request_in(x) else {
        return ReplyNumbers::from(days::unasked(day));
    };
    let n = days::lent_for(day, x);
    let q = numbers::request_numbers(request, 0);
    packed_requests::asked(day, &mut t[..n], q.kind, q.process, q.word, page)
}
