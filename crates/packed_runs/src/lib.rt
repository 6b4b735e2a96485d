// A run of turns on a table of packed records, its answers as numbers; crate `memory_runs` does the same on a table of records.
#![tactic(auto)]

ghost use Rattle.std.specs.Prelude.{◌≡◌};
ghost use Rattle.runs.specs.Plans.{run_outcome_of};
ghost use Rattle.packed_runs.specs.Runs.{give_in, told_in, run_in};

use runs::{RunOutcome, Turns};
use snapshot::Day;

// Turns on packed records, told by the numbers of their replies. A turn is a request by numbers, as the library's own: so the compiler
// has one caller of the step (crate `packed_requests`).
pub struct Numbered;

impl Turns for Numbered {
    type Record = [u32; 369];

    type Told = [u32; 7];

    ghost give = { give_in };

    ghost told = { told_in };

    fn turn(day: Day, t: &mut [[u32; 369]], d: u32, page: &mut [u32]) -> (Day, [u32; 7]) {
        let r = packed_requests::asked(day, t, 4, d, 0, page);
        (numbers::day_in(r), <[u32; 7]>::from(r))
    }
}

// A run of the turns of a list: refused, or each is given, one after the other.
#[tactic(auto, unfolding(crate::specs::Runs::run_in))]
pub fn run(
    day: Day,
    t: &mut [[u32; 369]],
    list: &[u32],
    replies: &mut [[u32; 7]],
    pages: &mut [u32],
) -> RunOutcome
    ensures value { result ≡ run_outcome_of
        (run_in day t.old list.now replies.old pages.old) }
    ensures t_after { t.new ≡
        (run_in day t.old list.now replies.old pages.old).state.table }
    ensures replies_after { replies.new ≡
        (run_in day t.old list.now replies.old pages.old).answers }
    ensures pages_after { pages.new ≡
        (run_in day t.old list.now replies.old pages.old).pages }
{
    runs::run::<Numbered>(day, t, list, replies, pages)
}
