// The table of process records, lent to every request as a slice. `step` is the step of the definitions, for every kind of request; it is
// the one place of a program that looks for refusals. `open`, `update_call`, `scan_call` and `turn` say the same of one kind. They are
// those of `any_table` where records are kept as they are.
ghost use Rattle.std.specs.Prelude.{◌≡◌, replicate};
ghost use Rattle.snapshot.specs.Days.{open_for, update_call, scan_call, turn_of};
ghost use Rattle.unbounded.specs.Processes.{zero_process};
ghost use Rattle.unbounded.specs.Days.{stepped};
ghost use Rattle.requests.specs.Requests.{item_of, page_after};
ghost use Rattle.memory.specs.Tables.{state_of, outcome_of};

use crate::any_table;
use snapshot::{Day, Outcome, Request};
use unbounded::Process;
use unbounded_turns::records;

// Eight records in which every number is 0, for a caller to lend from.
pub fn blank() -> [Process; 8]
    ensures { result ≡ replicate 8 zero_process }
{
    let p = records::zero();
    [p; 8]
}

// An opening for k processes: refused, or every record is set to 0.
pub fn open(day: Day, ps: &mut [Process], k: u32) -> Outcome
    ensures value { result ≡ outcome_of (stepped (state_of day ps.old) (open_for k)) }
    ensures ps_after { ps.new ≡ (stepped (state_of day ps.old) (open_for k)).state.table }
{
    any_table::open(day, ps, k)
}

// A request on the table, with a page list that only a turn uses: refused, or done.
#[tactic(auto, using(crate::proofs::Plain::plain_left))]
pub fn step(day: Day, ps: &mut [Process], x: Request, page: &mut [u32]) -> Outcome
    ensures value { result ≡ outcome_of (stepped (state_of day ps.old) (item_of page.old x)) }
    ensures ps_after { ps.new ≡ (stepped (state_of day ps.old) (item_of page.old x)).state.table }
    ensures page_after { page.new ≡
        page_after page.old (stepped (state_of day ps.old) (item_of page.old x)) x }
{
    any_table::step(day, ps, x, page)
}

// An update call (document 01: an entry call) of process d, with its word.
pub fn update_call(day: Day, ps: &mut [Process], d: u32, word: u32) -> Outcome
    ensures value { result ≡ outcome_of (stepped (state_of day ps.old) (update_call d word)) }
    ensures ps_after { ps.new ≡ (stepped (state_of day ps.old) (update_call d word)).state.table }
{
    any_table::ask_call(day, ps, Request::Update { process: d, word })
}

// A scan call (document 01: a page call) of process d.
pub fn scan_call(day: Day, ps: &mut [Process], d: u32) -> Outcome
    ensures value { result ≡ outcome_of (stepped (state_of day ps.old) (scan_call d)) }
    ensures ps_after { ps.new ≡ (stepped (state_of day ps.old) (scan_call d)).state.table }
{
    any_table::ask_call(day, ps, Request::Scan(d))
}

// A turn of process d, which lends a page list.
pub fn turn(day: Day, ps: &mut [Process], d: u32, page: &mut [u32]) -> Outcome
    ensures value { result ≡ outcome_of (stepped (state_of day ps.old) (turn_of d page.old)) }
    ensures ps_after { ps.new ≡ (stepped (state_of day ps.old) (turn_of d page.old)).state.table }
    ensures page_after { page.new ≡ (stepped (state_of day ps.old) (turn_of d page.old)).page }
{
    step(day, ps, Request::Turn(d), page)
}
