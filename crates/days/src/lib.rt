// A file's records with their outcomes: what was read is asked of a table of eight process records, of which as many are lent as the
// day has processes. Any program over day files calls these between its own input and output.
#![tactic(auto)]

ghost use Rattle.std.specs.Prelude.{◌≡◌};
ghost use Rattle.days.specs.Asking.{is_none, request_in, request_of, wanted, lent_to, unasked_of, asked_outcome, asked_table, asked_page};

use dayfile::Reading;
use memory::table;
use snapshot::{Answer, Day, Outcome, Request};
use unbounded::Process;

// The request that was found, if one was.
pub fn request_in(x: Reading) -> Option<Request>
    ensures { result ≡ request_in x }
{
    match x {
        Reading::Found { record, .. } => Some(record),
        Reading::End => None,
        Reading::Refused(_) => None,
    }
}

// Whether none was.
pub fn is_none(x: Reading) -> bool
    ensures { result ≡ is_none x }
{
    !matches!(x, Reading::Found { .. })
}

// The request that was found; where none was, one that is not asked.
pub fn request_of(x: Reading) -> Request
    ensures { result ≡ request_of x }
{
    match x {
        Reading::Found { record, .. } => record,
        Reading::End => Request::Turn(0),
        Reading::Refused(_) => Request::Turn(0),
    }
}

// How many records a request wants: an opening's count, else the day's.
fn wanted(day: Day, x: Request) -> u32
    ensures { result ≡ wanted day x }
{
    match x {
        Request::Open(count) => count,
        _ => day.count,
    }
}

// How many records of the table are lent to a request: as many as it wants, and at most eight.
pub fn lent_to(day: Day, x: Request) -> usize
    ensures { result ≡ lent_to day x }
{
    wanted(day, x).min(8) as usize
}

// The same of what was read.
pub fn lent_for(day: Day, x: Reading) -> usize
    ensures { result ≡ lent_to day (request_of x) }
{
    lent_to(day, request_of(x))
}

// Nothing is asked: the day stays.
pub fn unasked(day: Day) -> Outcome
    ensures { result ≡ unasked_of day }
{
    Outcome {
        day,
        answer: Answer::Read,
    }
}

// What was read is asked of the table; where no record was found, nothing.
pub fn asked(day: Day, ps: &mut [Process], x: Reading, page: &mut [u32]) -> Outcome
    ensures value { result ≡ asked_outcome day ps.old page.old x }
    ensures ps_after { ps.new ≡ asked_table day ps.old page.old x }
    ensures page_after { page.new ≡ asked_page day ps.old page.old x }
{
    let Some(request) = request_in(x) else {
        return unasked(day);
    };
    table::step(day, ps, request, page)
}
