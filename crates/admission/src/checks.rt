// Refusals, in document 01's order: each check goes through the list of causes that its definition is.
ghost use Rattle.std.specs.Prelude.{◌≡◌, ◌≤◌};
ghost use Rattle.snapshot.specs.Refusals.{outside};
ghost use Rattle.admission.specs.Checks.{as_option, is_short, most_for};
ghost use Rattle.admission.specs.Checks.{opening_refusal, first_refusal, last_refusal};

use snapshot::{Day, Refusal, Request, number_in};
use table_surveys::Survey;

// Whether k is outside low to high.
fn is_outside(low: u32, high: u32, k: u32) -> bool
    ensures { result ≡ outside low high k }
{
    k < low || high < k
}

// The most turns of the task that a call sets.
fn most_for(s: Survey, x: Request) -> u32
    ensures value { result ≡ most_for s x }
    ensures upper_bound { result ≤ 131070 }
{
    match x {
        Request::Update { .. } => s.scan_most as u32 + s.update_more as u32,
        _ => s.scan_most as u32,
    }
}

// Whether a page list of that many words is too short for a call or a turn.
fn is_short(day: Day, words: usize, x: Request) -> bool
    ensures { result ≡ is_short day words x }
{
    !requests::is_call(x) && words < 2 * (day.count as usize)
}

// The refusals of an opening for k processes: 10, 1, 6.
pub fn opening_check(day: Day, size: usize, k: u32) -> Result<(), Refusal>
    ensures { as_option result ≡ opening_refusal day size k }
{
    if day.count != 0 {
        return Err(Refusal::OpenState);
    }
    if is_outside(1, 8, k) {
        return Err(Refusal::CountRange);
    }
    if size != k as usize {
        return Err(Refusal::LentSize);
    }
    Ok(())
}

// The first refusals of a call or a turn, by the day, the size of the table, the survey and how many words the page list has:
// 10, 6, 11, 2.
pub fn first_check(
    day: Day,
    size: usize,
    s: Survey,
    x: Request,
    words: usize,
) -> Result<(), Refusal>
    ensures { as_option result ≡ first_refusal day size s x words }
{
    if day.count == 0 {
        return Err(Refusal::OpenState);
    }
    if size != day.count as usize || is_short(day, words, x) {
        return Err(Refusal::LentSize);
    }
    if table_surveys::cannot_arise(day.count, s) {
        return Err(Refusal::CannotArise);
    }
    if is_outside(1, day.count, number_in(x)) {
        return Err(Refusal::ProcessRange);
    }
    Ok(())
}

// The last, by whether the process is idle: 3 and 5 of a call, 4 of a turn.
pub fn last_check(s: Survey, x: Request, idle: bool) -> Result<(), Refusal>
    ensures { as_option result ≡ last_refusal s x idle }
{
    if requests::is_call(x) {
        if !idle {
            return Err(Refusal::Busy);
        }
        if table_surveys::is_full(s.end, most_for(s, x)) {
            return Err(Refusal::DayFull);
        }
        return Ok(());
    }
    if idle {
        return Err(Refusal::Idle);
    }
    Ok(())
}
