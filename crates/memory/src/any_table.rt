// Every request on a lent table of records, however they are kept. Of a record only what it needs is read: what refusal 11 looks at, the
// task, the register that is read, and the process's own record where a double collect ends. Only the record that changes is stored to.
ghost use Rattle.std.specs.Prelude.{◌≡◌, not, [], T};
ghost use Rattle.std.proofs.Math.Option.{none};
ghost use Rattle.snapshot.specs.Days.{open_for};
ghost use Rattle.snapshot.specs.declared.Request.TheVariants.{Open};
ghost use Rattle.requests.specs.Requests.{item_of, page_after, is_opening, is_call};
ghost use Rattle.admission.specs.Checks.{as_option};
ghost use Rattle.admission.specs.Outcomes.{accepted_outcome};
ghost use Rattle.unbounded.specs.Registers.{zero_register};
ghost use Rattle.unbounded.specs.Days.{stepped};
ghost use Rattle.unbounded_accesses.specs.Accesses.{is_ready, access_of, RoomFor};
ghost use Rattle.unbounded_tasks.specs.Tasks.{answer_by};
ghost use Rattle.unbounded_finds.specs.Finds.{nothing_found, page_by};
ghost use Rattle.unbounded_turns.specs.Steps.{state_by};
ghost use Rattle.process_records.specs.Forms.{kept, kept_at, stored_at, left_by};
ghost use Rattle.memory.specs.Tables.{state_of, outcome_of, refusal_in, accepted_in, RefusedBy};
ghost use Rattle.memory.specs.Turning.{TurnAt, read_at, found_at};
ghost use Rattle.memory.specs.Left.{table_left, stepped_on};

use crate::elements;
use admission::{checks, outcomes};
use process_records::Record;
use snapshot::{Day, Outcome, Refusal, Request};
use unbounded::Task;
use unbounded_accesses::accesses;
use unbounded_finds::finds;
use unbounded_surveys::surveys;
use unbounded_tasks::tasks;

// The refusal of a call or a turn, if any, where its page list has that many words.
fn plan<R: Record>(day: Day, t: &[R], x: Request, words: usize) -> Result<(), Refusal>
    requires { T (not (is_opening x)) }
    ensures { RefusedBy day (kept R.form t.now) x words (as_option result) }
{
    let before = surveys::survey_of(day);
    let s = elements::survey(t, before);
    checks::first_check(day, t.len(), s, x, words)?;
    let i = requests::index_in(x);
    let task = t[i].task();
    checks::last_check(s, x, tasks::is_idle(task))
}

// An accepted call.
pub fn call<R: Record>(day: Day, t: &mut [R], x: Request) -> Outcome
    requires { T (is_call x) × (refusal_in (state_of day (kept R.form t.old)) (item_of [] x) ≡ none) }
    ensures value { result ≡ outcome_of (accepted_in (state_of day (kept R.form t.old)) (item_of [] x)) }
    ensures t_after { t.new ≡
        left_by R.form t.old x (accepted_in (state_of day (kept R.form t.old)) (item_of [] x)).state.table }
{
    let a = accesses::call_access(day);
    let i = requests::index_in(x);
    t[i].begin(a, tasks::task_for(x));
    outcomes::called(day)
}

// The writing turn of record i, an update with task k that is ready: it reads no register.
fn write_turn<R: Record>(day: Day, t: &mut [R], i: usize, k: Task) -> Outcome
    requires { TurnAt day (kept R.form t.old) i k × T (is_ready k) }
    ensures value { result ≡ accepted_outcome day (answer_by (nothing_found 0) k) }
    ensures t_after { t.new ≡ stored_at R.form t.old i
        (state_by (access_of day k) zero_register (kept_at R.form t.old i) (nothing_found 0) k) }
{
    t[i].write(accesses::access_of(day, k), k);
    outcomes::accepted(day, tasks::answer(k, finds::nothing_found()))
}

// A reading turn of record i, with task k: one register is read.
fn read_turn<R: Record>(day: Day, t: &mut [R], i: usize, k: Task, page: &mut [u32]) -> Outcome
    requires { TurnAt day (kept R.form t.old) i k × T (not (is_ready k)) × RoomFor (access_of day k) page.old }
    ensures value { result ≡ accepted_outcome day (answer_by (found_at day (kept R.form t.old) i k) k) }
    ensures t_after { t.new ≡ stored_at R.form t.old i (state_by (access_of day k)
        (read_at day (kept R.form t.old) k) (kept_at R.form t.old i)
        (found_at day (kept R.form t.old) i k) k) }
    ensures page_after { page.new ≡
        page_by (access_of day k) (found_at day (kept R.form t.old) i k) k page.old }
{
    let a = accesses::access_of(day, k);
    let j = accesses::place_of(a);
    let r = t[j].register();
    let f = t[i].read(a, r, k);
    finds::lay_page(a, k, f, page);
    outcomes::accepted(day, tasks::answer(k, f))
}

// An accepted turn: a ready update writes, any other task reads one register.
pub fn turn_on<R: Record>(day: Day, t: &mut [R], x: Request, page: &mut [u32]) -> Outcome
    requires { T (not (is_opening x)) × T (not (is_call x))
        × (refusal_in (state_of day (kept R.form t.old)) (item_of page.old x) ≡ none) }
    ensures value { result ≡ outcome_of (accepted_in (state_of day (kept R.form t.old)) (item_of page.old x)) }
    ensures t_after { t.new ≡ left_by R.form t.old x
        (accepted_in (state_of day (kept R.form t.old)) (item_of page.old x)).state.table }
    ensures page_after { page.new ≡
        (accepted_in (state_of day (kept R.form t.old)) (item_of page.old x)).page }
{
    let i = requests::index_in(x);
    let k = t[i].task();
    if accesses::is_ready(k) {
        return write_turn(day, t, i, k);
    }
    read_turn(day, t, i, k, page)
}

// An opening for k processes: refused, or every record is set to 0.
pub fn open<R: Record>(day: Day, t: &mut [R], k: u32) -> Outcome
    ensures value { result ≡ outcome_of (stepped (state_of day (kept R.form t.old)) (open_for k)) }
    ensures t_after { t.new ≡
        table_left R.form t.old (Open k) (stepped (state_of day (kept R.form t.old)) (open_for k)) }
{
    if let Err(refusal) = checks::opening_check(day, t.len(), k) {
        return outcomes::refused(day, Err(refusal));
    }
    elements::clear_all(t);
    outcomes::opened(k)
}

// A request on the table, with a page list that only a turn uses: refused, or done.
pub fn step<R: Record>(day: Day, t: &mut [R], x: Request, page: &mut [u32]) -> Outcome
    ensures value { result ≡ outcome_of (stepped_on R.form day t.old x page.old) }
    ensures t_after { t.new ≡ table_left R.form t.old x (stepped_on R.form day t.old x page.old) }
    ensures page_after { page.new ≡ page_after page.old (stepped_on R.form day t.old x page.old) x }
{
    if requests::is_opening(x) {
        return open(day, t, snapshot::number_in(x));
    }
    if let Err(refusal) = plan(day, t, x, page.len()) {
        return outcomes::refused(day, Err(refusal));
    }
    if requests::is_call(x) {
        return call(day, t, x);
    }
    turn_on(day, t, x, page)
}

// A call, which lends no page list: refused, or done.
pub fn ask_call<R: Record>(day: Day, t: &mut [R], x: Request) -> Outcome
    requires { T (is_call x) }
    ensures value { result ≡ outcome_of (stepped_on R.form day t.old x []) }
    ensures t_after { t.new ≡ table_left R.form t.old x (stepped_on R.form day t.old x []) }
{
    if let Err(refusal) = plan(day, t, x, requests::no_words()) {
        return outcomes::refused(day, Err(refusal));
    }
    call(day, t, x)
}
