// A run of turns, whatever the method: when it is refused, how many turns it has, and which places of the two lent tables each
// turn takes. A method gives the turns, by an impl of `Turns`.
#![tactic(auto)]

ghost use Rattle.std.specs.Prelude.{ℕ, ◌+◌, ◌*◌, ◌≤◌, ◌<◌, ◌≡◌, List, length, get_or, set, take, drop, ltb, Ok, Err};
ghost use Rattle.snapshot.specs.Demand.{Result};
ghost use Rattle.snapshot.specs.Days.{State};
ghost use Rattle.snapshot.specs.Refusals.{first_cause};
ghost use Rattle.snapshot.specs.Values.{page_places};
ghost use Rattle.snapshot.specs.Runs.{is_cramped, run_causes};
ghost use Rattle.runs.specs.Plans.{plan_of, reached_at, outcome_at, laid_from, run_outcome_of};
ghost use Rattle.runs.specs.Given.{on, turn_at, run_by};

use snapshot::{Day, Refusal};

// What a run is to do that is not refused: how many turns it gives, and the places of a page.
#[derive(Clone, Copy)]
pub struct Plan {
    pub turns: usize,
    pub page: usize,
}

// How far a run has come: the day, the turns that were given, and the words of the page table that they took.
#[derive(Clone, Copy)]
pub struct Reached {
    pub day: Day,
    pub turns: usize,
    pub words: usize,
}

// The day after a run, and why the run was refused, if it was.
#[derive(Clone, Copy)]
pub struct RunOutcome {
    pub day: Day,
    pub check: Result<(), Refusal>,
}

// Whether there are fewer words than so many for each turn. The product may have more than 64 bits: it is taken of the lower
// 32 bits of the turns and of the upper ones, and compared so.
fn lacks_words(each: u32, turns: usize, words: usize) -> bool
    ensures { result ≡ ltb words (turns * each) }
{
    let wide = each as usize;
    let low = (turns % 4294967296) * wide;
    if words < low {
        return true;
    }
    (words - low) >> 32 < (turns >> 32) * wide
}

// Whether the answer table or the page table is too short. A value takes two words, so the words are too few if and only if half of
// them, rounded down, are fewer than the values.
fn is_cramped(values: u32, turns: usize, places: usize, words: usize) -> bool
    ensures { result ≡ is_cramped (page_places values) turns places words }
{
    if places < turns {
        return true;
    }
    lacks_words(values, turns, words >> 1)
}

// The plan of a run on a day and a table of so many records, or why it is refused: a page shows so many values, and there are so many
// turns, places in the answer table and words in the page table.
pub fn planned(
    day: Day,
    size: usize,
    values: u32,
    turns: usize,
    places: usize,
    words: usize,
) -> Result<Plan, Refusal>
    ensures { result ≡ plan_of (page_places values) turns
        (first_cause (run_causes day.count size (page_places values) turns places words)) }
{
    let n = day.count as usize;
    if n == 0 {
        return Err(Refusal::OpenState);
    }
    if size != n {
        return Err(Refusal::LentSize);
    }
    if is_cramped(values, turns, places, words) {
        return Err(Refusal::TableShort);
    }
    Ok(Plan {
        turns,
        page: 2 * (values as usize),
    })
}

// Before the first turn.
pub fn begin(day: Day) -> Reached
    ensures { result ≡ reached_at day 0 0 }
{
    Reached {
        day,
        turns: 0,
        words: 0,
    }
}

// Whether there is another turn.
pub fn goes(at: Reached, plan: Plan) -> bool
    ensures { result ≡ ltb at.turns plan.turns }
{
    at.turns < plan.turns
}

// The process whose turn is next.
pub fn process_at(list: &[u32], at: Reached) -> u32
    requires { at.turns < length list.now }
    ensures { result ≡ get_or list.now at.turns 0 }
{
    let i = at.turns;
    list[i]
}

// Where the words of the next turn end.
pub fn end_of(at: Reached, plan: Plan) -> usize
    requires { at.words + plan.page < 18446744073709551616 }
    ensures { result ≡ at.words + plan.page }
{
    at.words + plan.page
}

// After a turn that left the day so.
pub fn next(at: Reached, plan: Plan, day: Day) -> Reached
    requires { (at.turns < plan.turns) × (at.words + plan.page < 18446744073709551616) }
    ensures { result ≡ reached_at day (at.turns + 1) (at.words + plan.page) }
{
    Reached {
        day,
        turns: at.turns + 1,
        words: at.words + plan.page,
    }
}

// The end of a run, and of one that is refused: it leaves the day.
pub fn end(at: Reached) -> RunOutcome
    ensures { result ≡ outcome_at at.day (Ok tt) }
{
    RunOutcome {
        day: at.day,
        check: Ok(()),
    }
}

pub fn refused(day: Day, k: Refusal) -> RunOutcome
    ensures { result ≡ outcome_at day (Err k) }
{
    RunOutcome { day, check: Err(k) }
}

// How a method gives the turns of a run: on a table of its records, each told to an answer table.
pub trait Turns {
    type Record;

    type Told: Copy;

    // What a turn of a process comes to that is lent a page list, and what is told of that.
    ghost give: { State Self.Record → (process : ℕ) → (page : List ℕ) → Result (State Self.Record) };

    ghost told: { Result (State Self.Record) → Self.Told };

    fn turn(day: Day, t: &mut [Self::Record], d: u32, page: &mut [u32]) -> (Day, Self::Told)
        ensures day_after { result.0 ≡ (give (on day t.old) d page.old).state.day }
        ensures value { result.1 ≡ told (give (on day t.old) d page.old) }
        ensures t_after { t.new ≡ (give (on day t.old) d page.old).state.table }
        ensures page_after { page.new ≡ (give (on day t.old) d page.old).page };
}

// The next turn, of process d: it is lent its own words of the page table.
fn turn_at<M: Turns>(
    at: Reached,
    plan: Plan,
    t: &mut [M::Record],
    d: u32,
    pages: &mut [u32],
) -> (Day, M::Told)
    requires { at.words + plan.page ≤ length pages.old }
    ensures day_after { result.0 ≡ (turn_at M.give at plan t.old d pages.old).state.day }
    ensures value { result.1 ≡ M.told (turn_at M.give at plan t.old d pages.old) }
    ensures t_after { t.new ≡ (turn_at M.give at plan t.old d pages.old).state.table }
    ensures pages_after { pages.new ≡
        laid_from at.words plan.page (turn_at M.give at plan t.old d pages.old).page pages.old }
{
    M::turn(at.day, t, d, &mut pages[at.words..end_of(at, plan)])
}

// A run of the turns of a list: refused, or each is given, one after the other, and told in its place.
pub fn run<M: Turns>(
    day: Day,
    t: &mut [M::Record],
    list: &[u32],
    answers: &mut [M::Told],
    pages: &mut [u32],
) -> RunOutcome
    ensures value { result ≡ run_outcome_of (run_by M.give M.told day t.old list.now answers.old pages.old) }
    ensures t_after { t.new ≡ (run_by M.give M.told day t.old list.now answers.old pages.old).state.table }
    ensures answers_after { answers.new ≡ (run_by M.give M.told day t.old list.now answers.old pages.old).answers }
    ensures pages_after { pages.new ≡ (run_by M.give M.told day t.old list.now answers.old pages.old).pages }
{
    let plan = match planned(
        day,
        t.len(),
        day.count,
        list.len(),
        answers.len(),
        pages.len(),
    ) {
        Ok(plan) => plan,
        Err(refusal) => return refused(day, refusal),
    };
    let mut at = begin(day);
    // No `for` (what may not change): that a run goes on, whose turn is next and what is next are `goes`, `process_at` and `next`, of which
    // the wrong programs last_turn_lost, first_process_only and stops_at_a_refusal speak.
    while goes(at, plan) {
        let d = process_at(list, at);
        let (after, told) = turn_at::<M>(at, plan, t, d, pages);
        answers[at.turns] = told;
        at = next(at, plan, after);
    }
    end(at)
}
