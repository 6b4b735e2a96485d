// A run of turns on a lent table of process records. Which turns there are and where their answers and pages go, crate `runs`
// says for every method; crate `memory` gives the turns.
#![tactic(auto)]

ghost use Rattle.std.specs.Prelude.{◌≡◌};
ghost use Rattle.runs.specs.Plans.{run_outcome_of};
ghost use Rattle.memory_runs.specs.Runs.{give, told, run_on};

use memory::table;
use runs::{RunOutcome, Turns};
use snapshot::{Answer, Day};
use unbounded::Process;

// Turns on process records as they are, told as the core answers them.
pub struct Answered;

impl Turns for Answered {
    type Record = Process;

    type Told = Answer;

    ghost give = { give };

    ghost told = { told };

    fn turn(day: Day, ps: &mut [Process], d: u32, page: &mut [u32]) -> (Day, Answer) {
        let o = table::turn(day, ps, d, page);
        (o.day, o.answer)
    }
}

// A run of the turns of a list: refused, or each is given, one after the other.
#[tactic(auto, unfolding(snapshot::specs::Runs::ran))]
pub fn run(
    day: Day,
    ps: &mut [Process],
    list: &[u32],
    answers: &mut [Answer],
    pages: &mut [u32],
) -> RunOutcome
    ensures value { result ≡ run_outcome_of
        (run_on day ps.old list.now answers.old pages.old) }
    ensures ps_after { ps.new ≡
        (run_on day ps.old list.now answers.old pages.old).state.table }
    ensures answers_after { answers.new ≡
        (run_on day ps.old list.now answers.old pages.old).answers }
    ensures pages_after { pages.new ≡
        (run_on day ps.old list.now answers.old pages.old).pages }
{
    runs::run::<Answered>(day, ps, list, answers, pages)
}
