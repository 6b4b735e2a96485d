// Whether a record can have arisen, and what it owes: what a look at every record of a table finds, one record at a time.
ghost use Rattle.std.specs.Prelude.{◌≡◌, ◌||◌, ltb};
ghost use Rattle.unbounded_surveys.specs.Surveys.{survey_of, register_seen, task_seen, surveyed_by};

use snapshot::Day;
use table_surveys::Survey;
use unbounded::{Process, Task, most_reads};

// What is found before any record is looked at.
#[tactic(auto, unfolding(crate::specs::Surveys::survey_of))]
pub fn survey_of(day: Day) -> Survey
    ensures { result ≡ survey_of day }
{
    Survey {
        scan_most: most_reads(day.count),
        update_more: 1,
        event: day.event,
        end: day.event,
        bad: false,
    }
}

// What is found once p is looked at too: its task, then its register.
#[tactic(auto, using(crate::proofs::Looks::task_first), unfolding(crate::specs::Surveys::surveyed_by))]
pub fn surveyed(s: Survey, p: Process) -> Survey
    ensures { result ≡ surveyed_by s p }
{
    let k = p.task;
    register_seen(
        task_seen(s, k),
        p.register.seq,
        p.register.at,
        p.register.value.last,
    )
}

// Once a register with this seq and at, last written by that event, is looked at.
#[tactic(auto, unfolding(crate::specs::Surveys::register_seen))]
pub fn register_seen(s: Survey, seq: u32, at: u32, last: u32) -> Survey
    ensures { result ≡ register_seen s seq at last }
{
    Survey {
        bad: bad_register(s, seq, at, last),
        ..s
    }
}

// Whether something before was bad, or a register cannot have arisen.
fn bad_register(s: Survey, seq: u32, at: u32, last: u32) -> bool
    ensures { result ≡ (s.bad || (ltb s.event seq || (ltb s.event at || ltb s.event last))) }
{
    s.bad || s.event < seq || s.event < at || s.event < last
}

// Once a task is looked at. An update that is still being read owes its writing turn after its reads.
#[tactic(auto, unfolding(crate::specs::Surveys::task_seen))]
pub fn task_seen(s: Survey, k: Task) -> Survey
    ensures { result ≡ task_seen s k }
{
    match k {
        Task::Idle => s,
        Task::Scan { turns } => table_surveys::waits(s, s.scan_most as u32, 0, turns),
        Task::Update { turns, .. } => {
            table_surveys::waits(s, s.scan_most as u32, s.update_more as u32, turns)
        }
        Task::Ready { turns, .. } => {
            let most = s.scan_most as u32 + s.update_more as u32;
            table_surveys::waits(s, most, 0, turns)
        }
    }
}
