// Which register the next turn of a task reads, if it reads one, and where in its double collect.
ghost use Rattle.std.specs.Prelude.{◌≡◌, false, ◌*◌, ◌%◌, ◌≤◌, ◌<◌};
ghost use Rattle.unbounded.specs.declared.Task.TheVariants.{Idle};
ghost use Rattle.unbounded.specs.Turns.{position};
ghost use Rattle.unbounded.specs.Days.{most_reads, overdue};
ghost use Rattle.unbounded_accesses.specs.Accesses.{is_ready, Admits, Sound, next_position, access_of, call_access, reads_in};

use crate::Access;
use snapshot::Day;
use unbounded::Task;

// Whether a task is an update that is ready to write: its next turn reads no register.
pub fn is_ready(k: Task) -> bool
    ensures { result ≡ is_ready k }
{
    matches!(k, Task::Ready { .. })
}

// t reduced modulo s, where s goes into t at most once.
fn reduced(t: usize, s: usize) -> usize
    requires { t < 2 * s }
    ensures value { result ≡ t % s }
    ensures upper_bound { result < s }
{
    if t < s { t } else { t - s }
}

// Where reading turn t stands in its double collect: at t in the first, where a page is found if nobody writes meanwhile. A t below
// 2n² is below 16n, so that 8n, 4n and 2n each go at most once into what is left, and nothing is divided.
fn position_of(n: usize, t: u32) -> usize
    requires { (0 < n) × (n ≤ 8) × (t < most_reads n) }
    ensures { result ≡ position n t }
{
    let turn = t as usize;
    if turn < 2 * n {
        return turn;
    }
    reduced(reduced(reduced(turn, 8 * n), 4 * n), 2 * n)
}

// Where the next read of a task stands in its double collect.
#[tactic(auto, using(unbounded::proofs::Reading::position_low))]
fn next_position(n: usize, k: Task) -> usize
    requires { (0 < n) × (n ≤ 8) × (overdue (most_reads n) k ≡ false) }
    ensures value { result ≡ next_position n k }
    ensures upper_bound { result < 2 * n }
{
    match k {
        Task::Scan { turns } | Task::Update { turns, .. } => position_of(n, turns),
        Task::Idle | Task::Ready { .. } => 0,
    }
}

// What the next turn of a task goes by.
#[tactic(auto, unfolding(crate::specs::Accesses::access_of))]
pub fn access_of(day: Day, k: Task) -> Access
    requires { Admits day k }
    ensures value { result ≡ access_of day k }
    ensures sound { Sound result }
{
    let n = day.count as usize;
    Access {
        n,
        now: day.event + 1,
        pos: next_position(n, k),
    }
}

// The place of a turn's read in its collect, which is the record that it reads.
#[tactic(auto, unfolding(unbounded::specs::Turns::place_at))]
pub fn place_of(a: Access) -> usize
    requires { Sound a }
    ensures value { result ≡ reads_in a }
    ensures upper_bound { result < a.n }
{
    if a.pos < a.n { a.pos } else { a.pos - a.n }
}

// What a call goes by: what a turn that reads no register does.
#[tactic(auto, unfolding(crate::specs::Accesses::access_of, crate::specs::Accesses::call_access))]
pub fn call_access(day: Day) -> Access
    requires { Admits day Idle }
    ensures value { result ≡ call_access day }
    ensures sound { Sound result }
{
    access_of(day, Task::Idle)
}
