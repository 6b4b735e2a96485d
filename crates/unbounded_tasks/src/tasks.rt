// Tasks: which a call sets, what a turn makes of one, and what it answers.
ghost use Rattle.std.specs.Prelude.{◌≡◌, ◌<◌};
ghost use Rattle.unbounded.specs.Processes.{is_idle, turns_of};
ghost use Rattle.unbounded_tasks.specs.Tasks.{task_for, keeps_by, ends_by, task_by, answer_by};

use crate::{Find, Found};
use snapshot::{Answer, Request};
use unbounded::Task;

// The task that a call sets.
pub fn task_for(x: Request) -> Task
    ensures { result ≡ task_for x }
{
    match x {
        Request::Open(_) => Task::Idle,
        Request::Update { process: _, word } => Task::Update { word, turns: 0 },
        Request::Scan(_) => Task::Scan { turns: 0 },
        Request::Turn(_) => Task::Idle,
    }
}

// Whether it is no task.
pub fn is_idle(k: Task) -> bool
    ensures { result ≡ is_idle k }
{
    matches!(k, Task::Idle)
}

// What a task keeps of what a turn found: an update keeps the page.
pub fn keeps(k: Task, f: Find) -> Option<Found>
    ensures { result ≡ keeps_by f k }
{
    match k {
        Task::Update { .. } => f.page,
        Task::Idle | Task::Scan { .. } | Task::Ready { .. } => None,
    }
}

// Whether a turn that found f ends its task.
pub fn ends(k: Task, f: Find) -> bool
    ensures { result ≡ ends_by f k }
{
    match k {
        Task::Scan { .. } => f.page.is_some(),
        Task::Ready { .. } => true,
        Task::Idle | Task::Update { .. } => false,
    }
}

// The task after a turn that found f.
pub fn task_after(k: Task, f: Find) -> Task
    requires { turns_of k < 4294967295 }
    ensures { result ≡ task_by f k }
{
    match (k, f.page) {
        (Task::Scan { turns }, None) => Task::Scan { turns: turns + 1 },
        (Task::Update { word, turns }, None) => Task::Update {
            word,
            turns: turns + 1,
        },
        (Task::Update { word, turns }, Some(Found { at, .. })) => Task::Ready {
            word,
            at,
            turns: turns + 1,
        },
        (Task::Scan { .. }, Some(_)) | (Task::Idle | Task::Ready { .. }, _) => Task::Idle,
    }
}

// The answer of a turn that found f.
pub fn answer(k: Task, f: Find) -> Answer
    requires { turns_of k < 4294967295 }
    ensures { result ≡ answer_by f k }
{
    match (k, f.page) {
        (Task::Scan { turns }, Some(Found { lender, at, .. })) => Answer::Page {
            lender,
            at,
            turns: turns + 1,
        },
        (Task::Ready { turns, .. }, _) => Answer::Written { turns: turns + 1 },
        (Task::Scan { .. }, None) | (Task::Idle | Task::Update { .. }, _) => Answer::Read,
    }
}
