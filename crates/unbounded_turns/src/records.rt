// The record of a process: one of zeros, and what a read or an answer stores in its parts. `read_in` stores them one by one, in place;
// `read` gives the whole record, for a table that holds its records packed.
ghost use Rattle.std.specs.Prelude.{◌≡◌, ◌≤◌, ◌<◌};
ghost use Rattle.unbounded.specs.Processes.{zero_process};
ghost use Rattle.unbounded.specs.Turns.{end_after};
ghost use Rattle.unbounded_accesses.specs.Accesses.{Sound};
ghost use Rattle.unbounded_turns.specs.Steps.{read_by, collected_by, kept_by, marked_by, written_over};

use snapshot::Value;
use unbounded::{Process, Register, Task};
use unbounded_accesses::{Access, accesses};
use unbounded_finds::collects;
use unbounded_tasks::{Find, tasks};
use values::over_values;

// A record in which every number is 0, and which is idle.
pub fn zero() -> Process
    ensures { result ≡ zero_process }
{
    let v = Value { word: 0, last: 0 };
    let r = collects::no_register();
    Process {
        register: r,
        task: Task::Idle,
        first: [r; 8],
        second: [r; 8],
        first_end: 0,
        view: [v; 8],
        moved: [false; 8],
    }
}

// The number of the turn that ended the first collect.
pub fn end_of(a: Access, end: u32) -> u32
    requires { Sound a }
    ensures { result ≡ end_after a.n a.pos a.now end }
{
    if a.pos + 1 == a.n { a.now } else { end }
}

// Register r laid into its place of its collect.
fn collect(p: &mut Process, a: Access, r: Register)
    requires { Sound a }
    ensures { p.new ≡ collected_by a r p.old }
{
    let i = accesses::place_of(a);
    if a.pos < a.n {
        p.first[i] = collects::lay(a.n, r, p.first[i]);
    } else {
        p.second[i] = collects::lay(a.n, r, p.second[i]);
    }
}

// What task k keeps of f laid over the view.
#[tactic(auto, unfolding(crate::specs::Steps::kept_by))]
fn keep(p: &mut Process, a: Access, k: Task, f: Find)
    requires { Sound a }
    ensures { p.new ≡ kept_by a f k p.old }
{
    if let Some(page) = tasks::keeps(k, f) {
        p.view = over_values(a.n, page.view, p.view);
    }
}

// Each process marked that the search of f passed and that moved.
#[tactic(auto, unfolding(crate::specs::Steps::marked_by))]
fn mark(p: &mut Process, f: Find)
    requires { f.passed ≤ 8 }
    ensures { p.new ≡ marked_by f p.old }
{
    collects::mark(f.passed, &p.first, &p.second, &mut p.moved);
}

// The record once r is read by a turn of task k that found f, with the task that it had.
pub fn read_in(p: &mut Process, a: Access, r: Register, k: Task, f: Find)
    requires { Sound a × (f.passed ≤ 8) }
    ensures { p.new ≡ read_by a r p.old f k }
{
    collect(p, a, r);
    p.first_end = end_of(a, p.first_end);
    keep(p, a, k, f);
    mark(p, f);
}

// The same of a record by value.
pub fn read(a: Access, r: Register, k: Task, f: Find, p: Process) -> Process
    requires { Sound a × (f.passed ≤ 8) }
    ensures { result ≡ read_by a r p f k }
{
    let mut q = p;
    read_in(&mut q, a, r, k, f);
    q
}

// The register after the turn of a record, by its task, the register it had and the view that it keeps: an update that is ready
// writes it.
pub fn written_over(a: Access, k: Task, old: Register, view: [Value; 8]) -> Register
    requires { (a.n ≤ 8) × (old.seq < 4294967295) }
    ensures { result ≡ written_over a old view k }
{
    match k {
        Task::Ready { word, at, .. } => {
            let value = Value { word, last: a.now };
            let r = Register {
                value,
                seq: old.seq + 1,
                view,
                at,
            };
            collects::lay(a.n, r, old)
        }
        Task::Idle | Task::Scan { .. } | Task::Update { .. } => old,
    }
}
