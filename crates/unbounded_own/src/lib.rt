// One record of the lent table, changed in place: only the parts that a call or a turn sets are stored, and no record is copied
// whole. What is stored is for functions on plain values to say (crate `unbounded_turns`).
#![tactic(auto)]

ghost use Rattle.std.specs.Prelude.{◌≡◌, ◌≤◌, ◌<◌};
ghost use mathlib.Core.List.{map};
ghost use Rattle.unbounded.specs.Registers.{laid, zero_register};
ghost use Rattle.unbounded.specs.Processes.{turns_of};
ghost use Rattle.unbounded_accesses.specs.Accesses.{Sound};
ghost use Rattle.unbounded_tasks.specs.Tasks.{task_by};
ghost use Rattle.unbounded_turns.specs.Steps.{with_task, cleared_both, begun_by, read_by, state_by};
ghost use Rattle.unbounded_own.specs.Turning.{Turning};

use snapshot::Value;
use unbounded::{Process, Register, Task};
use unbounded_accesses::Access;
use unbounded_finds::collects;
use unbounded_tasks::{Find, tasks};
use unbounded_turns::records;
use values::over_values;

// Each register of a collect set to 0; the values past n of its view stay.
fn clear(rs: &mut [Register], n: usize)
    requires { n ≤ 8 }
    ensures { rs.new ≡ map (laid n zero_register) rs.old }
{
    let none = collects::no_register();
    for r in rs.iter_mut() {
        *r = collects::lay(n, none, *r);
    }
}

// The first n places of both collects set to 0.
fn clear_own(p: &mut Process, n: usize)
    requires { n ≤ 8 }
    ensures { p.new ≡ cleared_both n p.old }
{
    clear(&mut p.first[..n], n);
    clear(&mut p.second[..n], n);
}

// A record with task k and nothing collected. Laid out where it is called, which takes fewer instructions.
#[inline(always)]
pub fn begin_own(p: &mut Process, a: Access, k: Task)
    requires { Sound a }
    ensures { p.new ≡ begun_by a k p.old }
{
    clear_own(p, a.n);
    p.view = over_values(a.n, [Value { word: 0, last: 0 }; 8], p.view);
    p.moved = [false; 8];
    p.first_end = 0;
    p.task = k;
}

// A reading turn of task k that goes on: its access read r and found f.
fn read_own(p: &mut Process, a: Access, r: Register, k: Task, f: Find)
    requires { Sound a × (f.passed ≤ 8) × (turns_of k < 4294967295) }
    ensures { p.new ≡ with_task (task_by f k) (read_by a r p.old f k) }
{
    records::read_in(p, a, r, k, f);
    p.task = tasks::task_after(k, f);
}

// The turn of one process on its own record: its access read r and found f.
pub fn turn_own(p: &mut Process, a: Access, r: Register, f: Find)
    requires { Turning a f p.old }
    ensures { p.new ≡ state_by a r p.old f p.old.task }
{
    let k = p.task;
    if tasks::ends(k, f) {
        p.register = records::written_over(a, k, p.register, p.view);
        begin_own(p, a, Task::Idle);
    } else {
        read_own(p, a, r, k, f);
    }
}
