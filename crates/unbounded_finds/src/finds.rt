// What a turn finds, and the page list after it.
ghost use Rattle.std.specs.Prelude.{◌≡◌, ◌≤◌};
ghost use Rattle.std.proofs.Math.Option.{some};
ghost use Rattle.snapshot.specs.Verdict.{verdict};
ghost use Rattle.snapshot.specs.Marks.{lends};
ghost use Rattle.unbounded.specs.Registers.{ascending, differs};
ghost use Rattle.unbounded_accesses.specs.Accesses.{Sound, RoomFor};
ghost use Rattle.unbounded_finds.specs.Finds.{nothing_found, decision_find, find_of, page_by};

use crate::collects;
use unbounded::{Process, Register, Task};
use unbounded_accesses::Access;
use unbounded_tasks::{Find, Found};
use values::lay_values;

// What a turn finds that reads no register.
pub fn nothing_found() -> Find
    ensures { result ≡ nothing_found 0 }
{
    Find {
        page: None,
        passed: 0,
    }
}

// What the end of a double collect finds: its two collects, the end of the first, and the marks from earlier ones.
fn decide(n: usize, end: u32, a: &[Register; 8], b: &[Register; 8], moved: &[bool; 8]) -> Find
    requires { n ≤ 8 }
    ensures { result ≡ decision_find n end b.now
        (some (verdict n (differs ascending a.now b.now) (lends (differs ascending a.now b.now) moved.now))) }
{
    if collects::first_moved(n, a, b) == n {
        let page = Found {
            view: collects::values(n, b),
            at: end,
            lender: 0,
        };
        return Find {
            page: Some(page),
            passed: 0,
        };
    }
    let j = collects::first_lender(n, a, b, moved);
    if n <= j {
        return Find {
            page: None,
            passed: n,
        };
    }
    let Register { view, at, .. } = b[j];
    let page = Found {
        view,
        at,
        lender: (j + 1) as u32,
    };
    Find {
        page: Some(page),
        passed: j,
    }
}

// What the read of r finds, by the turn of a record.
pub fn find_page(a: Access, r: Register, p: &Process) -> Find
    requires { Sound a }
    ensures value { result ≡ find_of a r p.now }
    ensures passed_bound { result.passed ≤ 8 }
{
    let n = a.n;
    let pos = a.pos;
    if pos + 1 != 2 * n {
        return nothing_found();
    }
    let mut second = p.second;
    let i = pos - n;
    second[i] = collects::lay(n, r, second[i]);
    decide(n, p.first_end, &p.first, &second, &p.moved)
}

// The values of a page that a scan found, laid over the page list; any other turn leaves the list.
pub fn lay_page(a: Access, k: Task, f: Find, page: &mut [u32])
    requires { Sound a × RoomFor a page.old }
    ensures { page.new ≡ page_by a f k page.old }
{
    if let (Task::Scan { .. }, Some(found)) = (k, f.page) {
        lay_values(a.n, found.view, page);
    }
}
