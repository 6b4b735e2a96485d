// Registers, and loops over the collects of a record: the first n places compared, marked, and their values copied.
ghost use Rattle.std.specs.Prelude.{◌≡◌, ◌≤◌, ◌&&◌, not, eqb, replicate, position, zip};
ghost use Rattle.snapshot.specs.Lists.{over, first_below};
ghost use Rattle.snapshot.specs.Values.{zero_value};
ghost use Rattle.snapshot.specs.Marks.{lends, mark_from};
ghost use Rattle.unbounded.specs.Registers.{ascending, zero_register, laid, page_of, differs};

use snapshot::Value;
use unbounded::Register;
use values::over_values;

// A register in which every number is 0: what a turn that reads none is given.
pub fn no_register() -> Register
    ensures { result ≡ zero_register }
{
    let v = Value { word: 0, last: 0 };
    Register {
        value: v,
        seq: 0,
        view: [v; 8],
        at: 0,
    }
}

// Register r laid where old stood: the values past n of old's view stay.
pub fn lay(n: usize, r: Register, old: Register) -> Register
    requires { n ≤ 8 }
    ensures { result ≡ laid n r old }
{
    Register {
        view: over_values(n, r.view, old.view),
        ..r
    }
}

// The first place at which the seqs of two collects differ.
fn moved_in(a: &[Register], b: &[Register]) -> Option<usize>
    ensures { result ≡ position (λ (x, y). not (eqb x.seq y.seq)) (zip a.now b.now) }
{
    a.iter().zip(b).position(|(x, y)| x.seq != y.seq)
}

// The first of n processes whose seq differs between the two collects, or n.
// n and not `None` where none differs: `first_below`, by which `verdict` decides, has it so.
pub fn first_moved(n: usize, a: &[Register; 8], b: &[Register; 8]) -> usize
    requires { n ≤ 8 }
    ensures { result ≡ first_below n (differs ascending a.now b.now) }
{
    moved_in(&a[..n], &b[..n]).unwrap_or(n)
}

// The first marked place at which the seqs of two collects differ.
fn lender_in(a: &[Register], b: &[Register], ms: &[bool]) -> Option<usize>
    ensures { result ≡ position (λ ((x, y), m). not (eqb x.seq y.seq) && m) (zip (zip a.now b.now) ms.now) }
{
    a.iter()
        .zip(b)
        .zip(ms)
        .position(|((x, y), m)| x.seq != y.seq && *m)
}

// The first of n processes that lends, or n.
pub fn first_lender(n: usize, a: &[Register; 8], b: &[Register; 8], ms: &[bool; 8]) -> usize
    requires { n ≤ 8 }
    ensures { result ≡ first_below n (lends (differs ascending a.now b.now) ms.now) }
{
    lender_in(&a[..n], &b[..n], &ms[..n]).unwrap_or(n)
}

// Of the first k processes, each that moved is marked.
pub fn mark(k: usize, a: &[Register; 8], b: &[Register; 8], ms: &mut [bool; 8])
    requires { k ≤ 8 }
    ensures { ms.new ≡ mark_from (differs ascending a.now b.now) k 0 ms.old }
{
    for j in 0..k {
        if a[j].seq != b[j].seq {
            ms[j] = true;
        }
    }
}

// The values of the first n registers of a collect, the other places 0.
pub fn values(n: usize, rs: &[Register; 8]) -> [Value; 8]
    requires { n ≤ 8 }
    ensures { result ≡ over n (page_of ascending n rs.now) (replicate 8 zero_value) }
{
    let mut shown = [Value { word: 0, last: 0 }; 8];
    for (j, r) in rs[..n].iter().enumerate() {
        shown[j] = r.value;
    }
    shown
}
