// Each part of a process record laid over its place in the record's 369 words, which crate `packed` unpacks.
#![tactic(auto)]

ghost use Rattle.std.specs.Prelude.{◌≡◌, [], ◌∷◌, map, ◌+◌, ◌*◌, ◌≤◌, ◌<◌, length, take, set};
ghost use Rattle.std.proofs.lemmas.List.Edits.{sets};
ghost use Rattle.packed.specs.Packing.{pack_view, pack_register, pack_task, pack_collect, pack_mark, pack_record, stored_at};

use packed::{FIRST, FIRST_END, MARKS, REGISTER, SECOND, TASK, VIEW};
use snapshot::Value;
use unbounded::{Process, Register, Task};

// The first n of eight values. By index, since then the compiler moves them at once: with `iter().enumerate()` a record asked of the
// library by eight desks took 60 instructions more.
fn lay_view(w: &mut [u32; 369], a: usize, n: usize, v: [Value; 8])
    requires { (a + 16 ≤ 369) × (n ≤ 8) }
    ensures { w.new ≡ sets w.old a (pack_view (take n v)) }
{
    for i in 0..n {
        let x = v[i];
        w[a + 2 * i] = x.word;
        w[a + 2 * i + 1] = x.last;
    }
}

// A register, with the first n values of its view: the words past them stay.
fn lay_register(w: &mut [u32; 369], a: usize, n: usize, r: Register)
    requires { (a + 20 ≤ 369) × (n ≤ 8) }
    ensures w_after { w.new ≡ stored_at n r a w.old }
    ensures view_len { length r.view ≡ 8 }
{
    w[a..a + 3].copy_from_slice(&[r.value.word, r.value.last, r.seq]);
    lay_view(w, a + 3, n, r.view);
    w[a + 19] = r.at;
}

// The record's own register.
pub fn lay_own(w: &mut [u32; 369], r: Register)
    ensures w_after { w.new ≡ sets w.old 0 (pack_register r) }
    ensures view_len { length r.view ≡ 8 }
{
    lay_register(w, 0, 8, r)
}

// The kinds are numbers here, since the words cross to C.
pub fn lay_task(w: &mut [u32; 369], k: Task)
    ensures { w.new ≡ sets w.old 20 (pack_task k) }
{
    let words = match k {
        Task::Idle => [0; 4],
        Task::Scan { turns } => [1, 0, 0, turns],
        Task::Update { word, turns } => [2, word, 0, turns],
        Task::Ready { word, at, turns } => [3, word, at, turns],
    };
    w[TASK..FIRST].copy_from_slice(&words);
}

// Register r, with the first n values of its view, read into a place of the collects: those of the first are 0 to 7, of the second 8 to
// 15.
pub fn lay_place(w: &mut [u32; 369], place: usize, n: usize, r: Register)
    requires { (place < 16) × (n ≤ 8) }
    ensures w_after { w.new ≡ stored_at n r (24 + 20 * place) w.old }
    ensures view_len { length r.view ≡ 8 }
{
    lay_register(w, FIRST + REGISTER * place, n, r)
}

// The end of the first collect.
pub fn lay_end(w: &mut [u32; 369], end: u32)
    ensures { w.new ≡ set w.old 344 end }
{
    w[FIRST_END] = end;
}

// The first n values of the view that the record keeps.
pub fn lay_kept(w: &mut [u32; 369], n: usize, v: [Value; 8])
    requires { n ≤ 8 }
    ensures { w.new ≡ sets w.old 345 (pack_view (take n v)) }
{
    lay_view(w, VIEW, n, v)
}

fn lay_collect(w: &mut [u32; 369], a: usize, rs: [Register; 8])
    requires { a + 160 ≤ 369 }
    ensures w_after { w.new ≡ sets w.old a (pack_collect rs) }
    ensures rs_len { length (pack_collect rs) ≡ 160 }
{
    for (i, r) in rs.iter().enumerate() {
        lay_register(w, a + REGISTER * i, 8, *r);
    }
}

pub fn lay_marks(w: &mut [u32; 369], ms: [bool; 8])
    ensures { w.new ≡ sets w.old 361 (map pack_mark ms) }
{
    w[MARKS..].copy_from_slice(&ms.map(u32::from));
}

pub fn lay_record(w: &mut [u32; 369], p: Process)
    ensures { w.new ≡ sets w.old 0 (pack_record p) }
{
    lay_own(w, p.register);
    lay_task(w, p.task);
    lay_collect(w, FIRST, p.first);
    lay_collect(w, SECOND, p.second);
    lay_end(w, p.first_end);
    lay_kept(w, 8, p.view);
    lay_marks(w, p.moved);
}
