// The turns of Figure 3 on one packed record, in place: a call, a read and a write store the words that they change, the task and the
// marks; a read that ends its double collect unpacks the record. Crate `unbounded_turns` has the same turns on a record by value.
#![tactic(auto)]

ghost use Rattle.std.specs.Prelude.{◌≡◌, not, ◌+◌, ◌*◌, ◌<◌, T};
ghost use Rattle.unbounded.specs.Processes.{turns_of};
ghost use Rattle.unbounded.specs.Registers.{zero_register};
ghost use Rattle.unbounded_accesses.specs.Accesses.{Sound, is_ready};
ghost use Rattle.unbounded_finds.specs.Finds.{nothing_found, find_of};
ghost use Rattle.unbounded_turns.specs.Steps.{begun_by, state_by};
ghost use Rattle.packed.specs.Packing.{packed_over, unpack_record, unpack_register};
ghost use Rattle.packed_turns.specs.Places.{place_in};

use snapshot::Value;
use unbounded::{Register, Task};
use unbounded_accesses::Access;
use unbounded_finds::{collects, finds};
use unbounded_tasks::{Find, tasks};
use unbounded_turns::records;

// The record with task k and nothing collected, as a call begins a task and the end of one leaves it.
pub fn begin(w: &mut [u32; 369], a: Access, k: Task)
    requires { Sound a }
    ensures { w.new ≡ packed_over w.old (begun_by a k (unpack_record w.old)) }
{
    let n = a.n;
    let unwritten = Value { word: 0, last: 0 };
    let none = collects::no_register();
    packed_stores::lay_task(w, k);
    packed_stores::lay_marks(w, [false; 8]);
    packed_stores::lay_end(w, 0);
    packed_stores::lay_kept(w, n, [unwritten; 8]);
    for i in 0..n {
        packed_stores::lay_place(w, i, n, none);
        packed_stores::lay_place(w, 8 + i, n, none);
    }
}

// The place of an access's read, of the sixteen of both collects.
fn place_in(a: Access) -> usize
    requires { Sound a }
    ensures value { result ≡ place_in a.n a.pos }
    ensures upper_bound { result < 16 }
{
    if a.pos < a.n {
        a.pos
    } else {
        8 + (a.pos - a.n)
    }
}

// A read of r that does not end its double collect, by a turn of task k.
fn go_on(w: &mut [u32; 369], a: Access, r: Register, k: Task)
    requires { Sound a × (turns_of k < 4294967295) × T (not (is_ready k)) }
    ensures { w.new ≡
        packed_over w.old (state_by a r (unpack_record w.old) (nothing_found 0) k) }
{
    let moved = packed::marks_in(w);
    let end = records::end_of(a, packed::end_in(w));
    packed_stores::lay_task(w, tasks::task_after(k, finds::nothing_found()));
    packed_stores::lay_marks(w, moved);
    packed_stores::lay_end(w, end);
    packed_stores::lay_place(w, place_in(a), a.n, r);
}

// A read of r that ends its double collect, and what it finds.
fn decide(w: &mut [u32; 369], a: Access, r: Register, k: Task) -> Find
    requires { Sound a × (turns_of k < 4294967295) × T (not (is_ready k)) }
    ensures value { result ≡ find_of a r (unpack_record w.old) }
    ensures w_after { w.new ≡ packed_over w.old
        (state_by a r (unpack_record w.old) (find_of a r (unpack_record w.old)) k) }
{
    let p = packed::record_in(w);
    let f = finds::find_page(a, r, &p);
    if tasks::ends(k, f) {
        begin(w, a, Task::Idle);
        return f;
    }
    packed_stores::lay_record(w, records::read(a, r, k, f, p));
    packed_stores::lay_task(w, tasks::task_after(k, f));
    f
}

// A reading turn of task k, whose access reads r, and what it finds.
pub fn read(w: &mut [u32; 369], a: Access, r: Register, k: Task) -> Find
    requires { Sound a × (turns_of k < 4294967295) × T (not (is_ready k)) }
    ensures value { result ≡ find_of a r (unpack_record w.old) }
    ensures w_after { w.new ≡ packed_over w.old
        (state_by a r (unpack_record w.old) (find_of a r (unpack_record w.old)) k) }
{
    if a.pos + 1 == 2 * a.n {
        return decide(w, a, r, k);
    }
    go_on(w, a, r, k);
    finds::nothing_found()
}

// The writing turn of task k, an update that is ready: it reads no register and finds nothing.
pub fn write(w: &mut [u32; 369], a: Access, k: Task)
    requires { Sound a × ((unpack_register w.old).seq < 4294967295) × T (is_ready k) }
    ensures { w.new ≡
        packed_over w.old (state_by a zero_register (unpack_record w.old) (nothing_found 0) k) }
{
    let own = records::written_over(a, k, packed::own_in(w), packed::view_in(w));
    begin(w, a, Task::Idle);
    packed_stores::lay_own(w, own);
}
