// A process record as 369 words of 32 bits, which is how it crosses to other languages: any words are a record, and none of them is
// padding. Each part is unpacked from its place; crate `packed_stores` lays it over.
#![tactic(auto)]

ghost use Rattle.std.specs.Prelude.{◌≡◌, map, ◌+◌, ◌≤◌, drop};
ghost use Rattle.packed.specs.Packing.{word_at, words, unpack_value, unpack_view, unpack_register, task_of_kind, unpack_task};
ghost use Rattle.packed.specs.Packing.{unpack_collect, unpack_mark, unpack_record};

use snapshot::Value;
use std::array;
use unbounded::{Process, Register, Task};

// Where each part of a record begins, and how many words a register takes.
pub const TASK: usize = 20;

pub const FIRST: usize = 24;

pub const SECOND: usize = 184;

pub const FIRST_END: usize = 344;

pub const VIEW: usize = 345;

pub const MARKS: usize = 361;

pub const REGISTER: usize = 20;

fn value_at(w: &[u32; 369], a: usize) -> Value
    requires { a + 2 ≤ 369 }
    ensures { result ≡ unpack_value (drop a w.now) }
{
    Value {
        word: w[a],
        last: w[a + 1],
    }
}

// Eight values.
fn view_at(w: &[u32; 369], a: usize) -> [Value; 8]
    requires { a + 16 ≤ 369 }
    ensures { result ≡ unpack_view 8 (drop a w.now) }
{
    array::from_fn(|i| value_at(w, a + 2 * i))
}

fn register_at(w: &[u32; 369], a: usize) -> Register
    requires { a + 20 ≤ 369 }
    ensures { result ≡ unpack_register (drop a w.now) }
{
    Register {
        value: value_at(w, a),
        seq: w[a + 2],
        view: view_at(w, a + 3),
        at: w[a + 19],
    }
}

// The record's own register.
pub fn own_in(w: &[u32; 369]) -> Register
    ensures { result ≡ unpack_register w.now }
{
    register_at(w, 0)
}

// The event number of its last writing, its seq and its at.
pub fn last_in(w: &[u32; 369]) -> u32
    ensures { result ≡ (unpack_register w.now).value.last }
{
    w[1]
}

pub fn seq_in(w: &[u32; 369]) -> u32
    ensures { result ≡ (unpack_register w.now).seq }
{
    w[2]
}

pub fn at_in(w: &[u32; 369]) -> u32
    ensures { result ≡ (unpack_register w.now).at }
{
    w[19]
}

// The kind stays a number: the words of a record cross to C, and there any number may stand for it.
fn task_of(kind: u32, word: u32, at: u32, turns: u32) -> Task
    ensures { result ≡ task_of_kind kind word at turns }
{
    match kind {
        0 => Task::Idle,
        1 => Task::Scan { turns },
        2 => Task::Update { word, turns },
        3 => Task::Ready { word, at, turns },
        _ => Task::Scan { turns: u32::MAX },
    }
}

pub fn task_in(w: &[u32; 369]) -> Task
    ensures { result ≡ unpack_task (drop 20 w.now) }
{
    task_of(w[TASK], w[TASK + 1], w[TASK + 2], w[TASK + 3])
}

fn collect_at(w: &[u32; 369], a: usize) -> [Register; 8]
    requires { a + 160 ≤ 369 }
    ensures { result ≡ unpack_collect 8 (drop a w.now) }
{
    array::from_fn(|i| register_at(w, a + REGISTER * i))
}

// The end of the first collect.
pub fn end_in(w: &[u32; 369]) -> u32
    ensures { result ≡ word_at w.now 344 }
{
    w[FIRST_END]
}

// The view that the record keeps.
pub fn view_in(w: &[u32; 369]) -> [Value; 8]
    ensures { result ≡ unpack_view 8 (drop 345 w.now) }
{
    view_at(w, VIEW)
}

pub fn marks_in(w: &[u32; 369]) -> [bool; 8]
    ensures { result ≡ map unpack_mark (words 8 (drop 361 w.now)) }
{
    array::from_fn(|i| w[MARKS + i] != 0)
}

pub fn record_in(w: &[u32; 369]) -> Process
    ensures { result ≡ unpack_record w.now }
{
    Process {
        register: own_in(w),
        task: task_in(w),
        first: collect_at(w, FIRST),
        second: collect_at(w, SECOND),
        first_end: end_in(w),
        view: view_in(w),
        moved: marks_in(w),
    }
}
