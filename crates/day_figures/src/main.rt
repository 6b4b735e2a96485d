// Figures for the quarter: its arguments are a desk count and the names of day files of at most 2,097,152 bytes each. It runs each as
// the day runner does, and prints the figures of their pages on days with that desk count, or `refused` and a number. Where a file
// cannot be read, or is longer, it names it on standard error and prints nothing.
#![tactic(auto)]

ghost use Rattle.std.specs.Prelude.{◌≡◌, ◌-◌, ◌≤◌, ◌<◌, IfSome, is_ok, length};
ghost use Rattle.texts.specs.Laying.{Laid};
ghost use Rattle.day_figures.specs.Runs.{line_of, IsFiguresRun};

use std::env::{Env, FillError};
use streams::output;
use streams::output::Unsent;

mod messages;
mod words;

// The bytes of the longest day file, and one more: a file that fills the buffer is too long.
const INPUT: usize = 2097153;

// Figures are made of at most 65,535 answers; one more tells that there are too many.
const ANSWERS: usize = 65536;

// Room for the line: daytext's LONGEST.
const OUTPUT: usize = 272;

// The bytes of the longest argument that Linux takes, with the 0 at its end.
const WORD: usize = 131072;

// A label, with a name of 4,096 bytes, which no file has.
const LABEL: usize = 4121;

// Lays the line of the figures of the answers that are gathered, if every file came whole.
fn lay(desks: u32, gathered: Option<usize>, answers: &[[u32; 3]], out: &mut [u8]) -> usize
    requires { IfSome gathered (λ count. count ≤ length answers.now) × (272 ≤ length out.old) }
    ensures { Laid out.old 0 (line_of desks answers.now gathered) out.new result }
{
    match gathered {
        Some(count) => figurelines::lay(desks, figures::reckon(desks, &answers[..count]), out),
        None => 0,
    }
}

// Reads the files that the arguments from the third to the last of n name, and writes the line of their figures. A label begins the same
// for each file.
fn run(
    rt: &HostRuntime,
    desks: u32,
    n: usize,
    label: &mut [u8; LABEL],
    bytes: &mut [u8; INPUT],
    answers: &mut [[u32; 3]; ANSWERS],
    out: &mut [u8; OUTPUT],
) -> Result<(), Unsent>
    requires { 2 ≤ n }
    ensures { IsFiguresRun desks (n - 2) 2097153 out.old out.new (is_ok result) }
{
    label[..25].copy_from_slice(b"day_figures: cannot read ");
    let gathered = quarters::read_days(rt, n, label, bytes, answers, &mut rt.stderr());
    let end = lay(desks, gathered, answers, out);
    output::write_out(
        rt,
        &out[..end],
        b"day_figures: cannot write standard output",
    )
}

// The run, with room for the longest day file, for more answers than figures are made of, and for the line.
fn start(rt: &HostRuntime, desks: u32, n: usize)
    requires { 2 ≤ n }
{
    let mut label = [0u8; LABEL];
    let mut bytes = [0u8; INPUT];
    let mut answers = [[0u32; 3]; ANSWERS];
    let mut out = [0u8; OUTPUT];
    let _ = run(rt, desks, n, &mut label, &mut bytes, &mut answers, &mut out);
}

// Reads the desk count, which is the first of n arguments, and starts the run with it.
fn begin(rt: &HostRuntime, n: usize, word: &mut [u8])
    requires { 2 ≤ n }
{
    match rt.arg(1, word) {
        Ok(k) => match words::read(&word[..k]) {
            Some(desks) => start(rt, desks, n),
            None => messages::no_number(rt, &word[..k]),
        },
        Err(_) => messages::long_number(rt),
    }
}

// How many arguments there are, the program's name among them.
fn arguments(rt: &HostRuntime) -> usize {
    for i in 0..usize::MAX {
        if let Err(FillError::NotPresent) = rt.arg(i, &mut []) {
            return i;
        }
    }
    usize::MAX
}

fn main(rt: HostRuntime) {
    let n = arguments(&rt);
    if n < 2 {
        messages::usage(&rt);
        return;
    }
    let mut word = [0u8; WORD];
    begin(&rt, n, &mut word);
}
