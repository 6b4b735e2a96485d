// The days of a quarter: each named file is read whole, and the page answers of all are gathered in one list. A file that cannot be
// read, or is longer than the buffer, is named among the messages, and so is one that a refusal ended.
#![tactic(auto)]

ghost use Rattle.std.specs.Prelude.{◌-◌, ◌≤◌, is_ok, length};
ghost use Rattle.streams.specs.Input.{incoming};
ghost use Rattle.quarters.specs.Days.{IsOpened, IsTried, IsAdded, IsDayAdded, AreRead};

use messages::Label;
use std::env::Env;
use std::fs::Files;
use std::io::{IsTerminal, Read, Write};
use std::{fs, io, str};
use streams::input::Input;
use streams::{input, system};

mod messages;

// Linux's number of an error that text has no such bytes.
const NO_TEXT: i32 = 84;

// Puts argument i behind the label, and answers where it ends. One that is too long leaves the label full, and no file has that name.
fn name<R: Env>(rt: &R, i: usize, label: &mut [u8]) -> usize
    requires { 25 ≤ length label.old }
    ensures { (25 ≤ result) × (result ≤ length label.new) }
{
    match rt.arg(i, &mut label[messages::NAME..]) {
        Ok(k) => messages::NAME + k,
        Err(_) => label.len(),
    }
}

// Reads the file whole that an opening answered; where that was an error it could not be opened. What fails is told.
fn read_file<F: Read + Drop, M: Write>(
    file: io::Result<F>,
    label: Label,
    bytes: &mut [u8],
    messages: &mut M,
) -> Input
    ensures { IsOpened (is_ok file) result bytes.new }
{
    match file {
        Ok(mut opened) => input::whole(&mut opened, bytes, label.text, messages),
        Err(error) => {
            system::fail(label.text, error, messages);
            Input {
                at: 0,
                end: 0,
                last: true,
                failed: true,
            }
        }
    }
}

// Opens the file of that name. std opens files by names that are text alone, so that one with another name cannot be read.
fn open<R: Files>(rt: &R, name: &[u8]) -> io::Result<R::File> {
    match str::from_utf8(name) {
        Ok(path) => fs::open(rt, path),
        Err(_) => Err(io::Error::from_raw_os_error(NO_TEXT)),
    }
}

// Reads the file of that label whole.
fn read_day<R: Files, M: Write>(rt: &R, label: Label, bytes: &mut [u8], messages: &mut M) -> Input
    ensures { IsTried result bytes.new }
{
    let file = open(rt, label.name);
    read_file(file, label, bytes, messages)
}

// Gathers the answers of an input, if it came whole: how many there are then, if those before it came whole too. Where they did not, it is
// read for what is to be told of it alone.
fn gather<M: Write>(
    count: Option<usize>,
    i: Input,
    label: Label,
    bytes: &[u8],
    answers: &mut [[u32; 3]],
    messages: &mut M,
) -> Option<usize>
    requires { IsTried i bytes.now }
    ensures { IsAdded (incoming i bytes.now) count answers.old result answers.new }
{
    if i.failed {
        return None;
    }
    if !i.last {
        messages::too_long(label, messages);
        return None;
    }
    let g = gathering::gather(&bytes[..i.end], answers, count.unwrap_or(0));
    if let Some(refusal) = g.refusal {
        messages::ended_by(label, refusal, messages);
    }
    count.and(Some(g.count))
}

// Reads the file of that label, and gathers its answers.
fn add_day<R: Files, M: Write + IsTerminal>(
    rt: &R,
    count: Option<usize>,
    label: Label,
    bytes: &mut [u8],
    answers: &mut [[u32; 3]],
    messages: &mut M,
) -> Option<usize>
    ensures { IsDayAdded (length bytes.old) count answers.old result answers.new }
{
    messages::at(label, messages);
    let i = read_day(rt, label, bytes, messages);
    gather(count, i, label, bytes, answers, messages)
}

// Gathers the answers of the files that the arguments from the third to the last of n name: how many there are, if every file came whole.
pub fn read_days<R: Env + Files, M: Write + IsTerminal>(
    rt: &R,
    n: usize,
    label: &mut [u8],
    bytes: &mut [u8],
    answers: &mut [[u32; 3]],
    messages: &mut M,
) -> Option<usize>
    requires { (2 ≤ n) × (25 ≤ length label.old) }
    ensures { AreRead (n - 2) (length bytes.old) answers.old answers.new result }
{
    let mut count = Some(0);
    for i in 2..n {
        let end = name(rt, i, label);
        let text = &label[..end];
        let named = Label {
            text,
            name: &text[messages::NAME..],
        };
        count = add_day(rt, count, named, bytes, answers, messages);
    }
    count
}
