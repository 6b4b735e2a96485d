// The records in the input buffer: each is read, asked of the table, and its line laid into the output.
ghost use Rattle.std.specs.Prelude.{◌≡◌, ◌+◌, ◌<◌, length, replicate};
ghost use Rattle.snapshot.specs.Values.{words_in, lasts_in};
ghost use Rattle.unbounded.specs.Processes.{zero_process};
ghost use Rattle.daytext.specs.Buffer.{laid_place, laid_text};
ghost use Rattle.streams.specs.Input.{Within};
ghost use Rattle.daylines.specs.Printed.{line_of};
ghost use Rattle.laps.specs.Laps.{ran};
ghost use Rattle.laps.specs.Progress.{blank_progress, refilled_progress, flushed_progress, can_go, closed_progress, progress_past};
ghost use Rattle.laps.specs.Progress.{CanLay, Takes, next_in, stand_of};

use dayfile::Reading;
use daytext::LONGEST;
use memory::table;
use snapshot::{Day, Outcome};
use streams::input::Input;
use unbounded::Process;

// The longest record, in bytes.
const WHOLE: usize = 10;

// How far a run has come: the day, the input, how much of the output is laid, and whether all is done. The flag stays a flag: a run that
// has ended keeps its other fields, whose lines are still to be written, so that an enum would name all of them twice.
#[derive(Clone, Copy)]
pub struct Progress {
    pub day: Day,
    pub input: Input,
    pub written: usize,
    pub ended: bool,
}

// How far a run has come, and its table, of which it lends as many records as the day has processes.
#[derive(Clone, Copy)]
pub struct Running {
    pub progress: Progress,
    pub table: [Process; 8],
}

// The beginning: a blank day.
pub fn start() -> Running
    ensures { (result.progress ≡ blank_progress) × (result.table ≡ replicate 8 zero_process) }
{
    let input = Input {
        at: 0,
        end: 0,
        last: false,
        failed: false,
    };
    let progress = Progress {
        day: snapshot::blank(),
        input,
        written: 0,
        ended: false,
    };
    Running {
        progress,
        table: table::blank(),
    }
}

// A run whose input was filled up; nothing is laid yet of what it will print.
pub fn refilled(r: Running, input: Input) -> Running
    ensures { (result.progress ≡ refilled_progress r.progress input) × (result.table ≡ r.table) }
{
    let progress = Progress {
        input,
        written: 0,
        ..r.progress
    };
    Running { progress, ..r }
}

// After the output was written, or could not be. `went` stays a flag: `flushed_progress` and `Did.went` speak of the Bool (what may not
// change).
pub fn flushed(r: Running, went: bool) -> Running
    ensures { (result.progress ≡ flushed_progress r.progress went) × (result.table ≡ r.table) }
{
    let at = r.progress;
    let progress = Progress {
        ended: at.ended || !went,
        ..at
    };
    Running { progress, ..r }
}

// Whether there is another lap: the next record lies whole in the input, or no more will come. That the output has room for its line
// is known; the test here is the one that `lay` then need not make. Its steps stand apart: with `saturating_sub` in place of the first
// comparisons a refused record took some 30 instructions more.
fn can_go(at: Progress, room: usize) -> bool
    ensures { result ≡ can_go at room }
{
    let input = at.input;
    if at.ended {
        return false;
    }
    if room < at.written {
        return false;
    }
    if room - at.written < LONGEST {
        return false;
    }
    if input.last {
        return true;
    }
    if input.end < input.at {
        return false;
    }
    WHOLE <= input.end - input.at
}

// The next record of the input, or how it ends.
fn next_of(at: Progress, bytes: &[u8]) -> Reading
    requires { Within at.input (length bytes.now) }
    ensures { (result ≡ next_in at.input bytes.now) × Takes result at.input }
{
    let Input { at: start, end, .. } = at.input;
    dayfile::read(&bytes[start..end])
}

// The progress where no record was found: nothing is left, and the end is read next. After a read that failed there is no line for
// that, and all is done.
fn closed(at: Progress, day: Day, written: usize, end: bool) -> Progress
    ensures { result ≡ closed_progress at day written end }
{
    let input = Input {
        at: at.input.end,
        last: true,
        ..at.input
    };
    if at.input.failed {
        return Progress {
            day,
            input,
            written: at.written,
            ended: true,
        };
    }
    Progress {
        day,
        input,
        written,
        ended: end,
    }
}

// The progress once the line of what was read is laid. A refusal ends the file.
fn past(at: Progress, x: Reading, o: Outcome, page: &[u32], out: &mut [u8]) -> Progress
    requires { Takes x at.input }
    ensures value { result ≡ progress_past at o.day
        (laid_place (line_of o x) (words_in o.day.count page.now) (lasts_in o.day.count page.now)
        out.old at.written) x }
    ensures out_after { out.new ≡
        laid_text (line_of o x) (words_in o.day.count page.now) (lasts_in o.day.count page.now)
        out.old at.written }
{
    let written = daylines::lay(x, o, page, out, at.written);
    let Reading::Found { next, .. } = x else {
        return closed(at, o.day, written, daylines::is_end(x));
    };
    Progress {
        day: o.day,
        input: Input {
            at: at.input.at + next,
            ..at.input
        },
        written,
        ended: false,
    }
}

// Runs the records that lie whole in the input. The output has room for all their lines.
pub fn run(r: Running, bytes: &[u8], out: &mut [u8], page: &mut [u32]) -> Running
    requires { CanLay r.progress (length bytes.now) (length out.old) (length page.old) }
    ensures can_lay { CanLay result.progress (length bytes.now) (length out.new) (length page.new) }
    ensures out_after { stand_of result page.new bytes.now out.new
        ≡ ran (stand_of r page.old bytes.now out.old) }
{
    let mut table = r.table;
    let mut progress = r.progress;
    // A loop on a condition: no index is counted by hand, since where the next record begins is in what was read.
    while can_go(progress, out.len()) {
        let x = next_of(progress, bytes);
        let n = days::lent_for(progress.day, x);
        let o = days::asked(progress.day, &mut table[..n], x, page);
        progress = past(progress, x, o, page, out);
    }
    Running { progress, table }
}
