// The day runner: it reads a day file of any length from standard input, in constant memory, and prints one line a record, then
// `end` and the event number. A read or a write that fails ends the run with a message on standard error.
#![tactic(auto)]

ghost use Rattle.std.specs.Prelude.{◌≡◌, false};
ghost use Rattle.laps.specs.Laps.{blank_stand};
ghost use Rattle.laps.specs.Progress.{Rests, stand_of};
ghost use Rattle.day_runner.specs.Passes.{IsPass, IsRun};

use laps::records;
use laps::records::Running;
use streams::{input, output};

// As many bytes as 1,023 of the shortest records: a pass lays a line for each and one for the end.
const INPUT: usize = 6138;

// Room for those 1,024 lines, whatever they are: 272 bytes for each, daytext's LONGEST.
const OUTPUT: usize = 278528;

// What a run reads into, lays its lines in and lists a page's writings in.
#[derive(Drop)]
struct Buffers {
    bytes: [u8; INPUT],
    out: [u8; OUTPUT],
    page: [u32; 16],
}

// A pass: one read fills up the input, the records that lie whole in it are run, and their lines are written.
fn pass(rt: &HostRuntime, r: Running, b: &mut Buffers) -> Running
    requires { Rests r.progress 6138 278528 16 × (r.progress.ended ≡ false) }
    ensures rests { Rests result.progress 6138 278528 16 }
    ensures pass { IsPass
        (stand_of r b.old.page b.old.bytes b.old.out)
        (stand_of result b.new.page b.new.bytes b.new.out) }
{
    let input = input::refill(
        &mut rt.stdin(),
        &mut b.bytes,
        r.progress.input,
        b"day_runner: cannot read standard input",
        &mut rt.stderr(),
    );
    let ready = records::refilled(r, input);
    let ran = records::run(ready, &b.bytes, &mut b.out, &mut b.page);
    let lines = &b.out[..ran.progress.written];
    let sent = output::write_out(rt, lines, b"day_runner: cannot write standard output");
    records::flushed(ran, sent.is_ok())
}

// Passes until all is done, at most that many: a proved loop has to end, and nothing says that the input does.
fn passes(rt: &HostRuntime, r: Running, most: u64, b: &mut Buffers) -> Running
    requires rests { Rests r.progress 6138 278528 16 }
    requires out_value { stand_of r b.old.page b.old.bytes b.old.out ≡ blank_stand }
    ensures { IsRun most (stand_of result b.new.page b.new.bytes b.new.out) }
{
    let mut ran = r;
    for _ in 0..most {
        if ran.progress.ended {
            break;
        }
        ran = pass(rt, ran, b);
    }
    ran
}

// The passes are counted up to a number that they never reach.
fn main(rt: HostRuntime) {
    let mut buffers = Buffers {
        bytes: [0; INPUT],
        out: [0; OUTPUT],
        page: [0; 16],
    };
    passes(&rt, records::start(), u64::MAX, &mut buffers);
}
