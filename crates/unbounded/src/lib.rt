// Figure 3, the unbounded single-writer method: the types of its registers and processes, and its limits.
#![tactic(auto)]

ghost use Rattle.std.specs.Prelude.{◌≡◌};
ghost use Rattle.unbounded.specs.Days.{reads_up_to8};

use snapshot::Value;

// A register (document 01: a row): its value, how often it was written, and the page that its writer had read, with its instant.
#[derive(Clone, Copy)]
pub struct Register {
    pub value: Value,
    pub seq: u32,
    pub view: [Value; 8],
    pub at: u32,
}

// What a process is doing, with the accepted turns it has had (document 01: a desk's task). `Scan` is a page being read, `Update`
// an entry being read with its word, `Ready` an entry ready to write with its word and the instant of its view.
#[derive(Clone, Copy)]
pub enum Task {
    Idle,
    Scan { turns: u32 },
    Update { word: u32, turns: u32 },
    Ready { word: u32, at: u32, turns: u32 },
}

// A process (document 01: a desk's record): its register, its task, the two collects with the number of the turn that ended the
// first, the view that a ready update keeps, and the marks.
#[derive(Clone, Copy)]
pub struct Process {
    pub register: Register,
    pub task: Task,
    pub first: [Register; 8],
    pub second: [Register; 8],
    pub first_end: u32,
    pub view: [Value; 8],
    pub moved: [bool; 8],
}

// The most reads of a scan, for 1 to 8 processes.
const MOST_READS: [u16; 8] = [2, 8, 18, 32, 50, 72, 98, 128];

// The most reads of a scan by n processes, or 0 where n is not 1 to 8.
pub fn most_reads(n: u32) -> u16
    ensures { result ≡ reads_up_to8 n }
{
    if n < 1 {
        return 0;
    }
    if 8 < n {
        return 0;
    }
    let i = (n - 1) as usize;
    MOST_READS[i]
}
