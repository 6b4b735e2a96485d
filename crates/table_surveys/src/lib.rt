// What a look at every record of a table finds, for every method that keeps one record a process: a method looks at its own records,
// and the checks (crate `admission`) go by what it found. No function here sees a record.
#![tactic(auto)]

ghost use Rattle.std.specs.Prelude.{◌≡◌, ◌+◌, ◌≤◌};
ghost use Rattle.snapshot.specs.Refusals.{is_past};
ghost use Rattle.snapshot.specs.Days.{cannot_arise};
ghost use Rattle.table_surveys.specs.Surveys.{end_with, waits_by};

// What a look at every record of a table finds, with the limits that it looks by: the most turns of a scan, how many more an update
// takes, and the event number. `end` is the event number plus all turns that were seen to be owed, not added to once it is past
// 65,535; `bad` is whether some record cannot have arisen. Each is found of every table: the one says nothing of the other.
#[derive(Clone, Copy)]
pub struct Survey {
    pub scan_most: u16,
    pub update_more: u16,
    pub event: u32,
    pub end: u32,
    pub bad: bool,
}

// The event number plus what was owed so far, and what one task more owes.
#[tactic(auto, unfolding(snapshot::specs::Refusals::is_past))]
fn end_with(sum: u32, owed: u32) -> u32
    requires { owed ≤ 196605 }
    ensures { result ≡ end_with sum owed }
{
    if 65535 < sum {
        return sum;
    }
    sum + owed
}

// What is found once a task is looked at too that cannot have had `most` turns: until then it owes these, and `more` after them.
pub fn waits(s: Survey, most: u32, more: u32, turns: u32) -> Survey
    requires { (most ≤ 131070) × (more ≤ 65535) }
    ensures { result ≡ waits_by s most more turns }
{
    if most <= turns {
        return Survey { bad: true, ..s };
    }
    let owed = most - turns + more;
    Survey {
        end: end_with(s.end, owed),
        ..s
    }
}

// Whether a day cannot have arisen, by its count and the survey.
#[tactic(auto, unfolding(snapshot::specs::Refusals::is_past))]
pub fn cannot_arise(count: u32, s: Survey) -> bool
    ensures { result ≡ cannot_arise count s.end s.bad }
{
    8 < count || 65535 < s.end || s.bad
}

// Whether a call, and then a task of so many turns, would go past event 65,535 where all work is to end by that event.
#[tactic(auto, unfolding(snapshot::specs::Refusals::is_past))]
pub fn is_full(end: u32, most: u32) -> bool
    requires { most ≤ 131070 }
    ensures { result ≡ is_past (end + 1 + most) }
{
    65535 < end || 65535 < end + 1 + most
}
