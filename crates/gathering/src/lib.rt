// The page answers of a day file, gathered in a lent list: each as three numbers, its day's desk count, its lender and its turns.
#![tactic(auto)]

ghost use Rattle.std.specs.Prelude.{◌≡◌, ◌≤◌, length};
ghost use Rattle.snapshot.specs.Requests.{blank_day};
ghost use Rattle.days.specs.Happenings.{file_on, day_of};
ghost use Rattle.packed_rows.specs.Rows.{LongRows};
ghost use Rattle.packed_days.specs.Boxes.{box_in};
ghost use Rattle.gathering.specs.Answers.{answers_in, page_answers, ended_by};
ghost use Rattle.gathering.specs.Gathered.{sums_with_all};
ghost use Rattle.gathering.specs.Laps.{gathered, blank_progress, Reaches, progress_past, IsLap};

use dayfile::Reading;
use snapshot::{Answer, Day, Outcome, Refusal};

// How many places of a list hold answers, and the refusal that ended the file, if one did.
#[derive(Clone, Copy, Debug, PartialEq, Eq)]
pub struct Gathering {
    pub count: usize,
    pub refusal: Option<Refusal>,
}

// How far a file has come: the day, the place of the next record, whether all is done, the refusal that ended it, if one did, and how
// many answers are gathered. As one value `ended` and `refusal` would be an option of an option, which is no plainer.
#[derive(Clone, Copy, Debug, PartialEq, Eq)]
pub struct Progress {
    pub day: Day,
    pub at: usize,
    pub ended: bool,
    pub refusal: Option<Refusal>,
    pub count: usize,
}

// The beginning of a file, where so many answers are gathered.
fn start(count: usize) -> Progress
    ensures { result ≡ blank_progress count }
{
    Progress {
        day: snapshot::blank(),
        at: 0,
        ended: false,
        refusal: None,
        count,
    }
}

// Puts the answer of an outcome, if it is a page's, in the next place, and answers how many hold one then. A full list stays.
fn put(o: Outcome, count: usize, answers: &mut [[u32; 3]]) -> usize
    ensures { gathered answers.new result ≡
        sums_with_all (gathered answers.old count) (page_answers o.day.count o.answer) }
{
    let Answer::Page { lender, turns, .. } = o.answer else {
        return count;
    };
    if answers.len() <= count {
        return count;
    }
    answers[count] = [o.day.count, lender, turns];
    count + 1
}

// The progress once what was read has happened.
fn past(s: Progress, x: Reading, day: Day, count: usize) -> Progress
    requires { Reaches x s.at }
    ensures { result ≡ progress_past s x day count }
{
    let here = Progress { day, count, ..s };
    match x {
        Reading::Found { record: _, next } => Progress {
            at: s.at + next,
            ended: false,
            refusal: None,
            ..here
        },
        Reading::End => Progress {
            ended: true,
            refusal: None,
            ..here
        },
        Reading::Refused(k) => Progress {
            ended: true,
            refusal: Some(k),
            ..here
        },
    }
}

// Reads the next record, asks it of the table, and gathers its answer.
fn lap(
    s: Progress,
    bytes: &[u8],
    t: &mut [[u32; 369]],
    page: &mut [u32],
    answers: &mut [[u32; 3]],
) -> Progress
    requires { (s.at ≤ length bytes.now) × (length t.old ≡ 8) × LongRows t.old }
    ensures { IsLap s bytes.now t.old page.old answers.old
        result t.new page.new answers.new }
{
    let x = dayfile::read(&bytes[s.at..]);
    let o = packed_days::asked(s.day, t, x, page);
    let count = put(o, s.count, answers);
    past(s, x, o.day, count)
}

// Runs the records of a file on a table and a page list, and gathers the page answers.
fn run(
    count: usize,
    bytes: &[u8],
    t: &mut [[u32; 369]],
    page: &mut [u32],
    answers: &mut [[u32; 3]],
) -> Gathering
    requires { (length t.old ≡ 8) × LongRows t.old }
    ensures count_after { gathered answers.new result.count ≡ sums_with_all (gathered answers.old count)
        (answers_in (file_on (box_in blank_day t.old page.old) bytes.now)) }
    ensures refusal_value { result.refusal ≡ ended_by (file_on (box_in blank_day t.old page.old) bytes.now) }
{
    let mut s = start(count);
    // The file's own records end it: no index is counted here, so a `for` would be no plainer.
    while !s.ended {
        s = lap(s, bytes, t, page, answers);
    }
    Gathering {
        count: s.count,
        refusal: s.refusal,
    }
}

// Runs a day file as the day runner does, and gathers its page answers in the places after the first `count`, as many as there are
// places. Answers how many places hold an answer then, and by which refusal the file ended.
pub fn gather(bytes: &[u8], answers: &mut [[u32; 3]], count: usize) -> Gathering
    ensures count_after { gathered answers.new result.count ≡
        sums_with_all (gathered answers.old count) (answers_in (day_of bytes.now)) }
    ensures refusal_value { result.refusal ≡ ended_by (day_of bytes.now) }
{
    let mut t = [[0u32; 369]; 8];
    let mut page = [0u32; 16];
    run(count, bytes, &mut t, &mut page, answers)
}
