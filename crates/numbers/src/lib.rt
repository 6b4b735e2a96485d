// What crosses to other languages, by numbers: requests, replies and the records of day files.
#![tactic(auto)]

ghost use Rattle.std.specs.Prelude.{◌≡◌, [], cond, Some, None};
ghost use Rattle.snapshot.specs.Replies.{reply_of};
ghost use Rattle.admission.specs.Checks.{as_option};
ghost use Rattle.dayfile.specs.Reader.{reader_reply};
ghost use Rattle.numbers.specs.Requests.{request_numbered, is_kind};
ghost use Rattle.numbers.specs.Replies.{day_with, reply_with, reply_numbers, run_numbers, reply_words};
ghost use Rattle.numbers.specs.Replies.{Short, record_with, request_numbers, record_numbers};

use dayfile::Reading;
use runs::RunOutcome;
use snapshot::{Answer, Day, Outcome, Request};

// The day after a request, its answer (0 refused, 1 opened, 2 called, 3 read, 4 page, 5 written, 6 a run), the number of the
// refusal, the lender and the instant of a page, and the turns of a task. The C interface has numbers for kinds, and 0 where there is
// none.
#[repr(C)]
#[derive(Clone, Copy)]
pub struct ReplyNumbers {
    pub count: u32,
    pub event: u32,
    pub answer: u32,
    pub refusal: u32,
    pub lender: u32,
    pub at: u32,
    pub turns: u32,
}

// A record of a day file: its kind there, its numbers, and how many bytes it takes; or the number of a refusal. Numbers, for C.
#[repr(C)]
#[derive(Clone, Copy)]
pub struct RecordNumbers {
    pub refusal: u32,
    pub kind: u32,
    pub process: u32,
    pub word: u32,
    pub next: u32,
}

// A reply, where the day is so.
pub fn reply(day: Day, answer: u32, refusal: u32, lender: u32, at: u32, turns: u32) -> ReplyNumbers
    ensures { result ≡ reply_with day answer refusal lender at turns }
{
    ReplyNumbers {
        count: day.count,
        event: day.event,
        answer,
        refusal,
        lender,
        at,
        turns,
    }
}

// The reply that an outcome is.
impl From<Outcome> for ReplyNumbers {
    ghost from_gives = { λ o r. r ≡ reply_numbers o.day (reply_of [] o.answer) };

    fn from(o: Outcome) -> ReplyNumbers {
        let day = o.day;
        match o.answer {
            Answer::Refused(k) => reply(day, 0, u32::from(k), 0, 0, 0),
            Answer::Opened => reply(day, 1, 0, 0, 0, 0),
            Answer::Called => reply(day, 2, 0, 0, 0, 0),
            Answer::Read => reply(day, 3, 0, 0, 0, 0),
            Answer::Page { lender, at, turns } => reply(day, 4, 0, lender, at, turns),
            Answer::Written { turns } => reply(day, 5, 0, 0, 0, turns),
        }
    }
}

// The day after a request, by its reply: a reply has a day and is not turned into one, so that a `From` would be no plainer.
pub fn day_in(r: ReplyNumbers) -> Day
    ensures { result ≡ day_with r.count r.event }
{
    Day {
        count: r.count,
        event: r.event,
    }
}

// The reply to a run: its answer is 6, or 0 where the run itself was refused.
impl From<RunOutcome> for ReplyNumbers {
    ghost from_gives = { λ o r. r ≡ run_numbers o.day (as_option o.check) };

    fn from(o: RunOutcome) -> ReplyNumbers {
        match o.check {
            Ok(()) => reply(o.day, 6, 0, 0, 0, 0),
            Err(k) => reply(o.day, 0, u32::from(k), 0, 0, 0),
        }
    }
}

// The seven numbers of a reply, as they lie in a table.
impl From<ReplyNumbers> for [u32; 7] {
    ghost from_gives = { λ r ws. ws ≡ reply_words r };

    fn from(r: ReplyNumbers) -> [u32; 7] {
        [
            r.count, r.event, r.answer, r.refusal, r.lender, r.at, r.turns,
        ]
    }
}

// A request by its kind; one of no kind is taken for a turn.
pub fn request_of(kind: u32, process: u32, word: u32) -> Request
    ensures { result ≡ request_numbered kind process word }
{
    match kind {
        1 => Request::Open(process),
        2 => Request::Update { process, word },
        3 => Request::Scan(process),
        _ => Request::Turn(process),
    }
}

// Whether there is a request of that kind.
pub fn is_kind(kind: u32) -> bool
    ensures { result ≡ is_kind kind }
{
    matches!(kind, 1..=4)
}

// A request by its kind, where there is one of that kind.
pub fn numbered(kind: u32, process: u32, word: u32) -> Option<Request>
    ensures { result ≡ cond (is_kind kind) (Some (request_numbered kind process word)) None }
{
    if is_kind(kind) {
        Some(request_of(kind, process, word))
    } else {
        None
    }
}

fn record(kind: u32, process: u32, word: u32, next: u32) -> RecordNumbers
    ensures { result ≡ record_with 0 kind process word next }
{
    RecordNumbers {
        refusal: 0,
        kind,
        process,
        word,
        next,
    }
}

pub fn request_numbers(x: Request, next: u32) -> RecordNumbers
    ensures { result ≡ request_numbers x next }
{
    match x {
        Request::Open(count) => record(1, count, 0, next),
        Request::Update { process, word } => record(2, process, word, next),
        Request::Scan(process) => record(3, process, 0, next),
        Request::Turn(process) => record(4, process, 0, next),
    }
}

// The record that was found, or how the file ends. It is no `From`, which would take every reading: the clause `Short`, by which the
// length fits its number, stands on this function.
pub fn record_of(x: Reading) -> RecordNumbers
    requires { Short x }
    ensures { result ≡ record_numbers (reader_reply x) }
{
    match x {
        Reading::Found { record, next } => request_numbers(record, next as u32),
        Reading::End => record(0, 0, 0, 0),
        Reading::Refused(k) => RecordNumbers {
            refusal: u32::from(k),
            kind: 0,
            process: 0,
            word: 0,
            next: 0,
        },
    }
}
