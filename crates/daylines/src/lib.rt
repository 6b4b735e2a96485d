// What the runner prints: the line of each record, by its answer, and those of the end.
#![tactic(auto)]

ghost use Rattle.std.specs.Prelude.{◌≡◌, List, ℕ, ◌≤◌, length, take, drop};
ghost use Rattle.snapshot.specs.Values.{words_in, lasts_in};
ghost use Rattle.daytext.specs.Buffer.{laid_place, laid_text};
ghost use Rattle.daylines.specs.Printed.{call_line, answer_line, line_of, is_end};

use dayfile::Reading;
use daytext::Line;
use snapshot::{Answer, Outcome, Request};
use texts::Sheet;

// The line of a call that was accepted with the given event number.
fn call_line(x: Request, event: u32) -> Line
    ensures { result ≡ call_line event x }
{
    match x {
        Request::Update { process, word } => Line::Update {
            event,
            process,
            word,
        },
        Request::Open(count) => Line::Opened { count },
        Request::Scan(process) => Line::Scan { event, process },
        Request::Turn(process) => Line::Read { event, process },
    }
}

// The line of a request and its answer, by the event number afterwards.
fn answer_line(x: Request, event: u32, a: Answer) -> Line
    ensures { result ≡ answer_line x event a }
{
    let process = snapshot::number_in(x);
    match a {
        Answer::Refused(k) => Line::Refused {
            number: u32::from(k),
        },
        Answer::Opened => Line::Opened { count: process },
        Answer::Called => call_line(x, event),
        Answer::Read => Line::Read { event, process },
        Answer::Page { lender, at, turns } => Line::Page {
            event,
            process,
            lender,
            at,
            turns,
        },
        Answer::Written { turns } => Line::Written {
            event,
            process,
            turns,
        },
    }
}

// The line of what was read, and of its outcome.
fn line_of(x: Reading, o: Outcome) -> Line
    ensures { result ≡ line_of o x }
{
    let day = o.day;
    let answer = o.answer;
    match x {
        Reading::Found { record, next: _ } => answer_line(record, day.event, answer),
        Reading::End => Line::End { event: day.event },
        Reading::Refused(k) => Line::Refused {
            number: u32::from(k),
        },
    }
}

// Whether it is the end that was read.
pub fn is_end(x: Reading) -> bool
    ensures { result ≡ is_end x }
{
    matches!(x, Reading::End)
}

// How many of so many numbers there are in a list of that size.
fn shown(count: u32, size: usize) -> usize
    ensures { (result ≤ size)
        × ((l : List ℕ) → length l ≡ size → (take result l ≡ take count l) × (drop result l ≡ drop count l)) }
{
    size.min(count as usize)
}

// Lays the line of what was read, with the words of the page list that the day shows and the numbers of their last writings, and
// answers the place after it.
pub fn lay(x: Reading, o: Outcome, page: &[u32], out: &mut [u8], to: usize) -> usize
    ensures value { result ≡ laid_place (line_of o x) (words_in o.day.count page.now) (lasts_in o.day.count page.now)
        out.old to }
    ensures out_after { out.new ≡ laid_text (line_of o x) (words_in o.day.count page.now)
        (lasts_in o.day.count page.now) out.old to }
{
    let day = o.day;
    let n = shown(day.count, page.len());
    let end = n + shown(day.count, page.len() - n);
    let mut sheet = Sheet { out, at: to };
    laying::lay(line_of(x, o), &page[..n], &page[n..end], &mut sheet);
    sheet.at
}
