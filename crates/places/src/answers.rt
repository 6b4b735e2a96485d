// What an answer makes of a book: the words that are kept until their entries are written, and the places that it finishes.
ghost use Rattle.std.specs.Prelude.{◌≡◌, ◌<◌, ◌-◌, ◌^◌, take};
ghost use Rattle.places.specs.Answers.{word_of, words_with, words_after, count_after, book_after};

use snapshot::{Answer, Outcome, Request};

// The word of a process's last update call.
fn word_of(words: [u32; 8], process: u32) -> u32
    ensures { result ≡ word_of words process }
{
    match process {
        1..=8 => words[(process - 1) as usize],
        _ => 0,
    }
}

// The words once a process's is another.
fn with_word(mut words: [u32; 8], process: u32, word: u32) -> [u32; 8]
    ensures { result ≡ words_with words process word }
{
    if let 1..=8 = process {
        words[(process - 1) as usize] = word;
    }
    words
}

// The words after a request and its answer.
pub fn words_after(words: [u32; 8], r: Request, a: Answer) -> [u32; 8]
    ensures { result ≡ words_after words r a }
{
    let Answer::Called = a else {
        return words;
    };
    let Request::Update { process, word } = r else {
        return words;
    };
    with_word(words, process, word)
}

// Puts what an answer finishes in the book, if it finishes something, and answers how many operations are finished then.
pub fn finished(
    words: [u32; 8],
    count: usize,
    r: Request,
    o: Outcome,
    page: &[u32],
    book: &mut [[u32; 11]],
) -> usize
    requires { count < 2 ^ 64 - 1 }
    ensures value { result ≡ count_after count o.answer }
    ensures book_after { book.new ≡
        book_after words count r o.day.event
        (take o.day.count page.now) book.old o.answer }
{
    let process = snapshot::number_in(r);
    let day = o.day;
    let place = match o.answer {
        Answer::Page { at, .. } => crate::page(at, process, page, day.count as usize),
        Answer::Written { .. } => crate::entry(day.event, process, word_of(words, process)),
        _ => return count,
    };
    crate::put(place, book, count);
    count + 1
}
