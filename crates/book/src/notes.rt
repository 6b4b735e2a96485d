// A pass over a day file: each record is read and asked of the table, and what it finishes is put in the book.
ghost use Rattle.std.specs.Prelude.{◌≡◌, ◌≤◌, length, replicate};
ghost use Rattle.snapshot.specs.Values.{words_in};
ghost use Rattle.book.specs.Passes.{blank_notes, next_after, Consumes, notes_past, book_past, Passed};

use dayfile::Reading;
use memory::table;
use places::answers;
use snapshot::{Day, Outcome};

// How far a pass has come: the day, the place of the next record and the end of the file, whether all is done, how many operations
// are finished, and for each process the word of its last update call.
#[derive(Clone, Copy)]
pub struct Notes {
    pub day: Day,
    pub at: usize,
    pub end: usize,
    pub ended: bool,
    pub count: usize,
    pub words: [u32; 8],
}

// The beginning of a pass over a file of that many bytes.
fn start(end: usize) -> Notes
    ensures { result ≡ blank_notes end }
{
    Notes {
        day: snapshot::blank(),
        at: 0,
        end,
        ended: false,
        count: 0,
        words: [0; 8],
    }
}

// The next record of the file, or how it ends.
fn next_of(s: Notes, bytes: &[u8]) -> Reading
    requires { s.at ≤ s.end × s.end ≤ length bytes.now }
    ensures { (result ≡ next_after s bytes.now) × Consumes result s }
{
    dayfile::read(&bytes[s.at..s.end])
}

// The notes once what was read has happened. A refusal of the reader ends the file.
fn noted(s: Notes, x: Reading, o: Outcome, page: &[u32], book: &mut [[u32; 11]]) -> Notes
    requires { Consumes x s × s.count ≤ s.at }
    ensures value { result ≡ notes_past s x o }
    ensures book_after { book.new ≡
        book_past s x o (words_in o.day.count page.now) book.old }
{
    let Reading::Found { record, next } = x else {
        return Notes {
            day: o.day,
            ended: true,
            ..s
        };
    };
    Notes {
        day: o.day,
        at: s.at + next,
        end: s.end,
        ended: false,
        count: answers::finished(s.words, s.count, record, o, page, book),
        words: answers::words_after(s.words, record, o.answer),
    }
}

// Reads the records of a file, asks each of the table, and puts what it finishes in the book. `s` is the beginning.
fn run(s: Notes, bytes: &[u8], book: &mut [[u32; 11]], page: &mut [u32]) -> Notes
    requires { s ≡ blank_notes (length bytes.now) }
    ensures { Passed result bytes.now page.old book.old book.new }
{
    let mut table = table::blank();
    let mut notes = s;
    // The file's own records end it: no index is counted here, so a `for` would be no plainer.
    while !notes.ended {
        let x = next_of(notes, bytes);
        let n = days::lent_for(notes.day, x);
        let o = days::asked(notes.day, &mut table[..n], x, page);
        notes = noted(notes, x, o, page, book);
    }
    notes
}

// A pass over a file, with a page list of its own.
pub fn pass(bytes: &[u8], book: &mut [[u32; 11]]) -> Notes
    ensures { Passed result bytes.now (replicate 16 0) book.old book.new }
{
    let mut page = [0u32; 16];
    run(start(bytes.len()), bytes, book, &mut page)
}
