// Places of a lent book: number, kind, process and eight words.
#![tactic(auto)]

ghost use Rattle.std.specs.Prelude.{◌≡◌, [], ◌∷◌, ◌≤◌, length, take};
ghost use Rattle.places.specs.Places.{eight, spot_in, put_in};

pub mod answers;

// The place of an entry: its word first.
pub fn entry(number: u32, process: u32, word: u32) -> [u32; 11]
    ensures { result ≡ number ∷ 2 ∷ process ∷ eight (word ∷ []) }
{
    [number, 2, process, word, 0, 0, 0, 0, 0, 0, 0]
}

// The place of a page: the first n of these words, at most eight.
pub fn page(number: u32, process: u32, words: &[u32], n: usize) -> [u32; 11]
    ensures { result ≡ number ∷ 3 ∷ process ∷ eight (take n words.now) }
{
    let mut place = [number, 3, process, 0, 0, 0, 0, 0, 0, 0, 0];
    let shown = n.min(8).min(words.len());
    place[3..3 + shown].copy_from_slice(&words[..shown]);
    place
}

// Where a place of that number belongs among the first `count`: behind the last whose number is not above its own. It is looked for
// from the end: a place is passed only by the pages of calls that were open when it was written, so by fewer than there are
// processes.
fn spot(number: u32, book: &[[u32; 11]], count: usize) -> usize
    requires { count ≤ length book.now }
    ensures value { result ≡ spot_in number book.now count }
    ensures within { result ≤ count }
{
    for i in (0..count).rev() {
        if book[i][0] <= number {
            return i + 1;
        }
    }
    0
}

// Puts a place among the first `count`: those above it move up by one. A book that has no more places stays as it is.
pub fn put(place: [u32; 11], book: &mut [[u32; 11]], count: usize)
    ensures { book.new ≡ put_in place count book.old }
{
    if book.len() <= count {
        return;
    }
    let i = spot(place[0], book, count);
    book.copy_within(i..count, i + 1);
    book[i] = place;
}
