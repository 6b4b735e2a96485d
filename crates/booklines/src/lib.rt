// The text of a book: a line for each of its places, then `end` and how many there are, laid into a lent buffer.
#![tactic(auto)]

ghost use Rattle.std.specs.Prelude.{◌≡◌, ◌+◌, ◌*◌, ◌≤◌, length};
ghost use Rattle.texts.specs.Laying.{Laid, HasRoom, Lays};
ghost use Rattle.daytext.specs.Buffer.{longest};
ghost use Rattle.booklines.specs.PlaceText.{place_line, place_text, places_text, longest_place, has_room, laid_book};

use daytext::{LONGEST, Line};
use texts::Sheet;

// A book has fewer places than a day has events.
const MOST: usize = 65535;

// The bytes of a book's longest line.
const PLACE: usize = 121;

// The line of a place: its number, its kind, which is 2 for an entry, its process and its words.
fn line_of(place: &[u32; 11]) -> Line
    ensures { result ≡ place_line place.now }
{
    if place[1] == 2 {
        return Line::Update {
            event: place[0],
            process: place[2],
            word: place[3],
        };
    }
    Line::BookPage {
        number: place[0],
        process: place[2],
    }
}

// Lays the line of a place, with the first n of its words.
fn lay_place(place: &[u32; 11], n: usize, sheet: &mut Sheet<'_>)
    requires { (n ≤ 8) × HasRoom sheet.old longest }
    ensures laid { Lays sheet.old (place_text n place.now) sheet.new }
    ensures upper_bound { sheet.new.at ≤ sheet.old.at + longest_place }
{
    let numbers = &place[..];
    laying::lay(line_of(place), &numbers[3..3 + n], &[], sheet);
}

// Lays the lines of places.
fn lay_places(places: &[[u32; 11]], n: usize, sheet: &mut Sheet<'_>)
    requires { (n ≤ 8) × HasRoom sheet.old (longest_place * length places.now + longest) }
    ensures laid { Lays sheet.old (places_text n places.now) sheet.new }
    ensures upper_bound { sheet.new.at ≤ sheet.old.at + longest_place * length places.now }
{
    for place in places {
        lay_place(place, n, sheet);
    }
}

// Whether so many of the places, with n words a page, are laid into so many bytes.
fn has_room(count: usize, n: usize, places: usize, room: usize) -> bool
    ensures { result ≡ has_room count n places room }
{
    if places < count {
        return false;
    }
    if MOST < count {
        return false;
    }
    if 8 < n {
        return false;
    }
    PLACE * count + LONGEST <= room
}

// Lays the lines of the first `count` places, with n words a page, and the end from the start of `out` on, and answers how many
// bytes they take. Where they do not fit, or there are fewer places or more words than that, it lays nothing and answers 0. The count
// stands beside the places and does not cut them, since more than there are is no fault of the caller's but answered with 0 (what may not change: `laid_book`).
pub fn lay_book(book: &[[u32; 11]], count: usize, n: usize, out: &mut [u8]) -> usize
    ensures { Laid out.old 0
        (laid_book book.now count n (length out.old)) out.new result }
{
    if !has_room(count, n, book.len(), out.len()) {
        return 0;
    }
    let mut sheet = Sheet { out, at: 0 };
    lay_places(&book[..count], n, &mut sheet);
    let event = count as u32;
    laying::lay(Line::End { event }, &[], &[], &mut sheet);
    sheet.at
}
