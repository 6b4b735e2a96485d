// The book of a day file: its finished operations in one order, a place for each.
#![tactic(auto)]

ghost use Rattle.std.specs.Prelude.{◌≡◌, leb, length};
ghost use Rattle.book.specs.DayBooks.{processes_in, book_in};
ghost use Rattle.book.specs.Places.{booking_of, book_with};

use snapshot::Refusal;

mod notes;

// How many places of a book were written, and for how many processes the day is.
#[derive(Clone, Copy, Debug, PartialEq, Eq)]
pub struct Booked {
    pub places: usize,
    pub processes: u32,
}

// No book has more places: a day has at most 65,535 events, and a finished operation takes three of them at least.
const MOST: usize = 21845;

// Whether a book has a place for each finished operation. A pass that is lent none of its places counts them, if they can be too
// many.
fn has_room(bytes: &[u8], book: &mut [[u32; 11]]) -> bool
    ensures value { result ≡ leb (length (book_in bytes.now)) (length book.old) }
    ensures book_unchanged { book.new ≡ book.old }
{
    let room = book.len();
    if MOST <= room {
        return true;
    }
    let counted = notes::pass(bytes, &mut book[..0]);
    counted.count <= room
}

// Runs the records of a day file as the day runner does, and writes its book: from the first place on, one for each finished
// operation. The later places stay as they are. A book that has fewer places stays whole, and is refused (12).
pub fn write(bytes: &[u8], book: &mut [[u32; 11]]) -> Result<Booked, Refusal>
    ensures value { result ≡ booking_of (book_in bytes.now) (processes_in bytes.now) (length book.old) }
    ensures book_after { book.new ≡ book_with (book_in bytes.now) book.old }
{
    if !has_room(bytes, book) {
        return Err(Refusal::RoomShort);
    }
    let written = notes::pass(bytes, book);
    Ok(Booked {
        places: written.count,
        processes: written.day.count,
    })
}
