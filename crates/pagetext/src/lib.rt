// What the lines with a page tell (crate `daytext`), laid part by part on a sheet.
#![tactic(auto)]

ghost use Rattle.std.specs.Prelude.{◌+◌, ◌≤◌, [], length};
ghost use Rattle.texts.specs.Laying.{HasRoom, Lays};
ghost use Rattle.daytext.specs.Lines.{body_of};

use daytext::Line;
use texts::Sheet;

// Lays a page: the event and the process, then the lender, the instant, the turns, the words and the numbers of their last writings.
pub fn page(
    n: u32,
    process: u32,
    lender: u32,
    instant: u32,
    turns: u32,
    words: &[u32],
    lasts: &[u32],
    sheet: &mut Sheet<'_>,
)
    requires lasts_len_bound { length words.now + length lasts.now ≤ 16 }
    requires at_in_bounds { HasRoom sheet.old 271 }
    ensures laid { Lays sheet.old
        (body_of (Line.Page n process lender instant turns) words.now lasts.now)
        sheet.new }
    ensures upper_bound { sheet.new.at ≤ sheet.old.at + 271 }
{
    sheet.pair(n, b" page ", process);
    sheet.field(b" from ", lender);
    sheet.field(b" at ", instant);
    sheet.field(b" turns ", turns);
    sheet.list(b" words", words);
    sheet.list(b" last", lasts);
}

// Lays a page as it stands in the book: its number and the process, then the words that it shows.
pub fn book_page(number: u32, process: u32, shown: &[u32], sheet: &mut Sheet<'_>)
    requires shown_len_bound { length shown.now ≤ 16 }
    requires at_in_bounds { HasRoom sheet.old 271 }
    ensures laid { Lays sheet.old (body_of (Line.BookPage number process) shown.now []) sheet.new }
    ensures upper_bound { sheet.new.at ≤ sheet.old.at + 271 }
{
    sheet.pair(number, b" page ", process);
    sheet.list(b" words", shown);
}
