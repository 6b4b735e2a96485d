// Any printed line (crate `daytext`), laid on a sheet where there is room for it.
#![tactic(auto)]

ghost use Rattle.std.specs.Prelude.{◌+◌, ◌≤◌, ◌≡◌, length};
ghost use Rattle.texts.specs.Laying.{HasRoom, SameBuffer, Lays};
ghost use Rattle.daytext.specs.Lines.{body_of};
ghost use Rattle.daytext.specs.Buffer.{laid_place, laid_text};

use daytext::{LONGEST, Line};
use texts::Sheet;

// Lays what a line tells, without its line feed. The room is asked for here and for the two lines with a page (`pagetext`), and is in no
// invariant of the sheet: it shrinks with each text, so that a type that held it would be made anew after each, which is no plainer.
pub fn body(line: Line, words: &[u32], lasts: &[u32], sheet: &mut Sheet<'_>)
    requires lasts_len_bound { length words.now + length lasts.now ≤ 16 }
    requires at_in_bounds { HasRoom sheet.old 271 }
    ensures laid { Lays sheet.old (body_of line words.now lasts.now) sheet.new }
    ensures upper_bound { sheet.new.at ≤ sheet.old.at + 271 }
{
    match line {
        Line::Opened { count } => sheet.field(b"open ", count),
        Line::Update {
            event,
            process,
            word,
        } => {
            sheet.pair(event, b" entry ", process);
            sheet.field(b" ", word);
        }
        Line::Scan { event, process } => sheet.pair(event, b" asked ", process),
        Line::Read { event, process } => sheet.pair(event, b" read ", process),
        Line::Written {
            event,
            process,
            turns,
        } => {
            sheet.pair(event, b" written ", process);
            sheet.field(b" turns ", turns);
        }
        Line::Page {
            event,
            process,
            lender,
            at,
            turns,
        } => pagetext::page(event, process, lender, at, turns, words, lasts, sheet),
        Line::BookPage { number, process } => pagetext::book_page(number, process, words, sheet),
        Line::Refused { number } => sheet.field(b"refused ", number),
        Line::End { event } => sheet.field(b"end ", event),
    }
}

// Lays the line; `words` are those of a page, and `lasts` the numbers of their last writings. Where there are more than 16 of both, or
// fewer than LONGEST bytes are left, the sheet stays as it is.
pub fn lay(line: Line, words: &[u32], lasts: &[u32], sheet: &mut Sheet<'_>)
    ensures same_buffer { SameBuffer sheet.old sheet.new }
    ensures value { sheet.new.at ≡ laid_place line words.now lasts.now sheet.old.out.now sheet.old.at }
    ensures out_after { sheet.new.out.now
        ≡ laid_text line words.now lasts.now sheet.old.out.now sheet.old.at }
{
    if 16 < words.len() {
        return;
    }
    if 16 - words.len() < lasts.len() {
        return;
    }
    if sheet.out.len() < LONGEST {
        return;
    }
    if sheet.out.len() - LONGEST < sheet.at {
        return;
    }
    body(line, words, lasts, sheet);
    sheet.byte(b'\n');
}
