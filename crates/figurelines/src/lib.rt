// The line of a quarter's figures, laid into a lent buffer.
#![tactic(auto)]

ghost use Rattle.std.specs.Prelude.{◌+◌, ◌≤◌, ◌++◌, length};
ghost use Rattle.texts.specs.Laying.{Laid, HasRoom, Lays};
ghost use Rattle.daytext.specs.Buffer.{longest};
ghost use Rattle.figurelines.specs.FigureText.{fraction_text, figures_text, reckoning_text, laid_reckoning};

use daytext::{LONGEST, Line};
use figures::Figures;
use fractions::Fraction;
use snapshot::Refusal;
use texts::Sheet;

// Lays a text and a fraction after it.
fn fraction(text: &[u8], f: Fraction, sheet: &mut Sheet<'_>)
    requires { HasRoom sheet.old (length text.now + 41) }
    ensures laid { Lays sheet.old (text.now ++ fraction_text f) sheet.new }
    ensures upper_bound { sheet.new.at ≤ sheet.old.at + length text.now + 41 }
{
    sheet.bytes(text);
    sheet.pair(f.numerator, b"/", f.denominator);
}

// Lays the line of figures for a desk count.
fn lay_figures(desks: u32, f: Figures, sheet: &mut Sheet<'_>)
    requires { HasRoom sheet.old longest }
    ensures { Lays sheet.old (figures_text desks f) sheet.new }
{
    sheet.field(b"desks ", u64::from(desks));
    sheet.field(b" pages ", f.pages);
    fraction(b" mean ", f.mean, sheet);
    fraction(b" borrowed ", f.borrowed, sheet);
    sheet.field(b" largest ", u64::from(f.largest));
    sheet.byte(b'\n');
}

// Lays the line of a reckoning for a desk count.
fn lay_reckoning(desks: u32, reckoning: Result<Figures, Refusal>, sheet: &mut Sheet<'_>)
    requires { HasRoom sheet.old longest }
    ensures { Lays sheet.old (reckoning_text desks reckoning) sheet.new }
{
    match reckoning {
        Ok(f) => lay_figures(desks, f, sheet),
        Err(k) => {
            let number = u32::from(k);
            laying::lay(Line::Refused { number }, &[], &[], sheet);
        }
    }
}

// Lays the line of a reckoning for a desk count from the start of `out` on, and answers how many bytes it takes. Where fewer than
// LONGEST bytes are lent, it lays nothing and answers 0.
pub fn lay(desks: u32, reckoning: Result<Figures, Refusal>, out: &mut [u8]) -> usize
    ensures { Laid out.old 0 (laid_reckoning desks reckoning (length out.old)) out.new result }
{
    if out.len() < LONGEST {
        return 0;
    }
    let mut sheet = Sheet { out, at: 0 };
    lay_reckoning(desks, reckoning, &mut sheet);
    sheet.at
}
