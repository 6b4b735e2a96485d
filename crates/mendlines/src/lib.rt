// The lines of what was dropped from a damaged day file, one a drop, laid into a lent buffer.
#![tactic(auto)]

ghost use Rattle.std.specs.Prelude.{◌+◌, ◌*◌, ◌≤◌, length};
ghost use Rattle.texts.specs.Laying.{Laid, HasRoom, Lays};
ghost use Rattle.mendlines.specs.DropText.{longest_drop, row_text, rows_text};

use texts::Sheet;

// Lays the line of a row: its byte count, its first byte and the number of its refusal.
fn lay_row(row: &[u64; 3], sheet: &mut Sheet<'_>)
    requires { HasRoom sheet.old longest_drop }
    ensures laid { Lays sheet.old (row_text row.now) sheet.new }
    ensures upper_bound { sheet.new.at ≤ sheet.old.at + longest_drop }
{
    let [first, count, number] = *row;
    sheet.field(b"dropped ", count);
    sheet.field(b" at ", first);
    sheet.field(b" refused ", number);
    sheet.byte(b'\n');
}

// Lays the lines of rows from the start of `out` on, and answers how many bytes they take.
pub fn lay_rows(rows: &[[u64; 3]], out: &mut [u8]) -> usize
    requires { longest_drop * length rows.now ≤ length out.old }
    ensures { Laid out.old 0 (rows_text rows.now) out.new result }
{
    let mut sheet = Sheet { out, at: 0 };
    for row in rows {
        lay_row(row, &mut sheet);
    }
    sheet.at
}
