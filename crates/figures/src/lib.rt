// Figures for the quarter: of page answers, each with its day's desk count, the mean turns of a page, the share of borrowed pages and
// the largest turn count.
#![tactic(auto)]

ghost use Rattle.std.specs.Prelude.{◌≡◌, ◌≤◌, map, length};
ghost use Rattle.figures.specs.Figures.{answer_in, reckoned};
ghost use Rattle.figures.specs.Sums.{no_sums, with_page, with_answer, sums_from, SumsOf, Grown};

use fractions::Fraction;
use snapshot::Refusal;

// How many pages there are, their mean turns, the share of those that are borrowed, and the turns of the one that took most.
#[derive(Clone, Copy)]
pub struct Figures {
    pub pages: u64,
    pub mean: Fraction,
    pub borrowed: Fraction,
    pub largest: u32,
}

// Of the pages that were looked at: how many there are, their turns in all, how many are borrowed, and the most turns of one.
#[derive(Clone, Copy, Default)]
pub struct Sums {
    pub pages: u64,
    pub turns: u64,
    pub borrowed: u64,
    pub largest: u32,
}

// The most answers that figures are made of.
const MOST: usize = 65535;

// The sums with one page more.
fn with_page(s: Sums, lender: u32, turns: u32) -> Sums
    requires { SumsOf 65535 s }
    ensures value { result ≡ with_page s lender turns }
    ensures grown { Grown s result }
{
    Sums {
        pages: s.pages + 1,
        turns: s.turns + u64::from(turns),
        borrowed: s.borrowed + u64::from(lender != 0),
        largest: s.largest.max(turns),
    }
}

// The sums with one answer more, if it is of a day with that desk count.
fn with_answer(s: Sums, desks: u32, answer: &[u32; 3]) -> Sums
    requires { SumsOf 65535 s }
    ensures value { result ≡ with_answer desks s (answer_in answer.now) }
    ensures grown { Grown s result }
{
    if answer[0] != desks {
        return s;
    }
    with_page(s, answer[1], answer[2])
}

// The sums of the answers of days with that desk count.
fn sum_up(desks: u32, answers: &[[u32; 3]]) -> Sums
    requires { length answers.now ≤ 65535 }
    ensures { result ≡ sums_from desks no_sums (map answer_in answers.now) }
{
    let mut s = Sums::default();
    for answer in answers {
        s = with_answer(s, desks, answer);
    }
    s
}

// The figures of a list of page answers, for a desk count, or why there are none. An answer is three numbers: its day's desk count, its lender and its turns.
pub fn reckon(desks: u32, answers: &[[u32; 3]]) -> Result<Figures, Refusal>
    ensures { result ≡ reckoned desks (map answer_in answers.now) }
{
    if desks < 1 {
        return Err(Refusal::CountRange);
    }
    if 8 < desks {
        return Err(Refusal::CountRange);
    }
    if MOST < answers.len() {
        return Err(Refusal::TooMany);
    }
    let s = sum_up(desks, answers);
    if s.pages == 0 {
        return Err(Refusal::NoPage);
    }
    Ok(Figures {
        pages: s.pages,
        mean: fractions::lowest(s.turns, s.pages),
        borrowed: fractions::lowest(s.borrowed, s.pages),
        largest: s.largest,
    })
}
