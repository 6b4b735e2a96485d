// Fractions in lowest terms.
#![tactic(auto)]

ghost use Rattle.std.specs.Prelude.{◌≡◌};
ghost use Rattle.fractions.specs.Fractions.{greatest_divisor, lowest_terms};

#[derive(Clone, Copy)]
pub struct Fraction {
    pub numerator: u64,
    pub denominator: u64,
}

// The greatest common divisor of two numbers, by Euclid's divisions; of 0 and 0 it is 0. The loop stays a `while`: it counts nothing
// and runs over nothing, so that no `for` is plainer.
pub fn gcd(a: u64, b: u64) -> u64
    ensures { result ≡ greatest_divisor a b }
{
    let mut x = a;
    let mut y = b;
    while 0 < y {
        let rest = x % y;
        x = y;
        y = rest;
    }
    x
}

// a over b in lowest terms. Over 0 it is 1, or 0 where a is 0 too.
pub fn lowest(a: u64, b: u64) -> Fraction
    ensures { result ≡ lowest_terms a b }
{
    let g = gcd(a, b);
    if g == 0 {
        return Fraction {
            numerator: 0,
            denominator: 0,
        };
    }
    Fraction {
        numerator: a / g,
        denominator: b / g,
    }
}
