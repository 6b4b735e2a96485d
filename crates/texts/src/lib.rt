// Text laid on a sheet: a lent buffer, and the place up to which it is filled.
#![tactic(auto)]

ghost use Rattle.std.specs.Prelude.{ℕ, ◌≡◌, ◌+◌, ◌*◌, ◌≤◌, List, ◌∷◌, [], ◌++◌, map, length};
ghost use Rattle.texts.specs.Decimal.{decimal, long_decimal, trailing_digits};
ghost use Rattle.texts.specs.Laying.{spaced, with_text, HasRoom, Lays};

// A lent buffer, and the place where the next text is laid.
#[derive(Drop)]
pub struct Sheet<'a> {
    pub out: &'a mut [u8],
    pub at: usize,
}

// A number that is laid in decimal, with at most MOST digits.
pub trait Number: Copy {
    ghost MOST: { ℕ };

    const MOST: usize;

    ghost numeral: { Self → List ℕ };

    fn lay(self, sheet: &mut Sheet<'_>)
        requires { HasRoom sheet.old MOST }
        ensures laid { Lays sheet.old (numeral self) sheet.new }
        ensures upper_bound { sheet.new.at ≤ sheet.old.at + MOST };
}

impl Number for u32 {
    ghost MOST = { 10 };

    const MOST: usize = 10;

    ghost numeral = { decimal };

    fn lay(self, sheet: &mut Sheet<'_>) {
        if self < 10 {
            return sheet.byte(b'0' + self as u8);
        }
        sheet.numeral(u64::from(self), places(self));
    }
}

impl Number for u64 {
    ghost MOST = { 20 };

    const MOST: usize = 20;

    ghost numeral = { long_decimal };

    fn lay(self, sheet: &mut Sheet<'_>) {
        let n = self;
        if n < 10 {
            return sheet.byte(b'0' + n as u8);
        }
        sheet.numeral(n, n.ilog10() as usize + 1);
    }
}

// How many digits n has, where it has more than one. std's `ilog10` was tried: some three instructions a number more.
fn places(n: u32) -> usize
    requires { 10 ≤ n }
    ensures { decimal n ≡ trailing_digits result n }
{
    if n < 100 {
        return 2;
    }
    if n < 1000 {
        return 3;
    }
    if n < 10000 {
        return 4;
    }
    if n < 100000 {
        return 5;
    }
    if n < 1000000 {
        return 6;
    }
    if n < 10000000 {
        return 7;
    }
    if n < 100000000 {
        return 8;
    }
    if n < 1000000000 {
        return 9;
    }
    10
}

// Stores the last k digits of n at `at`, from the right.
fn digits(n: u64, k: usize, out: &mut [u8], at: usize)
    requires { at + k ≤ length out.old }
    ensures { out.new ≡ with_text out.old at (trailing_digits k n) }
{
    let mut rest = n;
    for i in (0..k).rev() {
        out[at + i] = b'0' + (rest % 10) as u8;
        rest /= 10;
    }
}

impl<'a> Sheet<'a> {
    // Lays one byte.
    pub fn byte(&mut self, b: u8)
        requires { HasRoom self.old 1 }
        ensures { Lays self.old (b ∷ []) self.new }
    {
        self.out[self.at] = b;
        self.at += 1;
    }

    // Lays the bytes of a text, one by one: `copy_from_slice` was tried, and a record of the day runner took 13 instructions more.
    pub fn bytes(&mut self, text: &[u8])
        requires { HasRoom self.old (length text.now) }
        ensures { Lays self.old text.now self.new }
    {
        for b in text {
            self.byte(*b);
        }
    }

    // Lays the last k digits of n.
    fn numeral(&mut self, n: u64, k: usize)
        requires { HasRoom self.old k }
        ensures { Lays self.old (trailing_digits k n) self.new }
    {
        digits(n, k, self.out, self.at);
        self.at += k;
    }

    // Lays a number in decimal.
    pub fn number<N: Number>(&mut self, n: N)
        requires { HasRoom self.old N.MOST }
        ensures laid { Lays self.old (N.numeral n) self.new }
        ensures upper_bound { self.new.at ≤ self.old.at + N.MOST }
    {
        n.lay(self);
    }

    // Lays a text and a number after it.
    #[inline(always)]
    pub fn field<N: Number>(&mut self, text: &[u8], n: N)
        requires { HasRoom self.old (length text.now + N.MOST) }
        ensures laid { Lays self.old (text.now ++ N.numeral n) self.new }
        ensures upper_bound { self.new.at ≤ self.old.at + length text.now + N.MOST }
    {
        self.bytes(text);
        self.number(n);
    }

    // Lays two numbers with a text between them. Where it is called the text is known, so it is laid out there, as `field` is.
    #[inline(always)]
    pub fn pair<N: Number>(&mut self, m: N, text: &[u8], n: N)
        requires { HasRoom self.old (length text.now + 2 * N.MOST) }
        ensures laid { Lays self.old (N.numeral m ++ (text.now ++ N.numeral n)) self.new }
        ensures upper_bound { self.new.at ≤ self.old.at + length text.now + 2 * N.MOST }
    {
        self.number(m);
        self.field(text, n);
    }

    // Lays a text and numbers after it, with a space before each.
    pub fn list<N: Number>(&mut self, text: &[u8], ns: &[N])
        requires { HasRoom self.old (length text.now + (N.MOST + 1) * length ns.now) }
        ensures laid { Lays self.old (text.now ++ spaced (map N.numeral ns.now)) self.new }
        ensures upper_bound { self.new.at ≤ self.old.at + length text.now + (N.MOST + 1) * length ns.now }
    {
        self.bytes(text);
        for n in ns {
            self.byte(b' ');
            self.number(*n);
        }
    }
}
