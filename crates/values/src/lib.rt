// Lists of eight values, of which the first n count: laid over others, which past n stay, and into a page list. "those past n are
// touched only by an opening" (document 01).
#![tactic(auto)]

ghost use Rattle.std.specs.Prelude.{◌≤◌, ◌≡◌, length, take};
ghost use Rattle.snapshot.specs.Lists.{over};
ghost use Rattle.snapshot.specs.Values.{page_places, listed};

use snapshot::Value;

// The first n values of a over those of b.
pub fn over_values(n: usize, a: [Value; 8], b: [Value; 8]) -> [Value; 8]
    requires { n ≤ 8 }
    ensures { result ≡ over n a b }
{
    let mut r = b;
    r[..n].copy_from_slice(&a[..n]);
    r
}

// The first n of eight values over a page list: their words, and then the numbers of their writings.
pub fn lay_values(n: usize, values: [Value; 8], page: &mut [u32])
    requires { (n ≤ 8) × (page_places n ≤ length page.old) }
    ensures { page.new ≡ over (page_places n) (listed (take n values)) page.old }
{
    for (j, v) in values[..n].iter().enumerate() {
        page[j] = v.word;
        page[n + j] = v.last;
    }
}
