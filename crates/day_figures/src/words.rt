// A number as an argument writes it.
ghost use Rattle.std.specs.Prelude.{◌≡◌, ◌≤◌};
ghost use Rattle.day_figures.specs.Counts.{word_of, with_digit};

// A number of at most 9, with one digit more behind it.
fn with_digit(value: u32, byte: u8) -> u32
    requires { (value ≤ 9) × (48 ≤ byte) × (byte ≤ 57) }
    ensures value { result ≡ with_digit value byte }
    ensures upper_bound { result ≤ 9 }
{
    (value * 10 + u32::from(byte - b'0')).min(9)
}

// The number that a word of digits writes, 9 for any above; no other word writes one.
pub fn read(text: &[u8]) -> Option<u32>
    ensures { result ≡ word_of text.now }
{
    if text.is_empty() {
        return None;
    }
    let mut value = 0;
    for byte in text {
        if !matches!(*byte, b'0'..=b'9') {
            return None;
        }
        value = with_digit(value, *byte);
    }
    Some(value)
}
