// Lowercase hexadecimal digits: written here into lent bytes, read in unhex.
#![tactic(auto)]

ghost use Rattle.std.specs.Prelude.{◌≡◌, ◌+◌, ◌<◌};
ghost use Rattle.hex_digits.specs.Hex.{byte_of, digits};
ghost use Rattle.hex_digits.specs.Write.{Put};

pub use unhex::{all_digits, is_digit, number_at, sixteen_at, two_at};

// The byte of a digit's number.
fn byte_of(d: u64) -> u8
    requires { d < 16 }
    ensures { result ≡ byte_of d }
{
    if d < 10 {
        b'0' + d as u8
    } else {
        b'a' + (d - 10) as u8
    }
}

// The last n digits of value over out from at on, and the place past them; where they do not fit, nothing, and at.
pub fn put_number(out: &mut [u8], at: usize, value: u64, n: usize) -> usize
    ensures { Put out.old at (digits n value) out.new result }
{
    if at > out.len() || n > out.len() - at {
        return at;
    }
    let mut v = value;
    // By index: of bytes written through `iter_mut().rev()` a proof knows nothing afterwards, and the goal `returns` stays open.
    for i in (0..n).rev() {
        out[at + i] = byte_of(v % 16);
        v /= 16;
    }
    at + n
}
