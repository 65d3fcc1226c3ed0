// The remainder of two floats, over whole numbers. The language's own `%` would link the C library's fmod.
#![tactic(auto)]

ghost use Rattle.std.specs.Prelude.{◌≡◌, ◌-◌, ◌*◌, ◌%◌, ◌^◌, ◌<◌, ◌≤◌, false};
ghost use Rattle.std.specs.Float.Ieee as Ieee;
ghost use Rattle.std.specs.Float.{binary64};

use crate::modular::Shifted;
use patterns::{FIELD, SIGN, Unpacked, sign_bit, unpack};

mod modular;

// A magnitude's parts as a float: the digits are shifted up until one leads, or the place is used up.
fn of_parts(p: Unpacked) -> f64
    requires { p.place < 2046 }
    ensures { result ≡ Ieee.odd 53 false p.digits p.place 1074 }
{
    if p.digits == 0 {
        return 0.0;
    }
    let room = u64::from(p.digits.leading_zeros()) - 11;
    if room < p.place {
        return f64::from_bits((p.place - room) * FIELD + (p.digits << room));
    }
    f64::from_bits(p.digits << p.place)
}

// The remainder of two magnitudes by their parts: both are whole numbers of 2^place units, with the place of b.
fn rem_of_unpacked(a: Unpacked, b: Unpacked) -> f64
    requires { (0 < b.digits) × (b.place ≤ a.place) × (b.place < 2046) }
    ensures { result ≡ Ieee.odd 53 false (a.digits * 2 ^ (a.place - b.place) % b.digits) b.place 1074 }
{
    let dividend = Shifted {
        digits: a.digits,
        shift: a.place - b.place,
    };
    of_parts(Unpacked {
        digits: dividend.rem(b.digits),
        place: b.place,
    })
}

// x less y times the whole part of x / y: exact, with the sign of x.
pub fn rem(x: f64, y: f64) -> f64
    ensures { result ≡ Ieee.rem binary64 x y }
{
    if x.is_nan() {
        return x;
    }
    if y.is_nan() {
        return y;
    }
    if x.is_infinite() {
        return f64::NAN;
    }
    if y == 0.0 {
        return f64::NAN;
    }
    let p = f64::to_bits(x);
    let q = f64::to_bits(y);
    // By the patterns, which are at hand: their parts are taken next.
    if p % SIGN < q % SIGN {
        return x;
    }
    let r = rem_of_unpacked(unpack(p), unpack(q));
    if sign_bit(x) { -r } else { r }
}
