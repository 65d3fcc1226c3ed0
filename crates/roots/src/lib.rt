// The square root of IEEE 754: the value nearest to the exact root.
#![tactic(auto)]

ghost use Rattle.std.specs.Prelude.{◌≡◌, ◌&&◌, not, ◌+◌, ◌-◌, ◌*◌, ◌/◌, ◌^◌, ◌≤◌, ◌<◌, leb};
ghost use Rattle.roots.specs.Root as spec;

use patterns::{FIELD, Unpacked, unpack};

// The root of m * 2^54 is sought: of 53 or 54 bits, for the power of two that is left is even.
#[derive(Clone, Copy)]
struct Radicand {
    m: u64,
    ghost fits: { m < 2 ^ 54 },
}

// A step of Newton's towards the root of s. Nothing rests on it.
fn newton(s: f64, y: f64) -> f64 {
    0.5 * (y + s / y)
}

// Whether the square of q is at most m * 2^54.
fn at_most(q: u64, m: u64) -> bool
    ensures { result ≡ leb (q * q) (m * 2 ^ 54) }
{
    u128::from(q) * u128::from(q) <= u128::from(m) << 54
}

// Whether r is half the root of m * 2^54, to the nearest whole number: the root is from 2 r - 1 to below 2 r + 1.
fn is_half_root(r: u64, m: u64) -> bool
    requires { (0 < r) × (r ≤ 2 ^ 53) }
    ensures { result ≡ (leb ((2 * r - 1) * (2 * r - 1)) (m * 2 ^ 54) && not (leb ((2 * r + 1) * (2 * r + 1)) (m * 2 ^ 54))) }
{
    at_most(2 * r - 1, m) && !at_most(2 * r + 1, m)
}

impl Radicand {
    // The whole part of the root of m * 2^54.
    fn whole_root(self) -> u64
        ensures { (result ≡ spec.whole_root (self.m * 2 ^ 54)) × (result < 2 ^ 54) }
    {
        (u128::from(self.m) << 54).isqrt() as u64
    }

    // m * 2^-52 for an m from 2^52 up. Nothing rests on it.
    #[tactic(auto, using(patterns::proofs::Pattern::no_nan))]
    fn significand(self) -> f64 {
        if self.m < 0x20_0000_0000_0000 {
            return f64::from_bits(0x3fe * FIELD + self.m);
        }
        f64::from_bits(0x3ff * FIELD + self.m / 2)
    }

    // Near half the root, for an m from 2^52 up: three of Newton's steps from a quadratic. Nothing rests on how near.
    fn estimate(self) -> u64
        ensures { (2 ^ 52 ≤ result) × (result < 2 ^ 53) }
    {
        let s = self.significand();
        let a = 0.5185546283489475 + s * (0.5260096907302437 - s * 0.03954011274601693);
        let d = newton(s, newton(s, newton(s, a)));
        if d.is_nan() {
            return FIELD;
        }
        // d * 2^52, by its bits; where d is 2, of an m just below 2^54, the last that is below 2^53: half the root is then one more.
        f64::to_bits(d)
            .saturating_sub(0x3fe * FIELD)
            .clamp(FIELD, 2 * FIELD - 1)
    }

    // Half the root, to the nearest whole number: the estimate, moved by one at most, or else by the whole root.
    fn half_root(self) -> u64
        ensures { result ≡ (spec.whole_root (self.m * 2 ^ 54) + 1) / 2 }
    {
        let r = self.estimate();
        if is_half_root(r, self.m) {
            return r;
        }
        if is_half_root(r + 1, self.m) {
            return r + 1;
        }
        if is_half_root(r - 1, self.m) {
            return r - 1;
        }
        (self.whole_root() + 1) / 2
    }
}

// The root of digits * 2^place units. The digits are first shifted up by their leading zeros.
fn root_of(p: Unpacked) -> f64
    requires { 0 < p.digits }
    ensures { result ≡ spec.round_root (p.digits * 2 ^ p.place * 2 ^ 1074) }
{
    let zeros = u64::from(p.digits.leading_zeros());
    // digits << (zeros - 11) has 53 digits; one more makes the power of two that is left even
    let top = p.place + 64 - zeros;
    let m = p.digits << (zeros - 11 + (top + 1) % 2);
    f64::from_bits((top + 969) / 2 * FIELD + Radicand { m }.half_root())
}

// The square root, by the integer root that document 01 asks for and not the machine's own: NaN for a NaN and below zero; -0, +0 and +infinity return.
pub fn sqrt(x: f64) -> f64
    ensures { result ≡ spec.sqrt x }
{
    if x.is_nan() {
        return x;
    }
    if x == 0.0 {
        return x;
    }
    if x < 0.0 {
        return f64::NAN;
    }
    if x == f64::INFINITY {
        return x;
    }
    root_of(unpack(f64::to_bits(x)))
}
