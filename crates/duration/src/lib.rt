// Durations are 64-bit nanoseconds.
#![tactic(auto)]

ghost use Rattle.std.specs.Prelude.{◌≡◌, ◌+◌, ◌*◌, ◌^◌, ◌≤◌, ◌<◌};
ghost use Rattle.std.specs.Float.Ieee.Nearest.{closest};
ghost use Rattle.duration.specs.Duration as spec;

use patterns::Unpacked;

// The nanoseconds of a second: 5^9 * 2^9.
const SECOND: u64 = 1_000_000_000;

// The odd factor of SECOND.
const FIVES: u64 = SECOND / 512;

// The nanoseconds of an hour, as a float.
const HOUR: f64 = 3.6e12;

// A time of this many seconds, 2^34, is too long.
const LIMIT: f64 = 17179869184.0;

// The nanoseconds of LIMIT.
const LIMIT_NANOSECONDS: f64 = LIMIT * (SECOND as f64);

// Digits at place 0 count units of 2^-UNITS.
const UNITS: u64 = 1074;

// Why a time is no duration, with document 01's numbers.
#[derive(Clone, Copy)]
pub enum OutOfRange {
    // Not zero or more, as a NaN is not.
    Negative = 14,
    // Not below 2^34 seconds.
    TooLong = 15,
}

impl OutOfRange {
    // Document 01's number.
    pub fn number(self) -> u8
        ensures { result ≡ spec.refusal_number self }
    {
        self as u8
    }
}

// Document 01's number of a conversion, 0 where there is a duration.
pub fn number_of(converted: Result<u64, OutOfRange>) -> u8
    ensures { result ≡ spec.number_of converted }
{
    match converted {
        Ok(_) => 0,
        Err(e) => e.number(),
    }
}

// The duration in nanoseconds, 0 where there is none.
pub fn nanoseconds_of(converted: Result<u64, OutOfRange>) -> u64
    ensures { result ≡ spec.nanoseconds_of converted }
{
    match converted {
        Ok(n) => n,
        Err(_) => 0,
    }
}

// The duration of t seconds: the exact value times 10^9, nearest, ties to even.
pub fn from_seconds(t: f64) -> Result<u64, OutOfRange>
    ensures { result ≡ spec.from_seconds t }
{
    if !(0.0 <= t) {
        return Err(OutOfRange::Negative);
    }
    if !(t < LIMIT) {
        return Err(OutOfRange::TooLong);
    }
    Ok(nearest_even(patterns::unpack(patterns::to_bits(t))))
}

// Not one function with that of seconds: document 01 rounds the two otherwise, and only this one multiplies as floats do.
// The duration of h hours: the float product with 3.6e12, nearest, halves away from zero.
pub fn from_hours(h: f64) -> Result<u64, OutOfRange>
    ensures { result ≡ spec.from_hours h }
{
    if !(0.0 <= h) {
        return Err(OutOfRange::Negative);
    }
    let product = h * HOUR;
    if !(product < LIMIT_NANOSECONDS) {
        return Err(OutOfRange::TooLong);
    }
    Ok(half_away(patterns::unpack(patterns::to_bits(product))))
}

// A duration's seconds: whole seconds plus nanoseconds / 1e9.
pub fn to_seconds(nanoseconds: u64) -> f64
    ensures { result ≡ spec.to_seconds nanoseconds }
{
    (nanoseconds / SECOND) as f64 + (nanoseconds % SECOND) as f64 / SECOND as f64
}

// digits * 2^place units of a second, below 2^34 seconds, in nanoseconds: nearest, ties to even.
fn nearest_even(p: Unpacked) -> u64
    requires { p.place ≤ 1055 }
    ensures { result ≡ closest (p.digits * 2 ^ p.place * spec.second) (2 ^ 1074) }
{
    // The quotient is digits * FIVES / 2^k.
    let k = UNITS - 9 - p.place;
    // Less than half a nanosecond.
    if k > 74 {
        return 0;
    }
    // The dividend has up to 74 bits: `under` is the lowest ten, `high` the others.
    let low = p.digits % 1024 * FIVES;
    let high = p.digits / 1024 * FIVES + low / 1024;
    let under = low % 1024;
    // The half's digit is the highest of `under`.
    if k == 10 {
        return settle(high, under / 512, under % 512 != 0);
    }
    let half = 1u64 << (k - 11);
    let s = high / half;
    if high % half == 0 {
        return settle(s / 2, s % 2, under != 0);
    }
    settle(s / 2, s % 2, true)
}

// q and h halves, h being 0 or 1, and whether there is a rest below them: nearest, ties to even.
#[tactic(auto, unfolding(crate::specs::Duration::settled))]
fn settle(q: u64, h: u64, rest: bool) -> u64
    requires { q + 1 < 2 ^ 64 }
    ensures { result ≡ spec.settled q h rest }
{
    if h == 0 {
        return q;
    }
    if rest {
        return q + 1;
    }
    q + q % 2
}

// digits * 2^place units, below 2^64, to the nearest whole number: halves away from zero.
fn half_away(p: Unpacked) -> u64
    requires { p.place ≤ 1085 }
    ensures { result ≡ spec.half_away (p.digits * 2 ^ p.place) (2 ^ 1074) }
{
    if p.place >= UNITS {
        return p.digits << (p.place - UNITS);
    }
    if p.place < UNITS - 53 {
        return 0;
    }
    (p.digits / (1u64 << (UNITS - 1 - p.place)) + 1) / 2
}
