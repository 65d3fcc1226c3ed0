// Sine, cosine and atan2 in document 01's words, operation by operation.
ghost use Rattle.std.specs.Prelude.{◌≡◌, Float};
ghost use Rattle.patterns.specs.Operators.{◌⊗◌};
ghost use Rattle.float.specs.Once as once;
ghost use Rattle.float.specs.Trig as spec;

use patterns::{magnitude, sign_bit};
use remainders::rem;
pub use std::f64::consts::PI;

// Above this ratio, near the tangent of PI / 8, the arc is taken from PI / 4.
const ARC_BOUND: f64 = 0.4140625;

// The sine and the cosine of one angle.
#[derive(Clone, Copy)]
pub struct SinCos {
    pub sin: f64,
    pub cos: f64,
}

// What is left of an angle's magnitude: j quarter turns and y radians. As an enum j would be cast to a number for the offset and in each contract.
#[derive(Clone, Copy)]
struct Reduction {
    j: u8,
    y: f64,
}

// (-1)^k / (2k + 1)!, k from 8 down to 0.
const SINE: [f64; 9] = [
    1.0 / 355687428096000.0,
    -1.0 / 1307674368000.0,
    1.0 / 6227020800.0,
    -1.0 / 39916800.0,
    1.0 / 362880.0,
    -1.0 / 5040.0,
    1.0 / 120.0,
    -1.0 / 6.0,
    1.0 / 1.0,
];

// (-1)^k / (2k)!, k from 9 down to 0.
const COSINE: [f64; 10] = [
    -1.0 / 6402373705728000.0,
    1.0 / 20922789888000.0,
    -1.0 / 87178291200.0,
    1.0 / 479001600.0,
    -1.0 / 3628800.0,
    1.0 / 40320.0,
    -1.0 / 720.0,
    1.0 / 24.0,
    -1.0 / 2.0,
    1.0 / 1.0,
];

// (-1)^k / (2k + 1), k from 20 down to 0.
const ARC: [f64; 21] = [
    1.0 / 41.0,
    -1.0 / 39.0,
    1.0 / 37.0,
    -1.0 / 35.0,
    1.0 / 33.0,
    -1.0 / 31.0,
    1.0 / 29.0,
    -1.0 / 27.0,
    1.0 / 25.0,
    -1.0 / 23.0,
    1.0 / 21.0,
    -1.0 / 19.0,
    1.0 / 17.0,
    -1.0 / 15.0,
    1.0 / 13.0,
    -1.0 / 11.0,
    1.0 / 9.0,
    -1.0 / 7.0,
    1.0 / 5.0,
    -1.0 / 3.0,
    1.0 / 1.0,
];

// The Horner value in z of the coefficients, the highest power's first: product, then sum.
fn horner<const N: usize>(coefficients: &[f64; N], z: f64) -> f64
    ensures { result ≡ once.horner coefficients.now z }
{
    match coefficients.split_first() {
        Some((first, rest)) => rest.iter().fold(*first, |s, c| s * z + *c),
        None => 0.0,
    }
}

// A series of odd powers: y times the Horner value in y * y.
fn odd_series<const N: usize>(coefficients: &[f64; N], y: f64) -> f64
    ensures { result ≡ y ⊗ once.horner coefficients.now (y ⊗ y) }
{
    y * horner(coefficients, y * y)
}

// S: the series of the sine.
fn sine_series(y: f64) -> f64
    ensures { result ≡ spec.sine_series y }
{
    odd_series(&SINE, y)
}

// C: the series of the cosine, of even powers.
fn cosine_series(y: f64) -> f64
    ensures { result ≡ spec.cosine_series y }
{
    horner(&COSINE, y * y)
}

// r: the magnitude less whole turns; a NaN for a NaN or an infinity.
fn reduced(x: f64) -> f64
    ensures { result ≡ spec.reduced x }
{
    // A NaN leaves first, so that no test for one lengthens the way of the others.
    if x.is_nan() {
        return x;
    }
    let a = magnitude(x);
    // Most angles are within a turn.
    if a < 2.0 * PI {
        return a;
    }
    rem(a, 2.0 * PI)
}

// j: the quarter turns nearest to r.
fn quarters(r: f64) -> u8
    ensures { result ≡ spec.quarters r }
{
    if r < 0.25 * PI {
        return 0;
    }
    if r < 0.75 * PI {
        return 1;
    }
    if r < 1.25 * PI {
        return 2;
    }
    if r < 1.75 * PI {
        return 3;
    }
    4
}

// y: r less j quarter turns.
fn offset(r: f64, j: u8) -> f64
    ensures { result ≡ spec.offset r j }
{
    r - (j as f64) * (PI / 2.0)
}

// j and y of an angle: one reduction for sine, cosine and both. Without the hint a sine calls it, and takes 1.2 of the time.
#[inline]
fn reduce(x: f64) -> Reduction
    ensures { result ≡ once.reduce x }
{
    let r = reduced(x);
    let j = quarters(r);
    let y = offset(r, j);
    Reduction { j, y }
}

// What j quarter turns, 0 to 4, make of s with c the next: s, c, -s, -c, s. Of the two it works out the one that it gives.
fn turned<S: Fn() -> f64, C: Fn() -> f64>(j: u8, s: S, c: C) -> f64
    requires s { S.IsAlwaysCallable s }
    requires c { C.IsAlwaysCallable c }
    ensures { (a b : Float) → once.Gives (S.post s) a → once.Gives (C.post c) b → result ≡ once.turned j a b }
{
    match j {
        0 => s(),
        1 => c(),
        2 => -s(),
        3 => -c(),
        _ => s(),
    }
}

// Sine for j 0 to 4: S, C, -S, -C, S.
fn sine_at(a: Reduction) -> f64
    ensures { result ≡ spec.sine_at a.j a.y }
{
    turned(a.j, || sine_series(a.y), || cosine_series(a.y))
}

// Cosine for j 0 to 4: C, -S, -C, S, C.
fn cosine_at(a: Reduction) -> f64
    ensures { result ≡ spec.cosine_at a.j a.y }
{
    turned(a.j, || cosine_series(a.y), || -sine_series(a.y))
}

// Both for j 0 to 4, from one S and one C; with the sine placed first the compiled code has a jump more.
fn both_at(a: Reduction) -> SinCos
    ensures { result ≡ once.both_at a.j a.y }
{
    let s = sine_series(a.y);
    let c = cosine_series(a.y);
    let cos = turned(a.j, || c, || -s);
    let sin = turned(a.j, || s, || c);
    SinCos { sin, cos }
}

// Sine and cosine at once; NaNs for a NaN or an infinity.
pub fn sin_cos(x: f64) -> SinCos
    ensures { result ≡ spec.sin_cos x }
{
    // A NaN leaves first, so that no test for one lengthens the way of the others.
    if x.is_nan() {
        return SinCos { sin: x, cos: x };
    }
    let a = reduce(x);
    let both = both_at(a);
    SinCos {
        sin: negated_if(sign_bit(x), both.sin),
        cos: both.cos,
    }
}

// The same, each stored in a number that is lent, as C takes it.
pub fn sin_cos_into(x: f64, sin: &mut f64, cos: &mut f64)
    ensures { (sin.new ≡ spec.sin x) × (cos.new ≡ spec.cos x) }
{
    let both = sin_cos(x);
    *sin = both.sin;
    *cos = both.cos;
}

// The sine; a NaN for a NaN or an infinity.
pub fn sin(x: f64) -> f64
    ensures { result ≡ spec.sin x }
{
    negated_if(sign_bit(x), sine_at(reduce(x)))
}

// The cosine; a NaN for a NaN or an infinity.
pub fn cos(x: f64) -> f64
    ensures { result ≡ spec.cos x }
{
    cosine_at(reduce(x))
}

// The series of the arc.
fn arc_series(u: f64) -> f64
    ensures { result ≡ spec.arc_series u }
{
    odd_series(&ARC, u)
}

// The lesser over the greater: 0 where both are zero, 1 where both are infinite.
fn quotient(lesser: f64, greater: f64) -> f64
    ensures { result ≡ spec.quotient lesser greater }
{
    if greater == 0.0 {
        return 0.0;
    }
    if lesser == f64::INFINITY {
        return 1.0;
    }
    lesser / greater
}

// t: the lesser of two magnitudes over the greater.
fn ratio(a: f64, b: f64) -> f64
    ensures { result ≡ spec.ratio a b }
{
    if a < b {
        quotient(a, b)
    } else {
        quotient(b, a)
    }
}

// α: the arc whose tangent is t.
fn arc(t: f64) -> f64
    ensures { result ≡ spec.arc t }
{
    if t > ARC_BOUND {
        PI / 4.0 + arc_series((t - 1.0) / (t + 1.0))
    } else {
        0.0 + arc_series(t)
    }
}

fn negated_if(b: bool, x: f64) -> f64
    ensures { result ≡ spec.negated_if b x }
{
    if b { -x } else { x }
}

fn subtracted_if(b: bool, c: f64, x: f64) -> f64
    ensures { result ≡ spec.subtracted_if b c x }
{
    if b { c - x } else { x }
}

// The angle of (x, y) from the x axis; a NaN if either is.
pub fn atan2(y: f64, x: f64) -> f64
    ensures { result ≡ spec.atan2 y x }
{
    if y.is_nan() | x.is_nan() {
        return f64::NAN;
    }
    let a = magnitude(y);
    let b = magnitude(x);
    let t = arc(ratio(a, b));
    let u = subtracted_if(a > b, PI / 2.0, t);
    let v = subtracted_if(sign_bit(x), PI, u);
    negated_if(sign_bit(y), v)
}
