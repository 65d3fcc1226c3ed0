// Comparisons within EPSILON.
ghost use Rattle.std.specs.Prelude.{◌≡◌};
ghost use Rattle.jord.specs.Numbers as spec;

use patterns::magnitude;

// The step from 1.0 to the next float, 2^-52.
pub const EPSILON: f64 = f64::EPSILON;

// Whether f is at most EPSILON in magnitude.
pub fn eq_zero(f: f64) -> bool
    ensures { result ≡ spec.eq_zero f }
{
    eq(f, 0.0)
}

// Whether the two differ by at most EPSILON.
pub fn eq(left: f64, right: f64) -> bool
    ensures { result ≡ spec.eq left right }
{
    magnitude(right - left) <= EPSILON
}

// Whether left is at most right, or equal to it within EPSILON.
pub fn lte(left: f64, right: f64) -> bool
    ensures { result ≡ spec.lte left right }
{
    (left <= right) | eq(left, right)
}

// Whether left is at least right, or equal to it within EPSILON.
pub fn gte(left: f64, right: f64) -> bool
    ensures { result ≡ spec.gte left right }
{
    (left >= right) | eq(left, right)
}
