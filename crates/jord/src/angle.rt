// Angles, held in radians.
ghost use Rattle.std.specs.Prelude.{◌≡◌};
ghost use Rattle.jord.specs.Angle as spec;

use crate::numbers::EPSILON;
use float::degrees::{to_degrees, to_radians};
use patterns::magnitude;
use remainders::rem;
use std::f64::consts::PI;

// An angle; two are the same where their radians are: the source's `==`.
#[derive(Clone, Copy, PartialEq)]
pub struct Angle {
    pub radians: f64,
}

impl Angle {
    // No angle.
    pub const ZERO: Angle = Angle { radians: 0.0 };

    // 90 degrees.
    pub const QUARTER_CIRCLE: Angle = Angle { radians: PI / 2.0 };

    // -90 degrees.
    pub const NEG_QUARTER_CIRCLE: Angle = Angle { radians: -PI / 2.0 };

    // 180 degrees.
    pub const HALF_CIRCLE: Angle = Angle { radians: PI };

    // -180 degrees.
    pub const NEG_HALF_CIRCLE: Angle = Angle { radians: -PI };

    // 360 degrees.
    pub const FULL_CIRCLE: Angle = Angle { radians: 2.0 * PI };

    // EPSILON radians.
    pub const DBL_EPSILON: Angle = Angle { radians: EPSILON };

    // The angle in degrees.
    pub fn as_degrees(self) -> f64
        ensures { result ≡ spec.as_degrees self }
    {
        to_degrees(self.radians)
    }

    // The angle in radians.
    pub fn as_radians(self) -> f64
        ensures { result ≡ spec.as_radians self }
    {
        self.radians
    }

    // The angle of so many degrees.
    pub fn from_degrees(degrees: f64) -> Self
        ensures { result ≡ spec.from_degrees degrees }
    {
        Angle {
            radians: to_radians(degrees),
        }
    }

    // The angle of so many radians.
    pub fn from_radians(radians: f64) -> Self
        ensures { result ≡ spec.from_radians radians }
    {
        Angle { radians }
    }

    // The angle without its sign.
    pub fn abs(self) -> Self
        ensures { result ≡ spec.abs self }
    {
        Angle {
            radians: magnitude(self.radians),
        }
    }

    // The angle less whole turns, from 0 to 2π: 2π itself for a tiny negative angle.
    pub fn normalised(self) -> Self
        ensures { result ≡ spec.normalised self }
    {
        self.normalised_to(Angle::FULL_CIRCLE)
    }

    // The angle less whole multiples of max, from 0 to max.
    pub fn normalised_to(self, max: Angle) -> Self
        ensures { result ≡ spec.normalised_to self max }
    {
        if (0.0..max.radians).contains(&self.radians) {
            self
        } else {
            let res = rem(self.radians, max.radians);
            if res < 0.0 {
                Angle {
                    radians: res + max.radians,
                }
            } else {
                Angle { radians: res }
            }
        }
    }

    // The angle times a number: the source's `Angle * f64` and `f64 * Angle`.
    pub fn mul(self, rhs: f64) -> Self
        ensures { result ≡ spec.mul self rhs }
    {
        Angle {
            radians: self.radians * rhs,
        }
    }
}
