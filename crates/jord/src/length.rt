// Lengths, held in metres.
ghost use Rattle.std.specs.Prelude.{◌≡◌};
ghost use Rattle.jord.specs.Length as spec;

use crate::angle::Angle;

// A length.
#[derive(Clone, Copy)]
pub struct Length {
    pub metres: f64,
}

// The units have functions of their own, as in the source: each is one product or quotient, which a shared one would only name again.
impl Length {
    const FT_TO_M: f64 = 0.3048;

    const NM_TO_M: f64 = 1852.0;

    const KM_TO_M: f64 = 1000.0;

    // No length.
    pub const ZERO: Length = Length { metres: 0.0 };

    // The greatest finite length.
    pub const MAX: Length = Length { metres: f64::MAX };

    // The length of so many metres.
    pub fn from_metres(metres: f64) -> Self
        ensures { result ≡ spec.from_metres metres }
    {
        Length { metres }
    }

    // The length of so many kilometres.
    pub fn from_kilometres(kilometres: f64) -> Self
        ensures { result ≡ spec.from_kilometres kilometres }
    {
        Length::from_metres(kilometres * Length::KM_TO_M)
    }

    // The length of so many feet.
    pub fn from_feet(feet: f64) -> Self
        ensures { result ≡ spec.from_feet feet }
    {
        Length::from_metres(feet * Length::FT_TO_M)
    }

    // The length of so many nautical miles.
    pub fn from_nautical_miles(miles: f64) -> Self
        ensures { result ≡ spec.from_nautical_miles miles }
    {
        Length::from_metres(miles * Length::NM_TO_M)
    }

    // The length in metres.
    pub fn as_metres(self) -> f64
        ensures { result ≡ spec.as_metres self }
    {
        self.metres
    }

    // The length in kilometres.
    pub fn as_kilometres(self) -> f64
        ensures { result ≡ spec.as_kilometres self }
    {
        self.metres / Length::KM_TO_M
    }

    // The length in feet.
    pub fn as_feet(self) -> f64
        ensures { result ≡ spec.as_feet self }
    {
        self.metres / Length::FT_TO_M
    }

    // The length in nautical miles.
    pub fn as_nautical_miles(self) -> f64
        ensures { result ≡ spec.as_nautical_miles self }
    {
        self.metres / Length::NM_TO_M
    }

    // The length, negated where it is not zero or more: -0.0 stays.
    pub fn abs(self) -> Self
        ensures { result ≡ spec.abs self }
    {
        if self.metres >= 0.0 {
            self
        } else {
            Length {
                metres: -self.metres,
            }
        }
    }

    // The length times a number: the source's `Length * f64` and `f64 * Length`.
    pub fn mul(self, rhs: f64) -> Self
        ensures { result ≡ spec.mul self rhs }
    {
        Length {
            metres: self.metres * rhs,
        }
    }

    // The arc of an angle about this radius: the source's `Length * Angle` and `Angle * Length`.
    pub fn mul_angle(self, rhs: Angle) -> Self
        ensures { result ≡ spec.mul_angle self rhs }
    {
        Length {
            metres: rhs.radians * self.metres,
        }
    }
}
