// Speeds, held in metres a second. Durations are nanoseconds.
ghost use Rattle.std.specs.Prelude.{◌≡◌};
ghost use Rattle.jord.specs.Speed as spec;

use crate::length::Length;
use duration::to_seconds;

// A speed.
#[derive(Clone, Copy)]
pub struct Speed {
    pub mps: f64,
}

// The units have functions of their own, as in the source: each is one product or quotient, which a shared one would only name again.
impl Speed {
    const KPH_TO_MPS: f64 = 1000.0 / 3600.0;

    const KNOTS_TO_MPS: f64 = 1852.0 / 3600.0;

    // No speed.
    pub const ZERO: Speed = Speed { mps: 0.0 };

    // The speed of so many metres a second.
    pub fn from_metres_per_second(mps: f64) -> Self
        ensures { result ≡ spec.from_metres_per_second mps }
    {
        Speed { mps }
    }

    // The speed of so many kilometres an hour.
    pub fn from_kilometres_per_hour(kph: f64) -> Self
        ensures { result ≡ spec.from_kilometres_per_hour kph }
    {
        Speed::from_metres_per_second(kph * Speed::KPH_TO_MPS)
    }

    // The speed of so many knots.
    pub fn from_knots(knots: f64) -> Self
        ensures { result ≡ spec.from_knots knots }
    {
        Speed::from_metres_per_second(knots * Speed::KNOTS_TO_MPS)
    }

    // The speed in metres a second.
    pub fn as_metres_per_second(self) -> f64
        ensures { result ≡ spec.as_metres_per_second self }
    {
        self.mps
    }

    // The speed in kilometres an hour.
    pub fn as_kilometres_per_hour(self) -> f64
        ensures { result ≡ spec.as_kilometres_per_hour self }
    {
        self.mps / Speed::KPH_TO_MPS
    }

    // The speed in knots.
    pub fn as_knots(self) -> f64
        ensures { result ≡ spec.as_knots self }
    {
        self.mps / Speed::KNOTS_TO_MPS
    }

    // The way made at this speed in a duration: the source's `Speed * Duration`.
    pub fn mul_duration(self, nanoseconds: u64) -> Length
        ensures { result ≡ spec.mul_duration self nanoseconds }
    {
        Length {
            metres: self.mps * to_seconds(nanoseconds),
        }
    }
}

impl Length {
    // The speed that makes this way in a duration: the source's `Length / Duration`.
    pub fn div_duration(self, nanoseconds: u64) -> Speed
        ensures { result ≡ spec.div_duration self nanoseconds }
    {
        Speed {
            mps: self.metres / to_seconds(nanoseconds),
        }
    }
}
