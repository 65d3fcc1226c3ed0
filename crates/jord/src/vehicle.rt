// Vehicles.
ghost use Rattle.std.specs.Prelude.{◌≡◌};
ghost use Rattle.jord.specs.Vehicle as spec;

use crate::angle::Angle;
use crate::positions::NVector;
use crate::speed::Speed;

// A vehicle: where it is, which way it heads and how fast.
#[derive(Clone, Copy)]
pub struct Vehicle {
    pub position: NVector,
    pub bearing: Angle,
    pub speed: Speed,
}

impl Vehicle {
    // The vehicle at a position, with a bearing and a speed.
    pub fn new(position: NVector, bearing: Angle, speed: Speed) -> Self
        ensures { result ≡ spec.new position bearing speed }
    {
        Vehicle {
            position,
            bearing,
            speed,
        }
    }

    // Where the vehicle is.
    pub fn position(self) -> NVector
        ensures { result ≡ spec.position self }
    {
        self.position
    }

    // Which way it heads.
    pub fn bearing(self) -> Angle
        ensures { result ≡ spec.bearing self }
    {
        self.bearing
    }

    // How fast it is.
    pub fn speed(self) -> Speed
        ensures { result ≡ spec.speed self }
    {
        self.speed
    }
}
