// What is made of the numbers handed over.
ghost use Rattle.std.specs.Prelude.{◌≡◌};
ghost use Rattle.plain.specs.Call as spec;

use jord::angle::Angle;
use jord::positions::NVector;
use jord::speed::Speed;
use jord::vehicle::Vehicle;
use plain::call::{Coordinates, Fix};
use plain::line::Ends;
use vectors::vec3::Vec3;

// The position of three numbers: a part of -0.0 is made +0.0.
pub fn position(c: Coordinates) -> NVector
    ensures { result ≡ spec.position c }
{
    NVector::new(Vec3::new(c.x, c.y, c.z))
}

// The vehicle of a fix.
pub fn vehicle(fix: Fix) -> Vehicle
    ensures { result ≡ spec.vehicle fix }
{
    let at = fix.position;
    Vehicle::new(
        position(at),
        Angle::from_radians(fix.bearing),
        Speed::from_metres_per_second(fix.speed),
    )
}

// The track between two positions.
pub fn ends(start: Coordinates, end: Coordinates) -> Ends
    ensures { result ≡ spec.ends start end }
{
    Ends {
        start: position(start),
        end: position(end),
    }
}
