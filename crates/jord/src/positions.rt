// Horizontal positions: n-vectors, and latitude with longitude.
ghost use Rattle.std.specs.Prelude.{◌≡◌};
ghost use Rattle.jord.specs.Positions as spec;

use crate::angle::Angle;
use float::trig::{atan2, sin_cos};
use roots::sqrt;
use vectors::vec3::Vec3;

// A position by its latitude and longitude.
#[derive(Clone, Copy)]
pub struct LatLong {
    pub latitude: Angle,
    pub longitude: Angle,
}

impl LatLong {
    // The position at a latitude and a longitude.
    pub fn new(latitude: Angle, longitude: Angle) -> Self
        ensures { result ≡ spec.lat_long_new latitude longitude }
    {
        LatLong {
            latitude,
            longitude,
        }
    }

    // The position at a latitude and a longitude in degrees.
    pub fn from_degrees(latitude: f64, longitude: f64) -> Self
        ensures { result ≡ spec.from_degrees latitude longitude }
    {
        LatLong::new(
            Angle::from_degrees(latitude),
            Angle::from_degrees(longitude),
        )
    }

    // The latitude and longitude of an n-vector: also the source's `LatLong::from`.
    // No `From`, here and below: document 01 lets only named conversions open an n-vector.
    pub fn from_nvector(nvector: NVector) -> Self
        ensures { result ≡ spec.from_nvector nvector }
    {
        nvector_to_latlong(nvector.0)
    }

    // The n-vector of this position: also the source's `NVector::from`.
    pub fn to_nvector(self) -> NVector
        ensures { result ≡ spec.to_nvector self }
    {
        NVector::from_lat_long(self.latitude, self.longitude)
    }

    // The latitude.
    pub fn latitude(self) -> Angle
        ensures { result ≡ spec.latitude self }
    {
        self.latitude
    }

    // The longitude.
    pub fn longitude(self) -> Angle
        ensures { result ≡ spec.longitude self }
    {
        self.longitude
    }
}

// A position by the unit vector normal to the surface: z points to the north pole, x to latitude and longitude zero; two are the same where each part is: the source's `==`.
#[derive(Clone, Copy, PartialEq)]
pub struct NVector(Vec3);

impl NVector {
    // The position of a unit vector.
    pub fn new(v: Vec3) -> Self
        ensures { result ≡ spec.nvector_new v }
    {
        NVector(v)
    }

    // The position at a latitude and a longitude.
    pub fn from_lat_long(latitude: Angle, longitude: Angle) -> Self
        ensures { result ≡ spec.from_lat_long latitude longitude }
    {
        NVector(latlong_to_nvector(LatLong::new(latitude, longitude)))
    }

    // The position at a latitude and a longitude in degrees.
    pub fn from_lat_long_degrees(latitude: f64, longitude: f64) -> Self
        ensures { result ≡ spec.from_lat_long_degrees latitude longitude }
    {
        NVector::from_lat_long(
            Angle::from_degrees(latitude),
            Angle::from_degrees(longitude),
        )
    }

    // The position on the other side of the globe.
    pub fn antipode(self) -> Self
        ensures { result ≡ spec.antipode self }
    {
        NVector(self.0.neg())
    }

    // Whether o is exactly opposite: the sum of the two is zero.
    pub fn is_antipode_of(self, o: NVector) -> bool
        ensures { result ≡ spec.is_antipode_of self o }
    {
        self.0.add(o.0) == Vec3::ZERO
    }

    // The unit vector of this position.
    pub fn as_vec3(self) -> Vec3
        ensures { result ≡ spec.as_vec3 self }
    {
        self.0
    }
}

// The latitude and longitude of a unit vector.
fn nvector_to_latlong(nvector: Vec3) -> LatLong
    ensures { result ≡ spec.nvector_to_latlong nvector }
{
    let x = nvector.x;
    let y = nvector.y;
    let z = nvector.z;
    let lat = atan2(z, sqrt(x * x + y * y));
    let lon = atan2(y, x);
    LatLong {
        latitude: Angle { radians: lat },
        longitude: Angle { radians: lon },
    }
}

// The unit vector at a latitude and a longitude; at exactly a quarter circle, a pole whatever the longitude.
fn latlong_to_nvector(position: LatLong) -> Vec3
    ensures { result ≡ spec.latlong_to_nvector position.latitude position.longitude }
{
    if position.latitude == Angle::QUARTER_CIRCLE {
        return Vec3::UNIT_Z;
    }
    if position.latitude == Angle::NEG_QUARTER_CIRCLE {
        return Vec3::NEG_UNIT_Z;
    }
    let lat = sin_cos(position.latitude.radians);
    let lon = sin_cos(position.longitude.radians);
    let cl = lat.cos;
    let x = cl * lon.cos;
    let y = cl * lon.sin;
    let z = lat.sin;
    Vec3::new(x, y, z)
}
