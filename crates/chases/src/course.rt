// The course of a vehicle.
ghost use Rattle.std.specs.Prelude.{◌≡◌};
ghost use Rattle.walks.specs.Course as spec;

use float::trig::sin_cos;
use jord::positions::LatLong;
use jord::vehicle::Vehicle;
use vectors::mat33::Mat33;
use vectors::vec3::Vec3;

// The unit vector along which a vehicle heads.
#[tactic(auto, unfolding(walks::specs::Course::course))]
pub fn course(vehicle: Vehicle) -> Vec3
    ensures { result ≡ spec.course vehicle }
{
    let ll = LatLong::from_nvector(vehicle.position);
    let lat_rads = ll.latitude.radians;
    let lng_rads = ll.longitude.radians;
    let bearing_rads = vehicle.bearing.radians;
    let rzy = course_rz(-lng_rads).mul(course_ry(lat_rads));
    let r = rzy.mul(course_rx(bearing_rads));
    Mat33::vec3_mul(Vec3::UNIT_Z, r)
}

// A function for each axis, as in the source: one for all would choose its nine parts by a match of three arms.

// The rotation about the x axis.
#[tactic(auto, unfolding(walks::specs::Course::course_rx))]
fn course_rx(theta: f64) -> Mat33
    ensures { result ≡ spec.course_rx theta }
{
    let a = sin_cos(theta);
    let c = a.cos;
    let s = a.sin;
    Mat33::new(Vec3::UNIT_X, Vec3::new(0.0, c, s), Vec3::new(0.0, -s, c))
}

// The rotation about the y axis.
#[tactic(auto, unfolding(walks::specs::Course::course_ry))]
fn course_ry(theta: f64) -> Mat33
    ensures { result ≡ spec.course_ry theta }
{
    let a = sin_cos(theta);
    let c = a.cos;
    let s = a.sin;
    Mat33::new(Vec3::new(c, 0.0, -s), Vec3::UNIT_Y, Vec3::new(s, 0.0, c))
}

// The rotation about the z axis.
#[tactic(auto, unfolding(walks::specs::Course::course_rz))]
fn course_rz(theta: f64) -> Mat33
    ensures { result ≡ spec.course_rz theta }
{
    let a = sin_cos(theta);
    let c = a.cos;
    let s = a.sin;
    Mat33::new(Vec3::new(c, s, 0.0), Vec3::new(-s, c, 0.0), Vec3::UNIT_Z)
}
