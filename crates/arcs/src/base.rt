// Angles between vectors, the direction east, and the side of a great circle.
ghost use Rattle.std.specs.Prelude.{◌≡◌};
ghost use Rattle.arcs.specs.Base as spec;

use crate::Side;
use float::trig::atan2;
use jord::numbers::{EPSILON, eq_zero};
use patterns::magnitude;
use vectors::vec3::Vec3;

// Up to this magnitude a triple product does not decide.
const TRIAGE_SIDE_EPS: f64 = 10.0 * EPSILON;

// The angle between two vectors, from 0 to PI: the source's `angle_radians_between(v1, v2, None)`.
pub fn angle_radians_between(v1: Vec3, v2: Vec3) -> f64
    ensures { result ≡ spec.angle_radians_between v1 v2 }
{
    atan2(v1.cross_prod(v2).norm(), v1.dot_prod(v2))
}

// The same angle, negative where v1 to v2 is anti-clockwise looking along vn: the source's `angle_radians_between(v1, v2, Some(vn))`.
pub fn angle_radians_about(v1: Vec3, v2: Vec3, vn: Vec3) -> f64
    ensures { result ≡ spec.angle_radians_about v1 v2 vn }
{
    let angle = angle_radians_between(v1, v2);
    let d = v1.cross_prod(v2).dot_prod(vn);
    if d >= 0.0 { angle } else { -angle }
}

// The direction east at v; at a pole, the y axis.
pub fn easting(v: Vec3) -> Vec3
    ensures { result ≡ spec.easting v }
{
    if magnitude(v.z) == 1.0 {
        return Vec3::UNIT_Y;
    }
    Vec3::new_unit(-v.y, v.x, 0.0)
}

// Left of a product above zero, else right: also of a NaN.
fn by_sign(product: f64) -> Side
    ensures { result ≡ spec.by_sign product }
{
    if product > 0.0 {
        Side::Left
    } else {
        Side::Right
    }
}

// The side of v0 with respect to the great circle from v1 to v2.
pub fn side(v0: Vec3, v1: Vec3, v2: Vec3) -> Side
    ensures { result ≡ spec.side v0 v1 v2 }
{
    let triage_side = v0.dot_prod(v1.cross_prod(v2));
    if magnitude(triage_side) <= TRIAGE_SIDE_EPS {
        let exact_side = v0.dot_prod(v1.orthogonal_to(v2));
        if eq_zero(exact_side) {
            return Side::Collinear;
        }
        by_sign(exact_side)
    } else {
        by_sign(triage_side)
    }
}
