// Great circles.
ghost use Rattle.std.specs.Prelude.{◌≡◌};
ghost use Rattle.arcs.specs.GreatCircle as spec;

use crate::base::easting;
use float::trig::sin_cos;
use jord::angle::Angle;
use jord::positions::NVector;
use vectors::vec3::Vec3;

// A great circle by the vector normal to its plane.
#[derive(Clone, Copy)]
pub struct GreatCircle {
    pub normal: Vec3,
}

impl GreatCircle {
    // The great circle from p1 through p2; an arbitrary one through p1 where the two are equal or opposite.
    pub fn new(p1: NVector, p2: NVector) -> Self
        ensures { result ≡ spec.new p1 p2 }
    {
        GreatCircle {
            normal: p1.as_vec3().orthogonal_to(p2.as_vec3()),
        }
    }

    // The great circle through p that heads on a bearing there.
    pub fn from_heading(p: NVector, bearing: Angle) -> Self
        ensures { result ≡ spec.from_heading p bearing }
    {
        let v = p.as_vec3();
        let e = easting(v);
        let n = v.cross_prod(e);
        let b = sin_cos(bearing.radians);
        let se = e.mul(b.cos / e.norm());
        let sn = n.mul(b.sin / n.norm());
        GreatCircle { normal: sn.sub(se) }
    }

    // The vector normal to the great circle's plane.
    pub fn normal(self) -> Vec3
        ensures { result ≡ spec.normal self }
    {
        self.normal
    }

    // The position of the great circle that is nearest to p; an arbitrary one where p is at right angles to it.
    pub fn projection(self, p: NVector) -> NVector
        ensures { result ≡ spec.projection self p }
    {
        let v = p.as_vec3();
        let n2 = v.stable_cross_prod_unit(self.normal);
        if n2 == Vec3::ZERO {
            return NVector::new(v.orthogonal());
        }
        NVector::new(self.normal.orthogonal_to(n2))
    }
}
