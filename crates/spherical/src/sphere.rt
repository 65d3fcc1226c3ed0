// Navigation on a sphere.
ghost use Rattle.std.specs.Prelude.{◌≡◌};
ghost use Rattle.jord.specs.Angle as angles;
ghost use Rattle.spherical.specs.Sphere as spec;

use crate::interpolated::Outside;
use arcs::great_circle::GreatCircle;
use arcs::minor_arc::MinorArc;
use arcs::{Side, base};
use chases::outcome::{of_hours, of_seconds};
use chases::{
    INTERCEPT_START, chase_new, chase_start, cpa_new, int_min_nr_rec, int_spd_nr_rec,
    newton_raphson, pos,
};
use float::trig::sin_cos;
use jord::angle::Angle;
use jord::length::Length;
use jord::positions::NVector;
use jord::speed::Speed;
use jord::vehicle::Vehicle;
use patterns::magnitude;
use remainders::rem;
use std::f64::consts::PI;
use vectors::vec3::Vec3;
use walks::Outcome;

// A sphere.
#[derive(Clone, Copy)]
pub struct Sphere {
    pub radius: Length,
}

impl Sphere {
    // The earth, by its volumetric radius.
    pub const EARTH: Sphere = Sphere {
        radius: Length {
            metres: 6_371_000.8,
        },
    };

    // The moon.
    pub const MOON: Sphere = Sphere {
        radius: Length {
            metres: 1_737_400.0,
        },
    };

    // EARTH, with a contract that says which sphere that is.
    pub fn earth() -> Self
        ensures { result ≡ spec.EARTH }
    {
        Sphere::EARTH
    }

    // MOON, with a contract that says which sphere that is.
    pub fn moon() -> Self
        ensures { result ≡ spec.MOON }
    {
        Sphere::MOON
    }

    // The sphere of a radius.
    pub fn new(radius: Length) -> Self
        ensures { result ≡ spec.new radius }
    {
        Sphere { radius }
    }

    // The radius.
    pub fn radius(self) -> Length
        ensures { result ≡ spec.radius self }
    {
        self.radius
    }

    // How far along a minor arc the position nearest to p is, from its start; negative before it.
    pub fn along_track_distance(self, p: NVector, ma: MinorArc) -> Length
        ensures { result ≡ spec.along_track_distance self p ma }
    {
        let across = ma.normal.cross_prod(p.as_vec3());
        let along = across.cross_prod(ma.normal);
        let angle = base::angle_radians_about(ma.start.as_vec3(), along, ma.normal);
        self.radius.mul(angle)
    }

    // The angle between two positions.
    pub fn angle(p1: NVector, p2: NVector) -> Angle
        ensures { result ≡ spec.angle p1 p2 }
    {
        Angle::from_radians(base::angle_radians_between(p1.as_vec3(), p2.as_vec3()))
    }

    // The length of the arc of an angle up to half a circle; of a greater one, less whole half circles.
    pub fn angle_to_distance(self, angle: Angle) -> Length
        ensures { result ≡ spec.angle_to_distance self angle }
    {
        let abs_angle = angle.abs();
        if abs_angle.radians <= PI {
            return self.radius.mul_angle(abs_angle);
        }
        self.radius.mul_angle(Angle {
            radians: rem(abs_angle.radians, PI),
        })
    }

    // The distance of a position from a great circle: negative to its left, positive to its right.
    pub fn cross_track_distance(self, p: NVector, gc: GreatCircle) -> Length
        ensures { result ≡ spec.cross_track_distance self p gc }
    {
        let angle = base::angle_radians_between(gc.normal, p.as_vec3());
        self.radius.mul(angle - (PI / 2.0))
    }

    // Where the way of a distance from p0 on a bearing there ends; p0 itself for a distance of zero.
    pub fn destination_position(self, p0: NVector, bearing: Angle, distance: Length) -> NVector
        ensures { result ≡ spec.destination_position self p0 bearing distance }
    {
        if distance.metres == 0.0 {
            return p0;
        }
        let v = p0.as_vec3();
        let dir = heading(v, bearing);
        let ta = distance.metres / self.radius.metres;
        NVector::new(towards(v, dir, ta).unit())
    }

    // The distance along the great circle between two positions.
    pub fn distance(self, p1: NVector, p2: NVector) -> Length
        ensures { result ≡ spec.distance self p1 p2 }
    {
        self.radius.mul_angle(Sphere::angle(p1, p2))
    }

    // The angle of an arc of a length, less whole half circles; of half a circle itself, HALF_CIRCLE.
    pub fn distance_to_angle(self, distance: Length) -> Angle
        ensures { result ≡ spec.distance_to_angle self distance }
    {
        let abs_dist = distance.abs();
        let max_distance = self.radius.mul(PI);
        if abs_dist.metres == max_distance.metres {
            return Angle::HALF_CIRCLE;
        }
        if abs_dist.metres > max_distance.metres {
            let d = rem(abs_dist.metres, max_distance.metres);
            return Angle::from_radians(d / self.radius.metres);
        }
        Angle::from_radians(abs_dist.metres / self.radius.metres)
    }

    // Whether two positions define one great circle: they are neither equal nor antipodes.
    pub fn is_great_circle(p1: NVector, p2: NVector) -> bool
        ensures { result ≡ spec.is_great_circle p1 p2 }
    {
        (p1 != p2) & !p1.is_antipode_of(p2)
    }

    // The compass angle at p2 of the way from p1; 0 where they define no great circle.
    pub fn final_bearing(p1: NVector, p2: NVector) -> Angle
        ensures { result ≡ spec.final_bearing p1 p2 }
    {
        if Sphere::is_great_circle(p1, p2) {
            compass(final_bearing_radians(p1, p2))
        } else {
            Angle::ZERO
        }
    }

    // The compass angle at p1 towards p2; 0 where they define no great circle.
    pub fn initial_bearing(p1: NVector, p2: NVector) -> Angle
        ensures { result ≡ spec.initial_bearing p1 p2 }
    {
        if Sphere::is_great_circle(p1, p2) {
            compass(initial_bearing_radians(p1, p2))
        } else {
            Angle::ZERO
        }
    }

    // The position at an angle from p1 on the great circle from p1 through p2.
    pub fn position_on_great_circle(p1: NVector, p2: NVector, a: Angle) -> NVector
        ensures { result ≡ spec.position_on_great_circle p1 p2 a }
    {
        let v = p1.as_vec3();
        let dir = v.orthogonal_to(p2.as_vec3()).cross_prod_unit(v);
        NVector::new(towards(v, dir, a.radians).unit())
    }

    // The position at a fraction of the way from p1 to p2; Outside (18) where the fraction is not from 0.0 to 1.0.
    pub fn interpolated_position(p1: NVector, p2: NVector, f: f64) -> Result<NVector, Outside>
        ensures { result ≡ spec.interpolated_position p1 p2 f }
    {
        if !(0.0..=1.0).contains(&f) {
            return Err(Outside);
        }
        if f == 0.0 {
            return Ok(p1);
        }
        if f == 1.0 {
            return Ok(p2);
        }
        let a = Sphere::angle(p1, p2).mul(f);
        Ok(Sphere::position_on_great_circle(p1, p2, a))
    }

    // On which side of the great circle from p1 to p2 the position p0 is.
    pub fn side(p0: NVector, p1: NVector, p2: NVector) -> Side
        ensures { result ≡ spec.side p0 p1 p2 }
    {
        base::side(p0.as_vec3(), p1.as_vec3(), p2.as_vec3())
    }

    // The angle turned at b on the way from a to c: positive to the left, negative to the right.
    pub fn turn(a: NVector, b: NVector, c: NVector) -> Angle
        ensures { result ≡ spec.turn a b c }
    {
        let v = b.as_vec3();
        let n1 = a.as_vec3().orthogonal_to(v);
        let n2 = v.orthogonal_to(c.as_vec3());
        Angle::from_radians(base::angle_radians_about(n1, n2, v))
    }

    // Where a vehicle that keeps course and speed is after a duration.
    pub fn position_after(self, vehicle: Vehicle, nanoseconds: u64) -> NVector
        ensures { result ≡ spec.position_after self vehicle nanoseconds }
    {
        let distance = vehicle.speed.mul_duration(nanoseconds);
        self.destination_position(vehicle.position, vehicle.bearing, distance)
    }

    // The time until two vehicles that keep course and speed are closest, or farthest apart; refused with 12 to 15.
    pub fn time_to_cpa(self, ownship: Vehicle, intruder: Vehicle) -> Outcome
        ensures { result ≡ spec.time_to_cpa self ownship intruder }
    {
        of_hours(newton_raphson(cpa_new(self.radius, ownship, intruder)))
    }

    // The time until an interceptor meets the intruder at the least speed that can, the longest such time; refused with 13 to 15.
    pub fn max_time_to_intercept(self, interceptor: NVector, intruder: Vehicle) -> Outcome
        ensures { result ≡ spec.max_time_to_intercept self interceptor intruder }
    {
        let k = chase_new(self.radius, interceptor, intruder);
        of_seconds(int_min_nr_rec(k, chase_start(k), 0))
    }

    // The time until an interceptor meets the intruder at a given speed; refused with 13 to 15.
    pub fn time_to_intercept(self, interceptor: NVector, speed: Speed, intruder: Vehicle) -> Outcome
        ensures { result ≡ spec.time_to_intercept self interceptor speed intruder }
    {
        let w1 = speed.mps / self.radius.metres;
        let k = chase_new(self.radius, interceptor, intruder);
        of_seconds(int_spd_nr_rec(k, w1, INTERCEPT_START, 0))
    }
}

// The compass angle of a bearing. Who calls it has asked for a great circle first: of two positions that define none no bearing is worked out.
fn compass(radians: f64) -> Angle
    ensures { result ≡ angles.normalised (angles.from_radians radians) }
{
    Angle::from_radians(radians).normalised()
}

// The angle at v2 from north to the way that goes on from v1, clockwise.
fn final_bearing_radians(v1: NVector, v2: NVector) -> f64
    ensures { result ≡ spec.final_bearing_radians v1 v2 }
{
    initial_bearing_radians(v2, v1) + PI
}

// The angle at v1 from north to v2, clockwise.
fn initial_bearing_radians(v1: NVector, v2: NVector) -> f64
    ensures { result ≡ spec.initial_bearing_radians v1 v2 }
{
    let v = v1.as_vec3();
    let gc1 = v.cross_prod(v2.as_vec3());
    let gc2 = westing(v);
    base::angle_radians_about(gc1, gc2, v)
}

// The normal of the meridian of v: `easting` negated and not made of length one.
fn westing(v: Vec3) -> Vec3
    ensures { result ≡ spec.westing v }
{
    if magnitude(v.z) == 1.0 {
        return Vec3::NEG_UNIT_Y;
    }
    Vec3::new(v.y, -v.x, 0.0)
}

// The unit vector along which a bearing at v points.
fn heading(v: Vec3, bearing: Angle) -> Vec3
    ensures { result ≡ spec.heading v bearing }
{
    let ed = base::easting(v);
    let nd = v.cross_prod(ed);
    towards(nd, ed, bearing.radians)
}

// v turned by an angle towards w.
fn towards(v: Vec3, w: Vec3, a: f64) -> Vec3
    ensures { result ≡ spec.towards v w a }
{
    pos(v, w, sin_cos(a))
}
