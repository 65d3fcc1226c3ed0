// The walks: Newton's method towards the closest approach, over hours, and towards an intercept, over seconds.
#![tactic(auto)]

ghost use Rattle.std.specs.Prelude.{◌≡◌, ◌-◌, Float};
ghost use Rattle.patterns.specs.Operators.{◌⊘◌};
ghost use Rattle.jord.specs.Positions.{as_vec3};
ghost use Rattle.jord.specs.Speed.{as_knots};
ghost use Rattle.chases.specs.Gone as shared;
ghost use Rattle.walks.specs.Course as courses;
ghost use Rattle.walks.specs.Walk as spec;
ghost use Rattle.walks.specs.declared.Step.{Step};

use crate::course::course;
use arcs::base::angle_radians_between;
use float::trig::{SinCos, sin, sin_cos};
use jord::length::Length;
use jord::positions::NVector;
use jord::vehicle::Vehicle;
use patterns::{magnitude, to_bits};
use vectors::vec3::Vec3;
use walks::{Chase, Cpa, MOST_STEPS, Sines, Step, Walk};

pub mod course;
pub mod outcome;

// 1 millisecond in hours: a smaller correction ends the walk to the closest approach.
const ONE_MILLI_HOURS: f64 = 1.0 / (3_600.0 * 1_000.0);

// The steps of the walk to the closest approach, at most.
const CPA_NR_MAX_ITERATIONS: u32 = MOST_STEPS;

// The steps of a walk to an intercept, at most.
const INTERCEPT_NR_MAX_ITERATIONS: u32 = MOST_STEPS;

// A smaller correction, in seconds, ends a walk to an intercept.
const INTERCEPT_NR_EPSILON: f64 = 1e-11;

// The time in hours at which the walk to the closest approach starts.
pub const CPA_START: f64 = 0.0;

// The time in seconds at which the walk to an intercept at a given speed starts.
pub const INTERCEPT_START: f64 = 0.1;

// A vehicle to the closest approach: its position, its course and its angular speed, in radians an hour.
#[derive(Clone, Copy)]
struct Mover {
    p0: Vec3,
    course: Vec3,
    w: f64,
}

impl Mover {
    // The vehicle on a sphere of a radius in nautical miles.
    fn new(vehicle: Vehicle, r_nm: f64) -> Self
        ensures p0 { result.p0 ≡ as_vec3 vehicle.position }
        ensures course { result.course ≡ courses.course vehicle }
        ensures w { result.w ≡ as_knots vehicle.speed ⊘ r_nm }
    {
        Mover {
            p0: vehicle.position.as_vec3(),
            course: course(vehicle),
            w: vehicle.speed.as_knots() / r_nm,
        }
    }
}

// The coefficients of two vehicles on a sphere.
#[tactic(auto, unfolding(walks::specs::Walk::cpa_new))]
pub fn cpa_new(radius: Length, ownship: Vehicle, intruder: Vehicle) -> Cpa
    ensures { result ≡ spec.cpa_new radius ownship intruder }
{
    let r_nm = radius.as_nautical_miles();
    cpa_coefficients(Mover::new(ownship, r_nm), Mover::new(intruder, r_nm))
}

// The coefficients of two vehicles: the head of the source's `cpa_fn`.
#[tactic(auto, unfolding(walks::specs::Walk::cpa_coefficients))]
fn cpa_coefficients(own: Mover, int: Mover) -> Cpa
    ensures { result ≡ spec.cpa_coefficients own.p0 own.course own.w int.p0 int.course int.w }
{
    let (w1, w2) = (own.w, int.w);
    Cpa {
        a: -(w1 * own.p0.dot_prod(int.course) + w2 * int.p0.dot_prod(own.course)),
        b: w1 * own.course.dot_prod(int.p0) + w2 * int.course.dot_prod(own.p0),
        c: -(w1 * own.p0.dot_prod(int.p0) - w2 * int.course.dot_prod(own.course)),
        d: w1 * own.course.dot_prod(int.course) - w2 * int.p0.dot_prod(own.p0),
        w1,
        w2,
    }
}

// The sines and cosines of the angles that two vehicles have gone through at the time t in hours.
#[tactic(auto, unfolding(walks::specs::Walk::sines_at))]
fn sines_at(k: Cpa, t: f64) -> Sines
    ensures { result ≡ spec.sines_at k t }
{
    let w1t = sin_cos(k.w1 * t);
    let w2t = sin_cos(k.w2 * t);
    Sines {
        sw1t: w1t.sin,
        sw2t: w2t.sin,
        cw1t: w1t.cos,
        cw2t: w2t.cos,
    }
}

// The rate at which the cosine of the angle between two vehicles changes, zero where they are closest or farthest apart: the source's `cpa_fn` with `derivate` false.
#[tactic(auto, unfolding(walks::specs::Walk::cpa_fn))]
fn cpa_fn(k: Cpa, s: Sines) -> f64
    ensures { result ≡ spec.cpa_fn k s }
{
    k.a * s.sw1t * s.sw2t + k.b * s.cw1t * s.cw2t + k.c * s.sw1t * s.cw2t + k.d * s.cw1t * s.sw2t
}

// The derivative, by the time in hours, of the rate that `cpa_fn` gives: the source's `cpa_fn` with `derivate` true.
#[tactic(auto, unfolding(walks::specs::Walk::cpa_derivate))]
fn cpa_derivate(k: Cpa, s: Sines) -> f64
    ensures { result ≡ spec.cpa_derivate k s }
{
    -(k.c * k.w2 + k.d * k.w1) * s.sw1t * s.sw2t
        + (k.d * k.w2 + k.c * k.w1) * s.cw1t * s.cw2t
        + (k.a * k.w2 - k.b * k.w1) * s.sw1t * s.cw2t
        - (k.b * k.w2 - k.a * k.w1) * s.cw1t * s.sw2t
}

// A step of the walk to the closest approach: it accepts the time before the correction.
#[tactic(auto, unfolding(walks::specs::Walk::cpa_step))]
pub fn cpa_step(k: Cpa, x: f64) -> Step
    ensures { result ≡ spec.cpa_step k x }
{
    let s = sines_at(k, x);
    let y = cpa_fn(k, s);
    let d = cpa_derivate(k, s);
    if d == 0.0 {
        return Step::ZeroDerivative;
    }
    let m = y / d;
    if magnitude(m) < ONE_MILLI_HOURS {
        return Step::Accepted(x);
    }
    Step::Next(x - m)
}

// The walk to the closest approach. A loop: as a recursion, like the walks to an intercept, it took a third more instructions.
pub fn newton_raphson(k: Cpa) -> Walk
    ensures { result ≡ spec.newton_raphson k }
{
    let mut x = CPA_START;
    for i in 0..CPA_NR_MAX_ITERATIONS {
        match cpa_step(k, x) {
            Step::ZeroDerivative => return Walk::ZeroDerivative { count: i + 1 },
            Step::Accepted(time) => return Walk::Accepted { time, count: i + 1 },
            Step::Next(next) => x = next,
        }
    }
    Walk::NotConverged
}

// The coefficients of an interceptor and an intruder on a sphere.
#[tactic(auto, unfolding(walks::specs::Walk::chase_new))]
pub fn chase_new(radius: Length, interceptor: NVector, intruder: Vehicle) -> Chase
    ensures { result ≡ spec.chase_new radius interceptor intruder }
{
    let r_m = radius.metres;
    let v10 = interceptor.as_vec3();
    let v20 = intruder.position.as_vec3();
    let c2 = course(intruder);
    let s2 = intruder.speed.mps;
    let w2 = s2 / r_m;
    let v10v20 = v10.dot_prod(v20);
    let v10c2 = v10.dot_prod(c2);
    Chase {
        v10,
        v20,
        c2,
        s2,
        radius: r_m,
        w2,
        v10v20,
        v10c2,
    }
}

// The time in seconds at which the walk to the longest intercept starts: that of an intruder that comes straight on.
#[tactic(auto, unfolding(walks::specs::Walk::chase_start))]
pub fn chase_start(k: Chase) -> f64
    ensures { result ≡ spec.chase_start k }
{
    let s0 = angle_radians_between(k.v10, k.v20);
    k.radius * s0 / k.s2
}

// The sine and cosine of the angle that an intruder has gone through: `w2 * t`, and as `pos` has it, `s2 / radius * t`.
#[derive(Clone, Copy)]
struct Gone {
    w2t: SinCos,
    pos: SinCos,
}

// Both after t seconds. The coefficients of `chase_new` have one angular speed, so that one angle is worked out; others may have two.
fn gone_at(k: Chase, t: f64) -> Gone
    ensures { result ≡ shared.gone_at k t }
{
    let w2t = sin_cos(k.w2 * t);
    let w = k.s2 / k.radius;
    if to_bits(w) == to_bits(k.w2) {
        return Gone { w2t, pos: w2t };
    }
    let pos = sin_cos(w * t);
    Gone { w2t, pos }
}

// The position on the course c from v0 at an angle of this sine and cosine.
pub fn pos(v0: Vec3, c: Vec3, a: SinCos) -> Vec3
    ensures { result ≡ shared.pos_by v0 c a }
{
    v0.mul(a.cos).add(c.mul(a.sin))
}

// The angle in radians between the interceptor's position and the intruder at an angle of this sine and cosine from its start.
fn sep(k: Chase, a: SinCos) -> f64
    ensures { result ≡ shared.sep_by k a }
{
    angle_radians_between(k.v10, pos(k.v20, k.c2, a))
}

// What the correction fi makes of a time: the corrected time, accepted where the correction is small, or too small to move the time.
#[tactic(auto, unfolding(walks::specs::Walk::corrected))]
fn corrected(ti: f64, fi: f64) -> Step
    ensures { result ≡ spec.corrected ti fi }
{
    let ti1 = ti - fi;
    if magnitude(fi) < INTERCEPT_NR_EPSILON || ti1 == ti {
        return Step::Accepted(ti1);
    }
    Step::Next(ti1)
}

// A step of the walk to the longest intercept. A separation of zero accepts the time as it is.
#[tactic(auto, unfolding(walks::specs::Walk::int_min_step, walks::specs::Walk::sep, walks::specs::Walk::pos))]
pub fn int_min_step(k: Chase, ti: f64) -> Step
    ensures { result ≡ spec.int_min_step k ti }
{
    let at = gone_at(k, ti);
    let cosw2t = at.w2t.cos;
    let sinw2t = at.w2t.sin;
    let v10dv2dt = -k.w2 * (k.v10v20 * sinw2t - k.v10c2 * cosw2t);
    let v10d2v2dt2 = (-k.w2 * k.w2) * (k.v10v20 * cosw2t + k.v10c2 * sinw2t);
    let si = sep(k, at.pos);
    if si == 0.0 {
        return Step::Accepted(ti);
    }
    let s = sin_cos(si);
    let sin_si = s.sin;
    let a = -1.0 / sin_si;
    let b = s.cos / (sin_si * sin_si);
    let f = ti * a * v10dv2dt - si;
    let d2sdt2 = a * (b * v10dv2dt * v10dv2dt + v10d2v2dt2);
    let df = ti * d2sdt2;
    corrected(ti, f / df)
}

// What is left, from the time ti and after i steps, of the walk to the longest intercept.
pub fn int_min_nr_rec(k: Chase, ti: f64, i: u32) -> Walk
    ensures { result ≡ spec.int_min_nr_rec k ti i }
{
    int_nr_rec(k, ti, i)
}

// A step of the walk to the intercept at the angular speed w1.
#[tactic(auto, unfolding(walks::specs::Walk::int_spd_step, walks::specs::Walk::sep, walks::specs::Walk::pos))]
pub fn int_spd_step(k: Chase, w1: f64, ti: f64) -> Step
    ensures { result ≡ spec.int_spd_step k w1 ti }
{
    let at = gone_at(k, ti);
    let cosw2t = at.w2t.cos;
    let sinw2t = at.w2t.sin;
    let si = sep(k, at.pos);
    let f = si / ti - w1;
    let dsdt = (k.w2 * (k.v10v20 * sinw2t - k.v10c2 * cosw2t)) / sin(si);
    let df = (dsdt - (si / ti)) / ti;
    corrected(ti, f / df)
}

// What is left, from the time ti and after i steps, of the walk to the intercept at the angular speed w1.
pub fn int_spd_nr_rec(k: Chase, w1: f64, ti: f64, i: u32) -> Walk
    ensures { result ≡ spec.int_spd_nr_rec k w1 ti i }
{
    int_nr_rec(AtSpeed { k, w1 }, ti, i)
}

// The coefficients of an intercept, with the step of its walk.
trait Intercept: Copy {
    ghost step_is: { Self → Float → Step };

    fn step(self, ti: f64) -> Step
        ensures { result ≡ step_is self ti };
}

// Coefficients alone are those of the longest intercept.
impl Intercept for Chase {
    ghost step_is = { spec.int_min_step };

    fn step(self, ti: f64) -> Step {
        int_min_step(self, ti)
    }
}

// The intercept at the angular speed w1.
#[derive(Clone, Copy)]
struct AtSpeed {
    k: Chase,
    w1: f64,
}

impl Intercept for AtSpeed {
    ghost step_is = { λ s. spec.int_spd_step s.k s.w1 };

    fn step(self, ti: f64) -> Step {
        int_spd_step(self.k, self.w1, ti)
    }
}

// What is left, from the time ti and after i steps, of the walk to an intercept.
fn int_nr_rec<S: Intercept>(s: S, ti: f64, i: u32) -> Walk
    ensures { result ≡ spec.walk (S.step_is s) (spec.most_steps - i) ti }
{
    if i >= INTERCEPT_NR_MAX_ITERATIONS {
        return Walk::NotConverged;
    }
    let ti1 = match s.step(ti) {
        Step::ZeroDerivative => return Walk::ZeroDerivative { count: i + 1 },
        Step::Accepted(time) => return Walk::Accepted { time, count: i + 1 },
        Step::Next(ti1) => ti1,
    };
    int_nr_rec(s, ti1, i + 1)
}
