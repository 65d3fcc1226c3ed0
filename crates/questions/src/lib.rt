// The questions of a board, each with the refusal that its no gives.
#![tactic(auto)]

ghost use Rattle.std.specs.Prelude.{◌≡◌};
ghost use Rattle.plain.specs.Questions as spec;

use crate::call::position;
use jord::positions::NVector;
use jord::vehicle::Vehicle;
use patterns::magnitude;
use plain::call::{Coordinates, Fix, Refusal};
use plain::line::{Ends, Scene};
use plain::targets::{Held, MOST_TARGETS};
use spherical::sphere::Sphere;

pub mod call;
pub mod line;

// The magnitude that the squared length of a position may be off one: 2^-40.
const SLACK: f64 = 9.094947017729282e-13;

// Yes where it is so, else no.
fn unless(so: bool, refusal: Refusal) -> Result<(), Refusal>
    ensures { result ≡ spec.unless so refusal }
{
    if so { Ok(()) } else { Err(refusal) }
}

// Whether x is neither a NaN nor infinite.
fn finite(x: f64) -> bool
    ensures { result ≡ spec.finite x }
{
    x.is_finite()
}

// Whether all three numbers are finite.
fn all_finite(c: Coordinates) -> bool
    ensures { result ≡ spec.all_finite c }
{
    finite(c.x) & finite(c.y) & finite(c.z)
}

// Whether the squared length of a position is one, to 2^-40.
fn unit(p: NVector) -> bool
    ensures { result ≡ spec.unit p }
{
    magnitude(p.as_vec3().squared_norm() - 1.0) <= SLACK
}

// Is the radius finite and above zero?
pub fn radius_asked(radius: f64) -> Result<(), Refusal>
    ensures { result ≡ spec.radius_asked radius }
{
    unless(finite(radius) & (0.0 < radius), Refusal::RadiusNotPositive)
}

// Is the identity other than 0?
pub fn identity_asked(identity: u16) -> Result<(), Refusal>
    ensures { result ≡ spec.identity_asked identity }
{
    unless(identity != 0, Refusal::IdentityZero)
}

// Are all numbers of the fix finite?
fn fix_finite_asked(fix: Fix) -> Result<(), Refusal>
    ensures { result ≡ spec.fix_finite_asked fix }
{
    let at = fix.position;
    unless(
        all_finite(at) & finite(fix.bearing) & finite(fix.speed),
        Refusal::NotFinite,
    )
}

// Is the position of the fix of length one?
fn fix_unit_asked(fix: Fix) -> Result<(), Refusal>
    ensures { result ≡ spec.fix_unit_asked fix }
{
    let at = fix.position;
    unless(unit(position(at)), Refusal::NotUnit)
}

// Is the speed zero or more?
fn speed_asked(fix: Fix) -> Result<(), Refusal>
    ensures { result ≡ spec.speed_asked fix }
{
    unless(0.0 <= fix.speed, Refusal::SpeedNegative)
}

// The questions of a fix, in their order.
pub fn fix_asked(fix: Fix) -> Result<(), Refusal>
    ensures { result ≡ spec.fix_asked fix }
{
    fix_finite_asked(fix)?;
    fix_unit_asked(fix)?;
    speed_asked(fix)
}

// The ends of a track stay two parameters below: each of the three questions would take a struct of the two apart again.

// Are all numbers of the two positions finite?
fn ends_finite_asked(start: Coordinates, end: Coordinates) -> Result<(), Refusal>
    ensures { result ≡ spec.ends_finite_asked start end }
{
    unless(all_finite(start) & all_finite(end), Refusal::NotFinite)
}

// Are both positions of length one?
fn ends_unit_asked(start: Coordinates, end: Coordinates) -> Result<(), Refusal>
    ensures { result ≡ spec.ends_unit_asked start end }
{
    unless(
        unit(position(start)) & unit(position(end)),
        Refusal::NotUnit,
    )
}

// Are the ends a great circle?
fn circle_asked(start: Coordinates, end: Coordinates) -> Result<(), Refusal>
    ensures { result ≡ spec.circle_asked start end }
{
    unless(
        Sphere::is_great_circle(position(start), position(end)),
        Refusal::NoGreatCircle,
    )
}

// The questions of a track, in their order.
pub fn ends_asked(start: Coordinates, end: Coordinates) -> Result<(), Refusal>
    ensures { result ≡ spec.ends_asked start end }
{
    ends_finite_asked(start, end)?;
    ends_unit_asked(start, end)?;
    circle_asked(start, end)
}

// Does the board hold this identity?
pub fn held_asked(found: Option<Held>) -> Result<(), Refusal>
    ensures { result ≡ spec.held_asked found }
{
    unless(found.is_some(), Refusal::NotHeld)
}

// Is the identity held, or are fewer than 64 held?
pub fn room_asked(found: Option<Held>, count: usize) -> Result<(), Refusal>
    ensures { result ≡ spec.room_asked found count }
{
    unless(found.is_some() || count < MOST_TARGETS, Refusal::BoardFull)
}

// Does the board hold this identity? Has an own ship been set? A track? What a solve then sees.
pub fn see(found: Option<Held>, own: Option<Vehicle>, track: Option<Ends>) -> Result<Scene, Refusal>
    ensures { result ≡ spec.see found own track }
{
    let held = found.ok_or(Refusal::NotHeld)?;
    let own = own.ok_or(Refusal::NoOwnShip)?;
    let track = track.ok_or(Refusal::NoTrack)?;
    let report = held.report;
    Ok(Scene { own, track, report })
}
