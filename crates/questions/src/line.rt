// The line that a solve makes of what it sees.
ghost use Rattle.std.specs.Prelude.{◌≡◌, ◌+◌, ◌%◌};
ghost use Rattle.plain.specs.Line as spec;

use arcs::great_circle::GreatCircle;
use jord::length::Length;
use plain::line::{Line, Scene};
use spherical::sphere::Sphere;

// The line of a scene, on a sphere of this radius.
pub fn solve_line(radius: f64, scene: Scene) -> Line
    ensures { result ≡ spec.solve_line radius scene }
{
    let sphere = Sphere::new(Length::from_metres(radius));
    let own = scene.own;
    let track = scene.track;
    let target = scene.report;
    let from = own.position;
    let to = target.position;
    let start = track.start;
    let end = track.end;
    let distance = sphere.distance(from, to);
    let bearing = Sphere::initial_bearing(from, to);
    let side = Sphere::side(to, start, end);
    let offset = sphere.cross_track_distance(to, GreatCircle::new(start, end));
    let closest = sphere.time_to_cpa(own, target);
    let meeting = sphere.time_to_intercept(from, own.speed, target);
    let longest = sphere.max_time_to_intercept(from, target);
    Line {
        distance: distance.metres,
        bearing: bearing.radians,
        side,
        offset: offset.metres,
        closest,
        meeting,
        longest,
    }
}

// The total with the three counts of a line; it returns to 0 after 2^32 - 1.
pub fn raise(total: u32, line: Line) -> u32
    ensures { result ≡ (total + spec.counts line) % spec.totals }
{
    let a = total.wrapping_add(line.closest.count());
    let b = a.wrapping_add(line.meeting.count());
    b.wrapping_add(line.longest.count())
}
