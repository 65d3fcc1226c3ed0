// Functions 70 to 78 and 7a: the sphere, its walks, and all that a line of the board holds.
ghost use Rattle.std.specs.Prelude.{◌≡◌, length};
ghost use Rattle.probe_fields.specs.Answered.{Answers};
ghost use Rattle.probe_fields.specs.Args.{pass};
ghost use Rattle.probe_fields.specs.Page.{sheet, put_all};
ghost use Rattle.probe_sphere.specs.Sphere as spec;

use arcs::great_circle::GreatCircle;
use jord::length::Length;
use jord::positions::NVector;
use plain::line::{Ends, Scene};
use probe_fields::args::Args;
use probe_fields::page::Page;
use questions::line::solve_line;
use spherical::sphere::Sphere;
use walks::Outcome;

// Is f one of these? Then its result is put on the page.
#[tactic(auto, unfolding(crate::specs::Sphere::sphere_calls))]
pub(crate) fn answer(f: u64, args: &mut Args, page: &mut Page) -> bool
    ensures same_reference { page.new.bytes.ghost_name ≡ page.old.bytes.ghost_name }
    ensures answers { Answers (spec.sphere_calls f args.old) page.old page.new args.old args.new result }
{
    match f {
        0x70 => page.put(Sphere::is_great_circle(args.nvector(), args.nvector())),
        0x71 => page.put(Sphere::angle(args.nvector(), args.nvector())),
        0x72 => page.put(sphere_of(args).distance(args.nvector(), args.nvector())),
        0x73 => page.put(Sphere::initial_bearing(args.nvector(), args.nvector())),
        0x74 => page.put(Sphere::side(args.nvector(), args.nvector(), args.nvector())),
        0x75 => page.put(cross_track(args)),
        0x76 => page.put(sphere_of(args).time_to_cpa(args.vehicle(), args.vehicle())),
        0x77 => page.put(meeting(args)),
        0x78 => page.put(sphere_of(args).max_time_to_intercept(args.nvector(), args.vehicle())),
        0x7a => put_solve(page, args),
        _ => return false,
    }
    true
}

// The sphere of a radius in metres.
pub fn sphere_of(args: &mut Args) -> Sphere
    ensures value { result ≡ spec.sphere_of args.old }
    ensures place { args.new ≡ pass args.old }
{
    Sphere::new(args.length())
}

// The distance of p from the great circle through two positions.
fn offset(s: Sphere, p: NVector, start: NVector, end: NVector) -> Length
    ensures { result ≡ spec.offset s p start end }
{
    s.cross_track_distance(p, GreatCircle::new(start, end))
}

fn cross_track(args: &mut Args) -> Length
    ensures value { result ≡ spec.cross_track args.old }
    ensures place { args.new ≡ spec.past_cross_track args.old }
{
    offset(
        sphere_of(args),
        args.nvector(),
        args.nvector(),
        args.nvector(),
    )
}

fn meeting(args: &mut Args) -> Outcome
    ensures value { result ≡ spec.meeting args.old }
    ensures place { args.new ≡ spec.past_meeting args.old }
{
    sphere_of(args).time_to_intercept(args.nvector(), args.speed(), args.vehicle())
}

// Of radius, own ship, the track's ends and target, what a board's line has of them: distance, bearing, side and offset,
// then closest approach, meeting at own speed and longest time to meet.
#[tactic(auto, unfolding(plain::specs::Line::solve_line))]
fn put_solve(page: &mut Page, args: &mut Args)
    ensures same_reference { page.new.bytes.ghost_name ≡ page.old.bytes.ghost_name }
    ensures size { length page.new.bytes.now ≡ length page.old.bytes.now }
    ensures written { sheet page.new ≡ put_all (sheet page.old) (spec.solve args.old) }
    ensures place { args.new ≡ spec.past_solve args.old }
{
    let radius = args.float();
    let own = args.vehicle();
    let track = Ends {
        start: args.nvector(),
        end: args.nvector(),
    };
    let report = args.vehicle();
    let line = solve_line(radius, Scene { own, track, report });
    page.put((
        (line.distance, line.bearing),
        (line.side, line.offset),
        (line.closest, line.meeting, line.longest),
    ));
}
