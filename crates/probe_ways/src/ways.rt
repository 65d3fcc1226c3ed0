// Functions 80 to 8c: projections, minor arcs, and the ways and angles on the sphere that no board needs.
ghost use Rattle.std.specs.Prelude.{◌≡◌};
ghost use Rattle.probe_fields.specs.Answered.{Answers};
ghost use Rattle.probe_fields.specs.Args.{pass, pass6, pass9};
ghost use Rattle.probe_ways.specs.Ways as spec;

use arcs::great_circle::GreatCircle;
use arcs::minor_arc::MinorArc;
use jord::length::Length;
use jord::positions::NVector;
use means::{NoMean, triangle_mean_position};
use probe_fields::args::Args;
use probe_fields::page::Page;
use probe_sphere::sphere::sphere_of;
use spherical::interpolated::Outside;
use spherical::sphere::Sphere;

// Is f one of these? Then its result is put on the page.
#[tactic(auto, unfolding(crate::specs::Ways::ways))]
pub(crate) fn answer(f: u64, args: &mut Args, page: &mut Page) -> bool
    ensures same_reference { page.new.bytes.ghost_name ≡ page.old.bytes.ghost_name }
    ensures answers { Answers (spec.ways f args.old) page.old page.new args.old args.new result }
{
    match f {
        0x80 => page.put(great_circle(args).projection(args.nvector())),
        0x81 => page.put(minor_arc(args)),
        0x82 => page.put(sphere_of(args).along_track_distance(args.nvector(), minor_arc(args))),
        0x83 => page.put(sphere_of(args).angle_to_distance(args.angle())),
        0x84 => page.put(sphere_of(args).distance_to_angle(args.length())),
        0x85 => page.put(destination(args)),
        0x86 => page.put(Sphere::final_bearing(args.nvector(), args.nvector())),
        0x87 => page.put(on_great_circle(args)),
        0x88 => page.put(interpolated(args)),
        0x89 => page.put(triangle_mean(args)),
        0x8a => page.put(Sphere::turn(args.nvector(), args.nvector(), args.nvector())),
        0x8b => page.put(sphere_of(args).position_after(args.vehicle(), args.whole())),
        0x8c => page.put(radii(args)),
        _ => return false,
    }
    true
}

fn great_circle(args: &mut Args) -> GreatCircle
    ensures value { result ≡ spec.great_circle args.old }
    ensures place { args.new ≡ pass6 args.old }
{
    GreatCircle::new(args.nvector(), args.nvector())
}

fn minor_arc(args: &mut Args) -> MinorArc
    ensures value { result ≡ spec.minor_arc args.old }
    ensures place { args.new ≡ pass6 args.old }
{
    MinorArc::new(args.nvector(), args.nvector())
}

fn destination(args: &mut Args) -> NVector
    ensures value { result ≡ spec.destination args.old }
    ensures place { args.new ≡ spec.past_destination args.old }
{
    sphere_of(args).destination_position(args.nvector(), args.angle(), args.length())
}

fn on_great_circle(args: &mut Args) -> NVector
    ensures value { result ≡ spec.on_great_circle args.old }
    ensures place { args.new ≡ pass (pass6 args.old) }
{
    Sphere::position_on_great_circle(args.nvector(), args.nvector(), args.angle())
}

fn interpolated(args: &mut Args) -> Result<NVector, Outside>
    ensures value { result ≡ spec.interpolated args.old }
    ensures place { args.new ≡ pass (pass6 args.old) }
{
    Sphere::interpolated_position(args.nvector(), args.nvector(), args.float())
}

fn triangle_mean(args: &mut Args) -> Result<NVector, NoMean>
    ensures value { result ≡ spec.triangle_mean args.old }
    ensures place { args.new ≡ pass9 args.old }
{
    triangle_mean_position(args.nvector(), args.nvector(), args.nvector())
}

// The radii of a sphere, of the earth and of the moon.
fn radii(args: &mut Args) -> (Length, Length, Length)
    ensures value { result ≡ spec.radii args.old }
    ensures place { args.new ≡ pass args.old }
{
    (
        sphere_of(args).radius(),
        Sphere::earth().radius(),
        Sphere::moon().radius(),
    )
}
