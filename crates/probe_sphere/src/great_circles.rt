// Functions 60 to 65: angles between vectors, sides and great circles.
ghost use Rattle.std.specs.Prelude.{◌≡◌};
ghost use Rattle.probe_fields.specs.Answered.{Answers};
ghost use Rattle.probe_sphere.specs.GreatCircles as spec;

use arcs::base;
use arcs::great_circle::GreatCircle;
use probe_fields::args::Args;
use probe_fields::page::Page;

// Is f one of these? Then its result is put on the page.
#[tactic(auto, unfolding(crate::specs::GreatCircles::great_circles))]
pub(crate) fn answer(f: u64, args: &mut Args, page: &mut Page) -> bool
    ensures same_reference { page.new.bytes.ghost_name ≡ page.old.bytes.ghost_name }
    ensures answers { Answers (spec.great_circles f args.old) page.old page.new args.old args.new result }
{
    match f {
        0x60 => page.put(base::angle_radians_between(args.vec3(), args.vec3())),
        0x61 => page.put(base::angle_radians_about(args.vec3(), args.vec3(), args.vec3())),
        0x62 => page.put(base::easting(args.vec3())),
        0x63 => page.put(base::side(args.vec3(), args.vec3(), args.vec3())),
        0x64 => page.put(GreatCircle::new(args.nvector(), args.nvector()).normal()),
        0x65 => page.put(GreatCircle::from_heading(args.nvector(), args.angle()).normal()),
        _ => return false,
    }
    true
}
