// Functions 30 to 40: vectors.
ghost use Rattle.std.specs.Prelude.{◌≡◌};
ghost use Rattle.probe_fields.specs.Answered.{Answers};
ghost use Rattle.probe_jord.specs.Vec3 as spec;

use probe_fields::args::Args;
use probe_fields::page::Page;
use vectors::vec3::Vec3;

// Is f one of these? Then its result is put on the page.
#[tactic(auto, unfolding(crate::specs::Vec3::vectors))]
pub(crate) fn answer(f: u64, args: &mut Args, page: &mut Page) -> bool
    ensures same_reference { page.new.bytes.ghost_name ≡ page.old.bytes.ghost_name }
    ensures answers { Answers (spec.vectors f args.old) page.old page.new args.old args.new result }
{
    match f {
        0x30 => page.put(args.vec3()),
        0x31 => page.put(Vec3::new_unit(args.float(), args.float(), args.float())),
        0x32 => page.put(args.vec3().cross_prod(args.vec3())),
        0x33 => page.put(args.vec3().cross_prod_unit(args.vec3())),
        0x34 => page.put(args.vec3().dot_prod(args.vec3())),
        0x35 => page.put(args.vec3().orthogonal_to(args.vec3())),
        0x36 => page.put(args.vec3().orthogonal()),
        0x37 => page.put(args.vec3().norm()),
        0x38 => page.put(args.vec3().stable_cross_prod_unit(args.vec3())),
        0x39 => page.put(args.vec3().stable_cross_prod(args.vec3())),
        0x3a => page.put(args.vec3().squared_norm()),
        0x3b => page.put(args.vec3().unit()),
        0x3c => page.put(args.vec3().add(args.vec3())),
        0x3d => page.put(args.vec3().sub(args.vec3())),
        0x3e => page.put(args.vec3().mul(args.float())),
        0x3f => page.put(args.vec3().div(args.float())),
        0x40 => page.put(args.vec3().neg()),
        _ => return false,
    }
    true
}
