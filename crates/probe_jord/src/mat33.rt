// Functions 41 to 43: matrices of three rows.
ghost use Rattle.std.specs.Prelude.{◌≡◌};
ghost use Rattle.probe_fields.specs.Answered.{Answers};
ghost use Rattle.probe_jord.specs.Mat33 as spec;

use probe_fields::args::Args;
use probe_fields::page::Page;
use vectors::mat33::Mat33;

// Is f one of these? Then its result is put on the page.
#[tactic(auto, unfolding(crate::specs::Mat33::matrices))]
pub(crate) fn answer(f: u64, args: &mut Args, page: &mut Page) -> bool
    ensures same_reference { page.new.bytes.ghost_name ≡ page.old.bytes.ghost_name }
    ensures answers { Answers (spec.matrices f args.old) page.old page.new args.old args.new result }
{
    match f {
        0x41 => page.put(args.mat33().transpose()),
        0x42 => page.put(Mat33::vec3_mul(args.vec3(), args.mat33())),
        0x43 => page.put(args.mat33().mul(args.mat33())),
        _ => return false,
    }
    true
}
