// Units, vectors, matrices and positions by the number of their function, as the program probe takes them.
#![tactic(auto)]

ghost use Rattle.std.specs.Prelude.{◌≡◌};
ghost use Rattle.probe_fields.specs.Answered.{Answers};
ghost use Rattle.probe_jord.specs.Answer as spec;

use probe_fields::args::Args;
use probe_fields::page::Page;

mod mat33;
mod positions;
mod units;
mod vec3;

// Is f a function of these? Then its result is put on the page. It takes its arguments, whether or not the line has as many.
#[tactic(auto, unfolding(crate::specs::Answer::answer))]
pub fn answer(f: u64, args: &mut Args, page: &mut Page) -> bool
    ensures same_reference { page.new.bytes.ghost_name ≡ page.old.bytes.ghost_name }
    ensures answers { Answers (spec.answer f args.old) page.old page.new args.old args.new result }
{
    units::answer(f, args, page)
        || vec3::answer(f, args, page)
        || mat33::answer(f, args, page)
        || positions::answer(f, args, page)
}
