// Great circles and what a board's line holds, by the number of their function, as the program probe takes them.
#![tactic(auto)]

ghost use Rattle.std.specs.Prelude.{◌≡◌};
ghost use Rattle.probe_fields.specs.Answered.{Answers};
ghost use Rattle.probe_sphere.specs.Answer as spec;

use probe_fields::args::Args;
use probe_fields::page::Page;

mod great_circles;
pub mod sphere;

// Is f a function of these? Then its result is put on the page. It takes its arguments, whether or not the line has as many.
#[tactic(auto, unfolding(crate::specs::Answer::answer))]
pub fn answer(f: u64, args: &mut Args, page: &mut Page) -> bool
    ensures same_reference { page.new.bytes.ghost_name ≡ page.old.bytes.ghost_name }
    ensures answers { Answers (spec.answer f args.old) page.old page.new args.old args.new result }
{
    great_circles::answer(f, args, page) || sphere::answer(f, args, page)
}
