// The arguments and results of a call of the program probe, and the calls of the float ground, numbers and durations by their number.
#![tactic(auto)]

ghost use Rattle.std.specs.Prelude.{◌≡◌};
ghost use Rattle.probe_fields.specs.Answered.{Answers};
ghost use Rattle.probe_fields.specs.Answer as spec;

use crate::args::Args;
use crate::page::Page;

pub mod args;
mod durations;
mod fields;
mod floats;
mod numbers;
pub mod page;

// Number, arguments and page are lent one by one, here and above: of a struct of the three each arm would still name two, as `c.page.put(c.args.float())`.

// Is f a function of these? Then its result is put on the page. It takes its arguments, whether or not the line has as many.
#[tactic(auto, unfolding(crate::specs::Answer::answer))]
pub fn answer(f: u64, args: &mut Args, page: &mut Page) -> bool
    ensures same_reference { page.new.bytes.ghost_name ≡ page.old.bytes.ghost_name }
    ensures answers { Answers (spec.answer f args.old) page.old page.new args.old args.new result }
{
    floats::answer(f, args, page)
        || durations::answer(f, args, page)
        || numbers::answer(f, args, page)
}
