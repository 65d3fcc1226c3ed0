// Functions 10 to 13: the comparisons of numbers.
ghost use Rattle.std.specs.Prelude.{◌≡◌};
ghost use Rattle.probe_fields.specs.Answered.{Answers};
ghost use Rattle.probe_fields.specs.Numbers as spec;

use crate::args::Args;
use crate::page::Page;

// Is f one of these? Then its result is put on the page.
#[tactic(auto, unfolding(crate::specs::Numbers::numbers))]
pub(crate) fn answer(f: u64, args: &mut Args, page: &mut Page) -> bool
    ensures same_reference { page.new.bytes.ghost_name ≡ page.old.bytes.ghost_name }
    ensures answers { Answers (spec.numbers f args.old) page.old page.new args.old args.new result }
{
    match f {
        0x10 => page.put(jord::numbers::eq_zero(args.float())),
        0x11 => page.put(jord::numbers::eq(args.float(), args.float())),
        0x12 => page.put(jord::numbers::lte(args.float(), args.float())),
        0x13 => page.put(jord::numbers::gte(args.float(), args.float())),
        _ => return false,
    }
    true
}
