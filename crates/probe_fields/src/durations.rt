// Functions 0c to 0e: durations.
ghost use Rattle.std.specs.Prelude.{◌≡◌};
ghost use Rattle.probe_fields.specs.Answered.{Answers};
ghost use Rattle.probe_fields.specs.Durations as spec;

use crate::args::Args;
use crate::page::Page;

// Is f one of these? Then its result is put on the page.
#[tactic(auto, unfolding(crate::specs::Durations::durations))]
pub(crate) fn answer(f: u64, args: &mut Args, page: &mut Page) -> bool
    ensures same_reference { page.new.bytes.ghost_name ≡ page.old.bytes.ghost_name }
    ensures answers { Answers (spec.durations f args.old) page.old page.new args.old args.new result }
{
    match f {
        0x0c => page.put(duration::from_seconds(args.float())),
        0x0d => page.put(duration::from_hours(args.float())),
        0x0e => page.put(duration::to_seconds(args.whole())),
        _ => return false,
    }
    true
}
