// Functions 01 to 0b, and 8e, both of sine and cosine: the floats.
ghost use Rattle.std.specs.Prelude.{◌≡◌};
ghost use Rattle.probe_fields.specs.Answered.{Answers};
ghost use Rattle.probe_fields.specs.Floats as spec;

use crate::args::Args;
use crate::page::Page;

// Is f one of these? Then its result is put on the page.
#[tactic(auto, unfolding(crate::specs::Floats::floats))]
pub(crate) fn answer(f: u64, args: &mut Args, page: &mut Page) -> bool
    ensures same_reference { page.new.bytes.ghost_name ≡ page.old.bytes.ghost_name }
    ensures answers { Answers (spec.floats f args.old) page.old page.new args.old args.new result }
{
    match f {
        0x01 => page.put(patterns::sign_bit(args.float())),
        0x02 => page.put(patterns::magnitude(args.float())),
        0x03 => page.put(patterns::to_bits(args.float())),
        0x04 => page.put(patterns::from_bits(args.whole())),
        0x05 => page.put(roots::sqrt(args.float())),
        0x06 => page.put(remainders::rem(args.float(), args.float())),
        0x07 => page.put(float::trig::sin(args.float())),
        0x08 => page.put(float::trig::cos(args.float())),
        0x09 => page.put(float::trig::atan2(args.float(), args.float())),
        0x0a => page.put(float::degrees::to_radians(args.float())),
        0x0b => page.put(float::degrees::to_degrees(args.float())),
        // It came with request 2026-04: the number after all others.
        0x8e => page.put(float::trig::sin_cos(args.float())),
        _ => return false,
    }
    true
}
