// Functions 50 to 56 and 66: positions and vehicles.
ghost use Rattle.std.specs.Prelude.{◌≡◌};
ghost use Rattle.probe_fields.specs.Answered.{Answers};
ghost use Rattle.probe_jord.specs.Positions as spec;

use jord::positions::{LatLong, NVector};
use probe_fields::args::Args;
use probe_fields::page::Page;

// Is f one of these? Then its result is put on the page.
#[tactic(auto, unfolding(crate::specs::Positions::positions_of))]
pub(crate) fn answer(f: u64, args: &mut Args, page: &mut Page) -> bool
    ensures same_reference { page.new.bytes.ghost_name ≡ page.old.bytes.ghost_name }
    ensures answers { Answers (spec.positions_of f args.old) page.old page.new args.old args.new result }
{
    match f {
        0x50 => page.put(LatLong::from_degrees(args.float(), args.float())),
        0x51 => page.put(LatLong::from_nvector(args.nvector())),
        0x52 => page.put(LatLong::new(args.angle(), args.angle()).to_nvector()),
        0x53 => page.put(NVector::from_lat_long(args.angle(), args.angle())),
        0x54 => page.put(NVector::from_lat_long_degrees(args.float(), args.float())),
        0x55 => page.put(args.nvector().antipode()),
        0x56 => page.put(args.nvector().is_antipode_of(args.nvector())),
        0x66 => page.put(args.vehicle()),
        _ => return false,
    }
    true
}
