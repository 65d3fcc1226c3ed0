// Functions 14 to 28: angles, lengths and speeds, by their amounts in radians, metres and metres a second.
ghost use Rattle.std.specs.Prelude.{◌≡◌};
ghost use Rattle.probe_fields.specs.Answered.{Answers};
ghost use Rattle.probe_jord.specs.Units as spec;

use jord::angle::Angle;
use jord::length::Length;
use jord::speed::Speed;
use probe_fields::args::Args;
use probe_fields::page::Page;

// Is f one of these? Then its result is put on the page.
#[tactic(auto, unfolding(crate::specs::Units::units))]
pub(crate) fn answer(f: u64, args: &mut Args, page: &mut Page) -> bool
    ensures same_reference { page.new.bytes.ghost_name ≡ page.old.bytes.ghost_name }
    ensures answers { Answers (spec.units f args.old) page.old page.new args.old args.new result }
{
    match f {
        0x14 => page.put(Angle::from_degrees(args.float())),
        0x15 => page.put(args.angle().as_degrees()),
        0x16 => page.put(args.angle().abs()),
        0x17 => page.put(args.angle().normalised()),
        0x18 => page.put(args.angle().normalised_to(args.angle())),
        0x19 => page.put(args.angle().mul(args.float())),
        0x1a => page.put(Length::from_kilometres(args.float())),
        0x1b => page.put(Length::from_feet(args.float())),
        0x1c => page.put(Length::from_nautical_miles(args.float())),
        0x1d => page.put(args.length().as_kilometres()),
        0x1e => page.put(args.length().as_feet()),
        0x1f => page.put(args.length().as_nautical_miles()),
        0x20 => page.put(args.length().abs()),
        0x21 => page.put(args.length().mul(args.float())),
        0x22 => page.put(args.length().mul_angle(args.angle())),
        0x23 => page.put(args.length().div_duration(args.whole())),
        0x24 => page.put(Speed::from_kilometres_per_hour(args.float())),
        0x25 => page.put(Speed::from_knots(args.float())),
        0x26 => page.put(args.speed().as_kilometres_per_hour()),
        0x27 => page.put(args.speed().as_knots()),
        0x28 => page.put(args.speed().mul_duration(args.whole())),
        _ => return false,
    }
    true
}
