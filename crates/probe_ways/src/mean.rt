// Functions 79 and 8d: the mean of as many coordinates, or positions, as the line has.
ghost use Rattle.std.specs.Prelude.{◌≡◌};
ghost use Rattle.means.specs.Mean as means;
ghost use Rattle.probe_fields.specs.Answered.{Answers};
ghost use Rattle.probe_fields.specs.Args.{pass_rest};
ghost use Rattle.probe_ways.specs.Mean as spec;

use jord::positions::NVector;
use means::lent::mean_position_of;
use means::{NoMean, mean_position};
use probe_fields::args::{ARGUMENTS, Args};
use probe_fields::page::Page;
use vectors::vec3::Vec3;

// The most positions that a line has room for.
const POSITIONS: usize = ARGUMENTS / 3;

// Is f one of these? Then its result is put on the page.
#[tactic(auto, unfolding(crate::specs::Mean::mean_calls))]
pub(crate) fn answer(f: u64, args: &mut Args, page: &mut Page) -> bool
    ensures same_reference { page.new.bytes.ghost_name ≡ page.old.bytes.ghost_name }
    ensures answers { Answers (spec.mean_calls f args.old) page.old page.new args.old args.new result }
{
    match f {
        0x79 => page.put(of_coordinates(args)),
        0x8d => page.put(of_positions(args)),
        _ => return false,
    }
    true
}

fn of_coordinates(args: &mut Args) -> Result<NVector, NoMean>
    ensures value { result ≡ means.mean_position (spec.floats (spec.coordinates args.old) args.old) }
    ensures place { args.new ≡ spec.past_floats (spec.coordinates args.old) args.old }
{
    let n = args.left().min(ARGUMENTS);
    let mut coordinates = [0.0; ARGUMENTS];
    // A loop: by `fill_with` goal `returns-clause-place` stays open, for nothing is known of the arguments that its closure borrowed, once the slice is full.
    for x in &mut coordinates[..n] {
        *x = args.float();
    }
    mean_position(&coordinates[..n])
}

// One or two numbers left over at the end count for nothing.
fn of_positions(args: &mut Args) -> Result<NVector, NoMean>
    ensures value { result ≡ means.mean_of (spec.positions (spec.places args.old) args.old) }
    ensures place { args.new ≡ pass_rest args.old }
{
    let n = (args.left() / 3).min(POSITIONS);
    let mut positions = [NVector::new(Vec3::ZERO); POSITIONS];
    // A loop, as above.
    for p in &mut positions[..n] {
        *p = args.nvector();
    }
    args.pass_rest();
    mean_position_of(&positions[..n])
}
