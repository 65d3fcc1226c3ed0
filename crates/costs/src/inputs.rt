// What is handed to the calls: another thing each turn, so that no turn's work can be saved.
ghost use Rattle.std.specs.Prelude.{◌<◌};

use plain::call::{Coordinates, Fix};
use plain::targets::MOST_TARGETS;

// The most targets of a board.
pub const HELD: u64 = MOST_TARGETS as u64;

// One of so many identities, which do not come in their order.
pub(crate) fn identity(turn: u64) -> u16 {
    (turn % HELD * 40503 % 65521 + 1) as u16
}

// A part of one.
fn part(turn: u64, of: u64) -> f64
    requires { (0 < of) × (of < 1024) }
{
    (turn % of) as f64 / of as f64
}

// A position: the point of the unit sphere that is seen at (u, v) from its south pole, none of them opposite to another.
pub(crate) fn coordinates(turn: u64) -> Coordinates {
    let u = part(turn, 1009);
    let v = part(turn, 997);
    let s = u * u + v * v;
    let q = 1.0 + s;
    Coordinates {
        x: 2.0 * u / q,
        y: 2.0 * v / q,
        z: (1.0 - s) / q,
    }
}

// A fix: any bearing, 1 to 11 metres a second.
pub(crate) fn fix(turn: u64) -> Fix {
    Fix {
        position: coordinates(turn),
        bearing: 6.0 * part(turn, 991),
        speed: 1.0 + 10.0 * part(turn, 983),
    }
}
