// Angles between vectors, great circles, arcs of them, and the side of one on which a point lies: the source's base.rs, great_circle.rs and minor_arc.rs.
#![tactic(auto)]

ghost use Rattle.std.specs.Prelude.{◌≡◌};
ghost use Rattle.arcs.specs.Side.{side_number};

pub mod base;
pub mod great_circle;
pub mod minor_arc;

// Where a point lies with respect to a great circle.
#[derive(Clone, Copy)]
pub enum Side {
    Left = 0,
    Right = 1,
    // The point is on the great circle, within EPSILON.
    Collinear = 2,
}

impl Side {
    // Document 01's number of the side.
    pub fn number(self) -> u8
        ensures { result ≡ side_number self }
    {
        self as u8
    }
}
