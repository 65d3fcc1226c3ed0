// The kinds of frames, and of the replies to them.
ghost use Rattle.std.specs.Prelude.{ℕ, ◌≡◌};
ghost use Rattle.arcs.specs.Side.{side_number};
ghost use Rattle.wire.specs.Kind as spec;

use crate::frame::{ASKED, FRESH, MOST_FRAME_DIGITS, NAMED, OWN_SHIP, REPORT};
use arcs::Side;

// What a frame asks for. The numbers are document 01's.
#[derive(Clone, Copy)]
pub enum Kind {
    Fresh = 0,
    Report = 1,
    Withdraw = 2,
    OwnShip = 3,
    Track = 4,
    Solve = 5,
    Mean = 6,
    Pick = 7,
    Total = 8,
}

// What a byte of a reply stands for: a kind, a reason, a side, or nothing but itself.
// No `Into<u8>` of std: its `converts` is a relation, which may hold of several bytes, and `digits_by`, which says a reply's digits, takes the byte as a function.
pub trait Byte: Copy {
    ghost byte: { Self → ℕ };

    fn byte(self) -> u8
        ensures { result ≡ byte self };
}

impl Byte for u8 {
    ghost byte = { λ b. b };

    fn byte(self) -> u8 {
        self
    }
}

impl Byte for Kind {
    ghost byte = { spec.number_of };

    fn byte(self) -> u8 {
        self.number()
    }
}

impl Byte for Side {
    ghost byte = { side_number };

    fn byte(self) -> u8 {
        self.number()
    }
}

impl Kind {
    // The kind of this number, where there is one. No `TryFrom`: its error would say nothing, and both callers would drop it by `ok`.
    pub fn of_number(number: u64) -> Option<Kind>
        ensures { result ≡ spec.kind_at number }
    {
        match number {
            0 => Some(Kind::Fresh),
            1 => Some(Kind::Report),
            2 => Some(Kind::Withdraw),
            3 => Some(Kind::OwnShip),
            4 => Some(Kind::Track),
            5 => Some(Kind::Solve),
            6 => Some(Kind::Mean),
            7 => Some(Kind::Pick),
            8 => Some(Kind::Total),
            _ => None,
        }
    }

    // Document 01's number of the kind.
    pub fn number(self) -> u8
        ensures { result ≡ spec.number_of self }
    {
        self as u8
    }

    // How many digits a frame of this kind has.
    pub fn digits(self) -> usize
        ensures { result ≡ spec.digits_of self }
    {
        match self {
            Kind::Fresh => FRESH,
            Kind::Report => REPORT,
            Kind::Withdraw | Kind::Solve => NAMED,
            Kind::OwnShip => OWN_SHIP,
            Kind::Track => MOST_FRAME_DIGITS,
            Kind::Mean | Kind::Pick | Kind::Total => ASKED,
        }
    }
}
