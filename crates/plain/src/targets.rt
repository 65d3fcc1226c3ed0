// The targets of a board, in rising identity: the first of 64 places.
use crate::line::Line;
use jord::vehicle::Vehicle;

// The room of a board.
pub const MOST_TARGETS: usize = 64;

// What is held of a target: its last accepted report, and its line or none.
#[derive(Clone, Copy)]
pub struct Held {
    pub report: Vehicle,
    pub line: Option<Line>,
}

// A target.
#[derive(Clone, Copy)]
pub struct Target {
    pub identity: u16,
    pub held: Held,
}

// The targets that stand: the first `count` entries, all of them where it says more.
// An array with a count: a board is a value that is copied, and an `ArrayVec` is not `Copy`.
#[derive(Clone, Copy)]
pub struct Targets {
    pub entries: [Target; MOST_TARGETS],
    pub count: usize,
}
