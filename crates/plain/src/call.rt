// What is handed to a board and what it answers.
ghost use Rattle.std.specs.Prelude.{◌≡◌};
ghost use Rattle.plain.specs.Call as spec;

use crate::line::Line;

// Three numbers handed over as a position.
#[derive(Clone, Copy)]
pub struct Coordinates {
    pub x: f64,
    pub y: f64,
    pub z: f64,
}

// The numbers handed over for a vehicle: a position, a bearing in radians, a speed in metres a second.
#[derive(Clone, Copy)]
pub struct Fix {
    pub position: Coordinates,
    pub bearing: f64,
    pub speed: f64,
}

// A call that may change a board. Report, withdraw and solve name a target by its identity.
#[derive(Clone, Copy)]
pub enum Call {
    Report(u16, Fix),
    Withdraw(u16),
    OwnShip(Fix),
    Track(Coordinates, Coordinates),
    Solve(u16),
}

// Why a call is refused: the question that was answered by no, of document 01's number.
#[derive(Clone, Copy)]
pub enum Refusal {
    // The radius is not finite and above zero.
    RadiusNotPositive = 2,
    // The identity is 0.
    IdentityZero = 3,
    // A number handed over is a NaN or infinite.
    NotFinite = 4,
    // The squared length of a position is not within 2^-40 of one.
    NotUnit = 5,
    // The speed is below zero.
    SpeedNegative = 6,
    // The track's ends are equal or antipodes, so no great circle.
    NoGreatCircle = 7,
    // The board does not hold this identity.
    NotHeld = 8,
    // The identity is not held, and 64 others are.
    BoardFull = 9,
    // No own ship has been set.
    NoOwnShip = 10,
    // No track has been set.
    NoTrack = 11,
    // No target's line has a found meeting time.
    NoMeeting = 19,
}

impl Refusal {
    // Document 01's number of the refusal.
    pub fn number(self) -> u8
        ensures { result ≡ spec.number_of self }
    {
        self as u8
    }
}

// What a board answers to a call: done, with the line of a solve, or refused.
pub type Answer = Result<Option<Line>, Refusal>;

// Document 01's number of an answer, 0 where it is done.
pub fn answer_number(answer: Answer) -> u8
    ensures { result ≡ spec.answer_number answer }
{
    match answer {
        Ok(_) => 0,
        Err(refusal) => refusal.number(),
    }
}

// The line that an answer hands out, or none.
pub fn answer_line(answer: Answer) -> Option<Line>
    ensures { result ≡ spec.answer_line answer }
{
    match answer {
        Ok(line) => line,
        Err(_) => None,
    }
}
