// The state of a board.
use crate::call::Answer;
use crate::line::Ends;
use crate::targets::Targets;
use jord::vehicle::Vehicle;

// A board: the radius of the sphere in metres, the own ship or none, the track or none, the targets and the total of steps.
#[derive(Clone, Copy)]
pub struct Board {
    pub radius: f64,
    pub own: Option<Vehicle>,
    pub track: Option<Ends>,
    pub targets: Targets,
    pub total: u32,
}

// A board beside what it answered.
#[derive(Clone, Copy)]
pub struct Answered {
    pub board: Board,
    pub answer: Answer,
}
