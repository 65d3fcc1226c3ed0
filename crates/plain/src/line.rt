// What a solve sees, and the line that it makes of it.
use arcs::Side;
use jord::positions::NVector;
use jord::vehicle::Vehicle;
use walks::Outcome;

// The ends of a track.
#[derive(Clone, Copy)]
pub struct Ends {
    pub start: NVector,
    pub end: NVector,
}

// What a solve sees: the own ship, the track and the target's report.
#[derive(Clone, Copy)]
pub struct Scene {
    pub own: Vehicle,
    pub track: Ends,
    pub report: Vehicle,
}

// What a solve makes of a target: metres and radians from the own ship, the side of the track and the metres from it, and three walks.
#[derive(Clone, Copy)]
pub struct Line {
    pub distance: f64,
    pub bearing: f64,
    pub side: Side,
    pub offset: f64,
    pub closest: Outcome,
    pub meeting: Outcome,
    pub longest: Outcome,
}
