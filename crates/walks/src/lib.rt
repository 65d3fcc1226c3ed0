// The walks, to be believed: their types here, their definitions in specs, what is proved of them in proofs. The code stands in chases.
#![tactic(auto)]

ghost use Rattle.std.specs.Prelude.{◌≡◌};
ghost use Rattle.walks.specs.Outcome as spec;

use vectors::vec3::Vec3;

// The steps of a walk, at most.
pub const MOST_STEPS: u32 = 50;

// What a step finds at its time.
#[derive(Clone, Copy)]
pub enum Step {
    // The walk ends with this time.
    Accepted(f64),
    // The walk ends without a time.
    ZeroDerivative,
    // The walk goes on at this time.
    Next(f64),
}

// What a walk comes to; a count is the steps begun. No `Result`: it would take an error enum more, and no `?` could stand, since the one reader makes an `Outcome` of each case.
#[derive(Clone, Copy)]
pub enum Walk {
    Accepted { time: f64, count: u32 },
    ZeroDerivative { count: u32 },
    // No step of 50 ended the walk.
    NotConverged,
}

// The coefficients of the rate at which the cosine of the angle between two vehicles changes. w1 and w2 are their angular speeds.
#[derive(Clone, Copy)]
pub struct Cpa {
    pub a: f64,
    pub b: f64,
    pub c: f64,
    pub d: f64,
    pub w1: f64,
    pub w2: f64,
}

// The sines and cosines of the angles that two vehicles have gone through.
#[derive(Clone, Copy)]
pub struct Sines {
    pub sw1t: f64,
    pub sw2t: f64,
    pub cw1t: f64,
    pub cw2t: f64,
}

// The coefficients of an intercept: an interceptor at v10, and an intruder at v20 with the course c2, the speed s2 and the angular speed w2.
#[derive(Clone, Copy)]
pub struct Chase {
    pub v10: Vec3,
    pub v20: Vec3,
    pub c2: Vec3,
    pub s2: f64,
    pub radius: f64,
    pub w2: f64,
    pub v10v20: f64,
    pub v10c2: f64,
}

// A duration, or why there is none. A count is the steps begun. No `Result`: document 01 names this form, an outcome enum with data.
#[derive(Clone, Copy)]
pub enum Outcome {
    Found { nanoseconds: u64, count: u32 },
    // The derivative was zero: there is no correction to make.
    ZeroDerivative { count: u32 },
    // No time was accepted within 50 steps.
    NotConverged,
    // The accepted time is not zero or more.
    Negative { count: u32 },
    // The accepted time is not below 2^34 seconds.
    TooLong { count: u32 },
}

impl Outcome {
    // Document 01's number of the outcome, 0 where found. A match: `as` takes no enum whose variants have fields.
    pub fn number(self) -> u8
        ensures { result ≡ spec.number_of self }
    {
        match self {
            Outcome::Found { .. } => 0,
            Outcome::ZeroDerivative { .. } => 12,
            Outcome::NotConverged => 13,
            Outcome::Negative { .. } => 14,
            Outcome::TooLong { .. } => 15,
        }
    }

    // The duration in nanoseconds, 0 where refused.
    pub fn nanoseconds(self) -> u64
        ensures { result ≡ spec.nanoseconds_of self }
    {
        match self {
            Outcome::Found { nanoseconds, .. } => nanoseconds,
            _ => 0,
        }
    }

    // The steps begun, from 1 to 50.
    pub fn count(self) -> u32
        ensures { result ≡ spec.count_of self }
    {
        match self {
            Outcome::Found { count, .. }
            | Outcome::ZeroDerivative { count }
            | Outcome::Negative { count }
            | Outcome::TooLong { count } => count,
            Outcome::NotConverged => MOST_STEPS,
        }
    }
}
