// What a walk comes to in the answer, with a reason for every refusal.
ghost use Rattle.std.specs.Prelude.{◌≡◌, ℕ, Float, Result};
ghost use Rattle.duration.specs.declared.OutOfRange.{OutOfRange as refused};
ghost use Rattle.walks.specs.Outcome as spec;

use duration::OutOfRange;
use walks::{Outcome, Walk};

// The outcome of a walk over seconds.
pub fn of_seconds(w: Walk) -> Outcome
    ensures { result ≡ spec.of_seconds w }
{
    of_walk(w, |t| duration::from_seconds(t))
}

// The outcome of a walk over hours.
pub fn of_hours(w: Walk) -> Outcome
    ensures { result ≡ spec.of_hours w }
{
    of_walk(w, |t| duration::from_hours(t))
}

// The outcome of a walk, by what makes a duration of its time.
fn of_walk<D: Fn(f64) -> Result<u64, OutOfRange>>(w: Walk, duration: D) -> Outcome
    requires { D.IsAlwaysCallable duration }
    ensures { (d : Float → Result ℕ refused) → ((t : Float) (r : Result ℕ refused) → D.post duration t r → r ≡ d t) → result ≡ spec.of_walk d w }
{
    match w {
        Walk::Accepted { time, count } => of_converted(duration(time), count),
        Walk::ZeroDerivative { count } => Outcome::ZeroDerivative { count },
        Walk::NotConverged => Outcome::NotConverged,
    }
}

// The outcome of a time that was accepted at the count-th step, by its duration.
fn of_converted(converted: Result<u64, OutOfRange>, count: u32) -> Outcome
    ensures { result ≡ spec.of_converted converted count }
{
    match converted {
        Ok(nanoseconds) => Outcome::Found { nanoseconds, count },
        Err(OutOfRange::Negative) => Outcome::Negative { count },
        Err(OutOfRange::TooLong) => Outcome::TooLong { count },
    }
}
