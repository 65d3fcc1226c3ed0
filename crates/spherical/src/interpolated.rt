// Why there is no position at a fraction of the way between two positions.
ghost use Rattle.std.specs.Prelude.{◌≡◌, Err};
ghost use Rattle.spherical.specs.Interpolated as spec;

use jord::positions::NVector;

// The fraction is not within 0.0 to 1.0.
#[derive(Clone, Copy)]
pub struct Outside;

impl Outside {
    // Document 01's number of the answer.
    pub fn number(self) -> u8
        ensures { result ≡ spec.number_of (Err self) }
    {
        18
    }
}

// Document 01's number of a position at a fraction, 0 where there is one.
pub fn number_of(interpolated: Result<NVector, Outside>) -> u8
    ensures { result ≡ spec.number_of interpolated }
{
    match interpolated {
        Ok(_) => 0,
        Err(e) => e.number(),
    }
}
