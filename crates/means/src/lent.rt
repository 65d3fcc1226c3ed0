// The mean of a lent slice of positions.
ghost use Rattle.std.specs.Prelude.{◌≡◌};
ghost use Rattle.means.specs.Mean as spec;

use crate::NoMean;
use crate::run::{self, Run};
use jord::positions::NVector;

impl Run for &[NVector] {
    ghost listed = { λ s. s.now };

    fn len(self) -> usize {
        (*self).len()
    }

    fn at(self, i: usize) -> NVector {
        self[i]
    }
}

// The mean of lent positions, the unit vector along their sum; one is its own mean. Empty (16) of none, Antipodal (17) where one is the negation of another or of itself.
pub fn mean_position_of(positions: &[NVector]) -> Result<NVector, NoMean>
    ensures mean { result ≡ spec.mean_of positions.now }
    ensures unchanged { positions.exit.now ≡ positions.entry.now }
{
    run::mean(positions)
}
