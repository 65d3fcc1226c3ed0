// The mean of positions that are read one by one, however they lie.
ghost use Rattle.std.specs.Prelude.{◌≡◌, ◌<◌, List, length, get_or};
ghost use Rattle.jord.specs.declared.positions.NVector.{NVector};
ghost use Rattle.means.specs.Mean as spec;

use crate::{NoMean, plus};
use jord::positions::NVector;
use vectors::vec3::Vec3;

// Positions that are read one by one.
// No `Iterator`: each position's opposite is sought among all of them, so they are read again for each.
pub(crate) trait Run: Copy {
    ghost listed: { Self → List NVector };

    // How many there are.
    fn len(self) -> usize
        ensures { result ≡ length (listed self) };

    // The i-th position, counted from 0.
    fn at(self, i: usize) -> NVector
        requires { i < length (listed self) }
        ensures { result ≡ get_or (listed self) i spec.nowhere };
}

// The mean of the positions: one is its own mean, of more it is the unit vector along their sum.
pub(crate) fn mean<R: Run>(ps: R) -> Result<NVector, NoMean>
    ensures { result ≡ spec.mean_of (R.listed ps) }
{
    let n = ps.len();
    if n == 0 {
        return Err(NoMean::Empty);
    }
    if contains_antipodal(ps) {
        return Err(NoMean::Antipodal);
    }
    if n == 1 {
        return Ok(ps.at(0));
    }
    Ok(NVector::new(vec3_mean(ps)))
}

// Whether a position is the antipode of one, itself included.
fn contains_antipodal<R: Run>(ps: R) -> bool
    ensures { result ≡ spec.contains_antipodal (R.listed ps) }
{
    (0..ps.len()).any(|i| contains(ps, ps.at(i).antipode()))
}

// Whether a position equals a.
fn contains<R: Run>(ps: R, a: NVector) -> bool
    ensures { result ≡ spec.contains a (R.listed ps) }
{
    (0..ps.len()).any(|i| ps.at(i) == a)
}

// The source's `Vec3::mean`: the unit vector along the sums of the parts, in the order of the positions.
pub(crate) fn vec3_mean<R: Run>(ps: R) -> Vec3
    ensures { result ≡ spec.vec3_mean (R.listed ps) }
{
    let s = (0..ps.len()).fold(Vec3::ZERO, |s, i| plus(s, ps.at(i)));
    Vec3::new_unit(s.x, s.y, s.z)
}
