// Positions of three numbers each, one after another or in three columns of one slice, and the mean of those in columns.
ghost use Rattle.std.specs.Prelude.{◌≡◌, ◌*◌, ◌<◌, ◌≤◌, length, map};
ghost use Rattle.means.specs.Laid as spec;

use crate::NoMean;
use crate::run::{self, Run};
use jord::positions::NVector;
use vectors::vec3::Vec3;

// Positions one after another, each through `Vec3::new`.
#[derive(Clone, Copy)]
pub(crate) struct InTurn<'a>(pub(crate) &'a [[f64; 3]]);

impl Run for InTurn<'_> {
    ghost listed = { λ s. map spec.of_three s.0.now };

    fn len(self) -> usize {
        self.0.len()
    }

    fn at(self, i: usize) -> NVector {
        let [x, y, z] = self.0[i];
        NVector::new(Vec3::new(x, y, z))
    }
}

// The first n of m positions: all x, then all y, then all z.
// One slice and two lengths, as `mean_of_columns`, which is public, is lent them: three slices would carry m three times.
#[derive(Clone, Copy)]
struct InColumns<'a> {
    cs: &'a [f64],
    m: usize,
    n: usize,
    ghost few: { n ≤ m },
    ghost long: { 3 * m ≤ length cs.now },
}

impl InColumns<'_> {
    // The i-th position, counted from 0.
    fn position(self, i: usize) -> NVector
        requires { i < self.n }
        ensures { result ≡ spec.column_at self.entry.cs.now self.entry.m i }
    {
        NVector::new(Vec3 {
            x: self.cs[i],
            y: self.cs[self.m + i],
            z: self.cs[2 * self.m + i],
        })
    }
}

impl Run for InColumns<'_> {
    ghost listed = { λ s. spec.in_columns s.cs.now s.m s.n };

    fn len(self) -> usize {
        self.n
    }

    fn at(self, i: usize) -> NVector {
        self.position(i)
    }
}

// The mean of the first n positions, or of all where there are fewer: all x, then all y, then all z. One or two numbers left over at the end count for nothing.
pub fn mean_of_columns(cs: &[f64], n: usize) -> Result<NVector, NoMean>
    ensures mean { result ≡ spec.column_mean cs.now n }
    ensures unchanged { cs.exit.now ≡ cs.entry.now }
{
    let m = cs.len() / 3;
    run::mean(InColumns { cs, m, n: n.min(m) })
}
