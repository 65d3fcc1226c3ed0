// Means of positions: of coordinates in turn or in columns, of lent positions, of three.
#![tactic(auto)]

ghost use Rattle.std.specs.Prelude.{◌≡◌, Err};
ghost use Rattle.means.specs.Mean as spec;

use crate::columns::InTurn;
use jord::positions::NVector;
use vectors::vec3::Vec3;

pub mod columns;
pub mod lent;
mod run;

// Why there is no mean, by document 01's number.
#[derive(Clone, Copy)]
pub enum NoMean {
    // There is no entry.
    Empty = 16,
    // An entry is the negation of an entry, or of itself; of three positions, two are antipodes.
    Antipodal = 17,
}

impl NoMean {
    // Document 01's number of the answer.
    pub fn number(self) -> u8
        ensures { result ≡ spec.number_of (Err self) }
    {
        self as u8
    }
}

// Document 01's number of a mean, 0 where there is one.
pub fn number_of(mean: Result<NVector, NoMean>) -> u8
    ensures { result ≡ spec.number_of mean }
{
    match mean {
        Ok(_) => 0,
        Err(e) => e.number(),
    }
}

// The mean of positions, the unit vector along their sum; one is its own mean. Empty (16) of none, Antipodal (17) where one is the negation of another or of itself.
// Their coordinates are handed over, three to a position; one or two left over at the end count for nothing.
pub fn mean_position(cs: &[f64]) -> Result<NVector, NoMean>
    ensures mean { result ≡ spec.mean_position cs.now }
    ensures unchanged { cs.exit.now ≡ cs.entry.now }
{
    run::mean(InTurn(cs.as_chunks::<3>().0))
}

// The mean of three positions, the unit vector along their sum; Antipodal (17) where two are antipodes.
pub fn triangle_mean_position(p1: NVector, p2: NVector, p3: NVector) -> Result<NVector, NoMean>
    ensures { result ≡ spec.triangle_mean_position p1 p2 p3 }
{
    if p1.is_antipode_of(p2) | p1.is_antipode_of(p3) | p2.is_antipode_of(p3) {
        return Err(NoMean::Antipodal);
    }
    let ps: &[NVector] = &[p1, p2, p3];
    Ok(NVector::new(run::vec3_mean(ps)))
}

// s with the parts of p added to its own.
pub fn plus(s: Vec3, p: NVector) -> Vec3
    ensures { result ≡ spec.plus s p }
{
    p.as_vec3().sums(s)
}
