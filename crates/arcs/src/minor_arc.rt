// Minor arcs.
ghost use Rattle.std.specs.Prelude.{◌≡◌};
ghost use Rattle.arcs.specs.MinorArc as spec;

use jord::positions::NVector;
use vectors::vec3::Vec3;

// The shortest path from one position to another on their great circle.
#[derive(Clone, Copy)]
pub struct MinorArc {
    pub start: NVector,
    pub end: NVector,
    pub normal: Vec3,
}

impl MinorArc {
    // The minor arc from start to end; an arbitrary one where the two are equal or opposite.
    pub fn new(start: NVector, end: NVector) -> Self
        ensures { result ≡ spec.new start end }
    {
        let normal = start.as_vec3().orthogonal_to(end.as_vec3());
        MinorArc { start, end, normal }
    }

    // Where the minor arc begins.
    pub fn start(self) -> NVector
        ensures { result ≡ spec.start self }
    {
        self.start
    }

    // Where the minor arc ends.
    pub fn end(self) -> NVector
        ensures { result ≡ spec.end self }
    {
        self.end
    }

    // The vector normal to the plane of the minor arc's great circle.
    pub fn normal(self) -> Vec3
        ensures { result ≡ spec.normal self }
    {
        self.normal
    }
}
