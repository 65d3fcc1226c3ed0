// 3 by 3 matrices, held by rows.
ghost use Rattle.std.specs.Prelude.{◌≡◌};
ghost use Rattle.vectors.specs.Mat33 as spec;

use crate::vec3::Vec3;

// A 3 by 3 matrix. Three named rows: in an array they would be rows[0], rows[1], rows[2], for `row0` to `row2` and `transpose` take each by its place.
#[derive(Clone, Copy)]
pub struct Mat33 {
    pub r0: Vec3,
    pub r1: Vec3,
    pub r2: Vec3,
}

impl Mat33 {
    // The identity matrix.
    pub const IDENTITY: Mat33 = Mat33 {
        r0: Vec3::UNIT_X,
        r1: Vec3::UNIT_Y,
        r2: Vec3::UNIT_Z,
    };

    // The matrix of three rows.
    pub fn new(r0: Vec3, r1: Vec3, r2: Vec3) -> Self
        ensures { result ≡ spec.new r0 r1 r2 }
    {
        Mat33 { r0, r1, r2 }
    }

    // The first row.
    pub fn row0(self) -> Vec3
        ensures { result ≡ spec.row0 self }
    {
        self.r0
    }

    // The second row.
    pub fn row1(self) -> Vec3
        ensures { result ≡ spec.row1 self }
    {
        self.r1
    }

    // The third row.
    pub fn row2(self) -> Vec3
        ensures { result ≡ spec.row2 self }
    {
        self.r2
    }

    // The matrix whose rows are this one's columns.
    pub fn transpose(self) -> Self
        ensures { result ≡ spec.transpose self }
    {
        Mat33::new(
            Vec3::new(self.r0.x, self.r1.x, self.r2.x),
            Vec3::new(self.r0.y, self.r1.y, self.r2.y),
            Vec3::new(self.r0.z, self.r1.z, self.r2.z),
        )
    }

    // The dot products of v with the rows of rhs: the source's `Vec3 * Mat33`.
    pub fn vec3_mul(v: Vec3, rhs: Mat33) -> Vec3
        ensures { result ≡ spec.vec3_mul v rhs }
    {
        let x = v.dot_prod(rhs.r0);
        let y = v.dot_prod(rhs.r1);
        let z = v.dot_prod(rhs.r2);
        Vec3::new(x, y, z)
    }

    // The product of two matrices: the source's `Mat33 * Mat33`.
    pub fn mul(self, rhs: Mat33) -> Self
        ensures { result ≡ spec.mul self rhs }
    {
        let t2 = rhs.transpose();
        let mr0 = Mat33::vec3_mul(self.r0, t2);
        let mr1 = Mat33::vec3_mul(self.r1, t2);
        let mr2 = Mat33::vec3_mul(self.r2, t2);
        Mat33::new(mr0, mr1, mr2)
    }
}
