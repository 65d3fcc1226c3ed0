// Vectors of three floats.
ghost use Rattle.std.specs.Prelude.{◌≡◌};
ghost use Rattle.vectors.specs.Vec3 as spec;

use patterns::magnitude;
use roots::sqrt;

// A vector; two are the same where each part is: the source's `==`.
#[derive(Clone, Copy, PartialEq)]
pub struct Vec3 {
    pub x: f64,
    pub y: f64,
    pub z: f64,
}

impl Vec3 {
    // The x axis.
    pub const UNIT_X: Vec3 = Vec3 {
        x: 1.0,
        y: 0.0,
        z: 0.0,
    };

    // The y axis.
    pub const UNIT_Y: Vec3 = Vec3 {
        x: 0.0,
        y: 1.0,
        z: 0.0,
    };

    // The z axis.
    pub const UNIT_Z: Vec3 = Vec3 {
        x: 0.0,
        y: 0.0,
        z: 1.0,
    };

    // Against the x axis.
    pub const NEG_UNIT_X: Vec3 = Vec3 {
        x: -1.0,
        y: 0.0,
        z: 0.0,
    };

    // Against the y axis.
    pub const NEG_UNIT_Y: Vec3 = Vec3 {
        x: 0.0,
        y: -1.0,
        z: 0.0,
    };

    // Against the z axis.
    pub const NEG_UNIT_Z: Vec3 = Vec3 {
        x: 0.0,
        y: 0.0,
        z: -1.0,
    };

    // The origin.
    pub const ZERO: Vec3 = Vec3 {
        x: 0.0,
        y: 0.0,
        z: 0.0,
    };

    // The vector of three parts, a part of -0.0 made +0.0.
    pub fn new(vx: f64, vy: f64, vz: f64) -> Self
        ensures { result ≡ spec.new vx vy vz }
    {
        Vec3 {
            x: 0.0 + vx,
            y: 0.0 + vy,
            z: 0.0 + vz,
        }
    }

    // The vector of length one along three parts; ZERO where their norm is zero.
    pub fn new_unit(vx: f64, vy: f64, vz: f64) -> Self
        ensures { result ≡ spec.new_unit vx vy vz }
    {
        let n = sqrt(vx * vx + vy * vy + vz * vz);
        if n == 0.0 {
            Vec3::ZERO
        } else {
            let s = 1.0 / n;
            Vec3::new(s * vx, s * vy, s * vz)
        }
    }

    // The part along the x axis.
    pub fn x(self) -> f64
        ensures { result ≡ spec.x self }
    {
        self.x
    }

    // The part along the y axis.
    pub fn y(self) -> f64
        ensures { result ≡ spec.y self }
    {
        self.y
    }

    // The part along the z axis.
    pub fn z(self) -> f64
        ensures { result ≡ spec.z self }
    {
        self.z
    }

    // The cross product; unstable for nearly parallel vectors.
    pub fn cross_prod(self, o: Vec3) -> Self
        ensures { result ≡ spec.cross_prod self o }
    {
        let p = self.crossed(o);
        Vec3::new(p.x, p.y, p.z)
    }

    // The cross product, made of length one.
    pub fn cross_prod_unit(self, o: Vec3) -> Self
        ensures { result ≡ spec.cross_prod_unit self o }
    {
        let p = self.crossed(o);
        Vec3::new_unit(p.x, p.y, p.z)
    }

    // The parts of the cross product, one of -0.0 kept.
    fn crossed(self, o: Vec3) -> Self
        ensures { result ≡ spec.crossed spec.parts self o }
    {
        Vec3 {
            x: self.y * o.z - self.z * o.y,
            y: self.z * o.x - self.x * o.z,
            z: self.x * o.y - self.y * o.x,
        }
    }

    // The dot product.
    pub fn dot_prod(self, o: Vec3) -> f64
        ensures { result ≡ spec.dot_prod self o }
    {
        self.x * o.x + self.y * o.y + self.z * o.z
    }

    // A unit vector at right angles to both, also where the two are equal or opposite.
    pub fn orthogonal_to(self, o: Vec3) -> Self
        ensures { result ≡ spec.orthogonal_to self o }
    {
        let r = self.stable_cross_prod_unit(o);
        if r == Vec3::ZERO {
            self.orthogonal()
        } else {
            r
        }
    }

    // A unit vector at right angles to this one.
    pub fn orthogonal(self) -> Self
        ensures { result ≡ spec.orthogonal self }
    {
        self.cross_prod_unit(self.axis())
    }

    // The axis that `orthogonal` crosses with: z where x is the largest part, x where y is, else y.
    fn axis(self) -> Self
        ensures { result ≡ spec.axis self }
    {
        let ax = magnitude(self.x);
        let ay = magnitude(self.y);
        let az = magnitude(self.z);
        if ax > ay {
            if ax > az { Vec3::UNIT_Z } else { Vec3::UNIT_Y }
        } else if ay > az {
            Vec3::UNIT_X
        } else {
            Vec3::UNIT_Y
        }
    }

    // The length.
    pub fn norm(self) -> f64
        ensures { result ≡ spec.norm self }
    {
        sqrt(self.squared_norm())
    }

    // The stable cross product, made of length one. Beside `stable_cross_prod` as in the source: one over what is made of two vectors would be no shorter.
    pub fn stable_cross_prod_unit(self, o: Vec3) -> Self
        ensures { result ≡ spec.stable_cross_prod_unit self o }
    {
        let a = self.sums(o);
        let b = self.differences(o);
        a.cross_prod_unit(b)
    }

    // (o + self) x (o - self), twice the cross product, and stable where the two are nearly parallel.
    pub fn stable_cross_prod(self, o: Vec3) -> Self
        ensures { result ≡ spec.stable_cross_prod self o }
    {
        let a = self.sums(o);
        let b = self.differences(o);
        a.cross_prod(b)
    }

    // o + self, a part of -0.0 kept: `add`, the source's, makes it 0.0, by `Vec3::new`. So `differences` beside `sub`.
    pub fn sums(self, o: Vec3) -> Self
        ensures { result ≡ spec.sums self o }
    {
        Vec3 {
            x: o.x + self.x,
            y: o.y + self.y,
            z: o.z + self.z,
        }
    }

    // o - self, a part of -0.0 kept.
    fn differences(self, o: Vec3) -> Self
        ensures { result ≡ spec.differences self o }
    {
        Vec3 {
            x: o.x - self.x,
            y: o.y - self.y,
            z: o.z - self.z,
        }
    }

    // The length squared.
    pub fn squared_norm(self) -> f64
        ensures { result ≡ spec.squared_norm self }
    {
        self.dot_prod(self)
    }

    // This vector made of length one; ZERO where its norm is zero.
    pub fn unit(self) -> Self
        ensures { result ≡ spec.unit self }
    {
        Vec3::new_unit(self.x, self.y, self.z)
    }

    // The sum: the source's `Vec3 + Vec3`.
    pub fn add(self, rhs: Vec3) -> Self
        ensures { result ≡ spec.add self rhs }
    {
        Vec3::new(self.x + rhs.x, self.y + rhs.y, self.z + rhs.z)
    }

    // The difference: the source's `Vec3 - Vec3`.
    pub fn sub(self, rhs: Vec3) -> Self
        ensures { result ≡ spec.sub self rhs }
    {
        Vec3::new(self.x - rhs.x, self.y - rhs.y, self.z - rhs.z)
    }

    // The vector times a number: the source's `Vec3 * f64` and `f64 * Vec3`.
    pub fn mul(self, rhs: f64) -> Self
        ensures { result ≡ spec.mul self rhs }
    {
        Vec3::new(self.x * rhs, self.y * rhs, self.z * rhs)
    }

    // The vector over a number: the source's `Vec3 / f64`.
    pub fn div(self, rhs: f64) -> Self
        ensures { result ≡ spec.div self rhs }
    {
        Vec3::new(self.x / rhs, self.y / rhs, self.z / rhs)
    }

    // The opposite vector: the source's `-Vec3`.
    pub fn neg(self) -> Self
        ensures { result ≡ spec.neg self }
    {
        Vec3::new(-self.x, -self.y, -self.z)
    }
}
