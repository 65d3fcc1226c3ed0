// The fields of each kind of result.
ghost use Rattle.probe_fields.specs.Fields as fields;

use crate::page::{Fields, Page};
use arcs::Side;
use arcs::minor_arc::MinorArc;
use duration::OutOfRange;
use float::trig::SinCos;
use jord::angle::Angle;
use jord::length::Length;
use jord::positions::{LatLong, NVector};
use jord::speed::Speed;
use jord::vehicle::Vehicle;
use means::NoMean;
use spherical::interpolated::Outside;
use vectors::mat33::Mat33;
use vectors::vec3::Vec3;
use walks::Outcome;

// 64 bits.
impl Fields for u64 {
    ghost pieces = { fields.word };

    #[tactic(auto, unfolding(crate::specs::Page::put_all))]
    fn put(self, page: &mut Page<'_>) {
        page.put_digits(self, 16);
    }
}

// A float by its bits.
impl Fields for f64 {
    ghost pieces = { fields.float };

    fn put(self, page: &mut Page<'_>) {
        page.put(patterns::to_bits(self));
    }
}

// A number of one byte, two digits.
impl Fields for u8 {
    ghost pieces = { fields.byte };

    #[tactic(auto, unfolding(crate::specs::Page::put_all))]
    fn put(self, page: &mut Page<'_>) {
        page.put_digits(u64::from(self), 2);
    }
}

// 01 for true, 00 for false.
impl Fields for bool {
    ghost pieces = { fields.bool };

    fn put(self, page: &mut Page<'_>) {
        page.put(u8::from(self));
    }
}

// Two results with a space between.
impl<A: Fields, B: Fields> Fields for (A, B) {
    ghost pieces = { λ p. fields.spaced (A.pieces p.0) (B.pieces p.1) };

    #[tactic(auto, using(crate::proofs::Written::put_all_spaced))]
    fn put(self, page: &mut Page<'_>) {
        let (first, second) = self;
        page.put(first);
        page.put_byte(b' ');
        page.put(second);
    }
}

// Three results.
impl<A: Fields, B: Fields, C: Fields> Fields for (A, B, C) {
    ghost pieces = { λ p. fields.spaced (fields.spaced (A.pieces p.0) (B.pieces p.1)) (C.pieces p.2) };

    #[tactic(auto, using(crate::proofs::Written::put_all_spaced))]
    fn put(self, page: &mut Page<'_>) {
        let (first, second, third) = self;
        page.put((first, second));
        page.put_byte(b' ');
        page.put(third);
    }
}

// 00 and the result, or the fields of the reason why there is none.
impl<T: Fields, E: Fields> Fields for Result<T, E> {
    ghost pieces = { fields.result T.pieces E.pieces };

    fn put(self, page: &mut Page<'_>) {
        match self {
            Ok(result) => page.put((0u8, result)),
            Err(why) => page.put(why),
        }
    }
}

// In radians.
impl Fields for Angle {
    ghost pieces = { fields.angle };

    fn put(self, page: &mut Page<'_>) {
        page.put(self.as_radians());
    }
}

// In metres.
impl Fields for Length {
    ghost pieces = { fields.length };

    fn put(self, page: &mut Page<'_>) {
        page.put(self.as_metres());
    }
}

// In metres a second.
impl Fields for Speed {
    ghost pieces = { fields.speed };

    fn put(self, page: &mut Page<'_>) {
        page.put(self.as_metres_per_second());
    }
}

impl Fields for Vec3 {
    ghost pieces = { fields.vec3 };

    fn put(self, page: &mut Page<'_>) {
        page.put((self.x(), self.y(), self.z()));
    }
}

impl Fields for NVector {
    ghost pieces = { fields.nvector };

    fn put(self, page: &mut Page<'_>) {
        page.put(self.as_vec3());
    }
}

// Row by row.
impl Fields for Mat33 {
    ghost pieces = { fields.mat33 };

    fn put(self, page: &mut Page<'_>) {
        page.put((self.row0(), self.row1(), self.row2()));
    }
}

impl Fields for LatLong {
    ghost pieces = { fields.lat_long };

    fn put(self, page: &mut Page<'_>) {
        page.put((self.latitude(), self.longitude()));
    }
}

impl Fields for Vehicle {
    ghost pieces = { fields.vehicle };

    fn put(self, page: &mut Page<'_>) {
        page.put((self.position(), self.bearing(), self.speed()));
    }
}

impl Fields for MinorArc {
    ghost pieces = { fields.minor_arc };

    fn put(self, page: &mut Page<'_>) {
        page.put((self.start(), self.end(), self.normal()));
    }
}

impl Fields for SinCos {
    ghost pieces = { fields.sin_cos };

    fn put(self, page: &mut Page<'_>) {
        page.put((self.sin, self.cos));
    }
}

// 00 Left, 01 Right, 02 Collinear.
impl Fields for Side {
    ghost pieces = { fields.side };

    fn put(self, page: &mut Page<'_>) {
        page.put(self as u8);
    }
}

// The number, the nanoseconds and the count of an outcome.
impl Fields for Outcome {
    ghost pieces = { fields.outcome };

    #[tactic(auto, using(crate::proofs::Written::put_all_spaced), unfolding(crate::specs::Page::put_all))]
    fn put(self, page: &mut Page<'_>) {
        page.put((self.number(), self.nanoseconds()));
        page.put_byte(b' ');
        page.put_digits(u64::from(self.count()), 2);
    }
}

// The number of the refusal.
impl Fields for OutOfRange {
    ghost pieces = { fields.out_of_range };

    fn put(self, page: &mut Page<'_>) {
        page.put(self.number());
    }
}

impl Fields for NoMean {
    ghost pieces = { fields.no_mean };

    fn put(self, page: &mut Page<'_>) {
        page.put(self.number());
    }
}

impl Fields for Outside {
    ghost pieces = { fields.outside };

    fn put(self, page: &mut Page<'_>) {
        page.put(self.number());
    }
}
