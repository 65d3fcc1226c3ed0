// The float ground, beside the language's own operators and what its library has: sines, arcs and degrees stand here, the rest in crates of its own.
#![tactic(auto)]

pub mod degrees;
pub mod trig;

pub mod bits {
    pub use patterns::{
        FIELD, INFINITY, NAN, SIGN, Unpacked, from_bits, magnitude, sign_bit, to_bits, unpack,
    };
}

pub mod remainder {
    pub use remainders::rem;
}

pub mod root {
    pub use roots::sqrt;
}
