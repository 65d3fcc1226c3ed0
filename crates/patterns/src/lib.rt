// Sign bit, magnitude, bit pattern and parts of a float.
#![tactic(auto)]

ghost use Rattle.std.specs.Prelude.{◌≡◌, ◌^◌, ◌<◌, from_bits, to_bits};
ghost use Rattle.std.specs.Float.{binary64};
ghost use Rattle.patterns.specs.Bits as spec;

// The high word of a product of two words, for remainders.
pub mod words;

// The weight of the sign bit in a pattern.
pub const SIGN: u64 = 0x8000_0000_0000_0000;

// The pattern of +infinity.
pub const INFINITY: u64 = 0x7ff0_0000_0000_0000;

// The pattern that stands for every NaN.
pub const NAN: u64 = 0x7ff8_0000_0000_0000;

// The weight of the exponent's field in a pattern.
pub const FIELD: u64 = 0x10_0000_0000_0000;

// A magnitude as a whole number of units of 2^-1074: digits * 2^place.
#[derive(Clone, Copy)]
pub struct Unpacked {
    pub digits: u64,
    pub place: u64,
    pub ghost digits_fit: { digits < 2 ^ 53 },
    pub ghost place_fits: { place < 2047 },
}

// The bits of x; a NaN gives 7ff8000000000000.
pub fn to_bits(x: f64) -> u64
    ensures { result ≡ to_bits binary64 x }
{
    if x.is_nan() {
        return NAN;
    }
    f64::to_bits(x)
}

// The float of any 64 bits; every NaN pattern gives a NaN.
pub fn from_bits(bits: u64) -> f64
    ensures { result ≡ from_bits binary64 bits }
{
    if bits % SIGN > INFINITY {
        return f64::NAN;
    }
    f64::from_bits(bits)
}

// Whether x has its sign bit set; a NaN has none.
pub fn sign_bit(x: f64) -> bool
    ensures { result ≡ spec.sign_bit x }
{
    if x.is_nan() {
        return false;
    }
    x.is_sign_negative()
}

// x without its sign bit.
pub fn magnitude(x: f64) -> f64
    ensures { result ≡ spec.magnitude x }
{
    if x.is_nan() {
        return x;
    }
    // By its pattern: with `abs`, proved too, a sine takes 1.6 of the time and a cosine twice.
    f64::from_bits(f64::to_bits(x) % SIGN)
}

// The significand, its leading digit included, and the place of a pattern's magnitude.
pub fn unpack(bits: u64) -> Unpacked
    ensures digits { result.digits ≡ spec.digits bits }
    ensures place { result.place ≡ spec.place bits }
{
    let field = bits % SIGN / FIELD;
    let low = bits % FIELD;
    if field == 0 {
        return Unpacked {
            digits: low,
            place: 0,
        };
    }
    Unpacked {
        digits: low + FIELD,
        place: field - 1,
    }
}
