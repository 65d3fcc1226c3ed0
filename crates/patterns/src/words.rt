// The high word of a product of two words of 64 bits.
ghost use Rattle.std.specs.Prelude.{◌≡◌, ◌*◌, ◌/◌, ◌^◌};

// The high word of a * b; the low one is `a.wrapping_mul(b)`.
pub fn high_product(a: u64, b: u64) -> u64
    ensures { result ≡ a * b / 2 ^ 64 }
{
    a.carrying_mul(b, 0).1
}
