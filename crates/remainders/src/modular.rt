// A number shifted up, modulo another, over words of 64 bits.
ghost use Rattle.std.specs.Prelude.{◌≡◌, ◌*◌, ◌/◌, ◌%◌, ◌^◌, ◌<◌, ◌≤◌};

// 2^52, which is the least number of 53 bits too.
use patterns::FIELD;
use patterns::words::high_product;

// Added to a number of 53 bits: the pattern of the number * 2^-52.
const SCALE: u64 = 0x3fe0_0000_0000_0000;

// What is divided: digits * 2^shift.
#[derive(Clone, Copy)]
pub(crate) struct Shifted {
    pub digits: u64,
    pub shift: u64,
    ghost digits_fit: { digits < 2 ^ 53 },
    ghost shift_fits: { shift < 2 ^ 53 },
}

// A divisor of 53 bits.
#[derive(Clone, Copy)]
struct Modulus {
    m: u64,
    ghost leads: { 2 ^ 52 ≤ m },
    ghost fits: { m < 2 ^ 53 },
}

// A divisor with its inverse, for Barrett's reduction.
#[derive(Clone, Copy)]
struct Barrett {
    by: Modulus,
    inverse: u64,
    ghost inverted: { inverse ≡ 2 ^ 107 / by.m },
}

impl Modulus {
    // 2^107 / m by long division, eleven bits a step: the first 52 give no digit.
    fn inverse(self) -> u64
        requires { 2 ^ 52 < self.m }
        ensures { result ≡ 2 ^ 107 / self.m }
    {
        let mut quotient = 0;
        let mut rest = FIELD;
        // The count has a name, for the invariant goes by it.
        for _i in 0..5u64 {
            quotient = quotient * 2048 + rest * 2048 / self.m;
            rest = rest * 2048 % self.m;
        }
        quotient
    }

    // x modulo m, where x holds m at most once.
    fn less_once(self, x: u64) -> u64
        requires { x < 2 * self.m }
        ensures { result ≡ x % self.m }
    {
        // With `checked_sub` and `unwrap_or`, proved too, a remainder of exponents 53 apart takes 1.3 of the time.
        if x >= self.m { x - self.m } else { x }
    }

    // x modulo m, where x holds m at most twice.
    fn less_twice(self, x: u64) -> u64
        requires { x < 3 * self.m }
        ensures { result ≡ x % self.m }
    {
        if x >= 2 * self.m {
            return x - 2 * self.m;
        }
        self.less_once(x)
    }

    // From 1 to 2, with a fraction just below a / m, where a is what m leaves of the digits. Nothing rests on how near.
    #[tactic(auto, using(patterns::proofs::Pattern::no_nan))]
    fn float_quotient(self, digits: u64) -> f64
        requires { digits < 2 ^ 53 }
    {
        let lowered = if digits < self.m {
            0.9999999999999998
        } else {
            -0.0000000000000002
        };
        f64::from_bits(SCALE + digits) / f64::from_bits(SCALE + self.m) + lowered
    }
}

impl Barrett {
    // a * b modulo m: the quotient that the inverse gives is at most two short.
    fn product_rem(self, a: u64, b: u64) -> u64
        requires { (a < 2 ^ 54) × (b < 2 ^ 53) }
        ensures { result ≡ a * b % self.by.m }
    {
        let quotient = high_product(high_product(a << 10, b << 11), self.inverse);
        let product = a.wrapping_mul(b);
        self.by
            .less_twice(product.wrapping_sub(quotient.wrapping_mul(self.by.m)))
    }

    // 2^k modulo m: the six leading bits of k at once, and a squaring for each bit below.
    fn power_rem(self, k: u64) -> u64
        requires { (64 ≤ k) × (k < 2 ^ 53) }
        ensures { result ≡ 2 ^ k % self.by.m }
    {
        let left = 58 - k.leading_zeros();
        let mut power = (1 << (k >> left)) % self.by.m;
        for i in (0..left).rev() {
            power = self.product_rem(power << ((k >> i) % 2), power);
        }
        power
    }
}

impl Shifted {
    // For a short shift: eleven bits a step, since m leaves eleven of 64 free.
    fn near_rem(self, m: u64) -> u64
        requires { (0 < m) × (m < 2 ^ 53) }
        ensures { result ≡ self.digits * 2 ^ self.shift % m }
    {
        let mut rest = self.digits;
        let mut left = self.shift;
        // A `for` would count its steps by a division first: a sine then takes 1.7 of the time.
        while left > 11 {
            rest = rest * 2048 % m;
            left -= 11;
        }
        (rest << left) % m
    }

    // For a middling shift: the float quotient at once, if what it leaves, told by the low words and the high, is below 2 m.
    fn leap_rem(self, by: Modulus) -> u64
        requires { (43 ≤ self.shift) × (self.shift ≤ 52) }
        ensures { result ≡ self.digits * 2 ^ self.shift % by.m }
    {
        let k = self.shift;
        let a = by.less_once(self.digits);
        let d = by.float_quotient(self.digits);
        if !d.is_nan() {
            let quotient = f64::to_bits(d) % FIELD >> (52 - k);
            let low = (a << k).wrapping_sub(quotient.wrapping_mul(by.m));
            let high = (a << (k - 43)).wrapping_sub(high_product(quotient << 10, by.m << 11));
            if low < 2 * by.m && high < 0x2000 {
                return by.less_once(low);
            }
        }
        self.near_rem(by.m)
    }

    // For a long shift. By a power of two nothing is left.
    fn far_rem(self, by: Modulus) -> u64
        requires { 64 ≤ self.shift }
        ensures { result ≡ self.digits * 2 ^ self.shift % by.m }
    {
        if by.m == FIELD {
            return 0;
        }
        let barrett = Barrett {
            by,
            inverse: by.inverse(),
        };
        barrett.product_rem(self.digits, barrett.power_rem(self.shift))
    }

    // For any but a short shift: by one leap, by a leap and a step, by steps, and then by the power.
    fn leading_rem(self, by: Modulus) -> u64
        requires { 43 ≤ self.shift }
        ensures { result ≡ self.digits * 2 ^ self.shift % by.m }
    {
        match self.shift {
            ..=52 => self.leap_rem(by),
            53..=63 => {
                let leapt = Shifted {
                    digits: self.digits,
                    shift: 52,
                };
                (leapt.leap_rem(by) << (self.shift - 52)) % by.m
            }
            64..=87 => self.near_rem(by.m),
            _ => self.far_rem(by),
        }
    }

    // By any m. Up to four steps are quickest; past them a short m is first shifted up with the dividend.
    pub(crate) fn rem(self, m: u64) -> u64
        requires { (self.shift < 2 ^ 52) × (0 < m) × (m < 2 ^ 53) }
        ensures { result ≡ self.digits * 2 ^ self.shift % m }
    {
        if self.shift < 45 {
            return self.near_rem(m);
        }
        if m >= FIELD {
            return self.leading_rem(Modulus { m });
        }
        let room = m.leading_zeros() - 11;
        let raised = Shifted {
            digits: self.digits,
            shift: self.shift + u64::from(room),
        };
        raised.leading_rem(Modulus { m: m << room }) >> room
    }
}
