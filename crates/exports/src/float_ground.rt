// The float ground.
ghost use Rattle.std.specs.Prelude.{◌≡◌};
ghost use Rattle.std.specs.Float.{binary64};
ghost use Rattle.std.specs.Float.Ieee.{of_bits, to_bits, rem};
ghost use Rattle.patterns.specs.Bits as bits;
ghost use Rattle.float.specs.Degrees as degrees;
ghost use Rattle.roots.specs.Root as root;
ghost use Rattle.float.specs.Trig as trig;

#[unsafe(no_mangle)]
pub extern "C" fn plot_to_bits(x: f64) -> u64
    ensures { result ≡ to_bits binary64 x }
{
    patterns::to_bits(x)
}

#[unsafe(no_mangle)]
pub extern "C" fn plot_from_bits(pattern: u64) -> f64
    ensures { result ≡ of_bits binary64 pattern }
{
    patterns::from_bits(pattern)
}

#[unsafe(no_mangle)]
pub extern "C" fn plot_sign_bit(x: f64) -> bool
    ensures { result ≡ bits.sign_bit x }
{
    patterns::sign_bit(x)
}

#[unsafe(no_mangle)]
pub extern "C" fn plot_magnitude(x: f64) -> f64
    ensures { result ≡ bits.magnitude x }
{
    patterns::magnitude(x)
}

#[unsafe(no_mangle)]
pub extern "C" fn plot_sqrt(x: f64) -> f64
    ensures { result ≡ root.sqrt x }
{
    roots::sqrt(x)
}

#[unsafe(no_mangle)]
pub extern "C" fn plot_rem(x: f64, y: f64) -> f64
    ensures { result ≡ rem binary64 x y }
{
    remainders::rem(x, y)
}

#[unsafe(no_mangle)]
pub extern "C" fn plot_sin(x: f64) -> f64
    ensures { result ≡ trig.sin x }
{
    float::trig::sin(x)
}

#[unsafe(no_mangle)]
pub extern "C" fn plot_cos(x: f64) -> f64
    ensures { result ≡ trig.cos x }
{
    float::trig::cos(x)
}

// Both of one angle, each stored in a number that is lent for it: two numbers, for no number is lent twice at once.
#[unsafe(no_mangle)]
pub extern "C" fn plot_sin_cos(x: f64, sin: &mut f64, cos: &mut f64)
    ensures { (sin.new ≡ trig.sin x) × (cos.new ≡ trig.cos x) }
{
    float::trig::sin_cos_into(x, sin, cos)
}

#[unsafe(no_mangle)]
pub extern "C" fn plot_atan2(y: f64, x: f64) -> f64
    ensures { result ≡ trig.atan2 y x }
{
    float::trig::atan2(y, x)
}

#[unsafe(no_mangle)]
pub extern "C" fn plot_to_radians(angle: f64) -> f64
    ensures { result ≡ degrees.to_radians angle }
{
    float::degrees::to_radians(angle)
}

#[unsafe(no_mangle)]
pub extern "C" fn plot_to_degrees(angle: f64) -> f64
    ensures { result ≡ degrees.to_degrees angle }
{
    float::degrees::to_degrees(angle)
}
