// Degrees and radians.
ghost use Rattle.std.specs.Prelude.{◌≡◌};
ghost use Rattle.float.specs.Degrees as spec;

// Radians of an angle in degrees.
pub fn to_radians(degrees: f64) -> f64
    ensures { result ≡ spec.to_radians degrees }
{
    degrees.to_radians()
}

// Degrees of an angle in radians.
pub fn to_degrees(radians: f64) -> f64
    ensures { result ≡ spec.to_degrees radians }
{
    radians.to_degrees()
}
