// The arguments of a call, read one after another from the digits of its line.
ghost use Rattle.std.specs.Prelude.{◌≡◌, ◌==◌, length};
ghost use Rattle.probe_fields.specs.Args as spec;

use jord::angle::Angle;
use jord::length::Length;
use jord::positions::NVector;
use jord::speed::Speed;
use jord::vehicle::Vehicle;
use vectors::mat33::Mat33;
use vectors::vec3::Vec3;

// A call has this many arguments at most.
pub const ARGUMENTS: usize = 18;

// The digits of an argument.
pub const DIGITS: usize = 16;

// The bytes of an argument: a space, and its digits.
pub const FIELD: usize = 1 + DIGITS;

// The fields of the arguments, and the place of the next.
// A place, not a slice of what is left: that is empty both at the end and past it, and `is_spent` has to tell a call with too few arguments.
#[derive(Drop)]
pub struct Args<'a> {
    fields: &'a [u8],
    at: usize,
}

impl<'a> Args<'a> {
    pub fn new(fields: &'a [u8]) -> Args<'a>
        ensures fields { result.fields.now ≡ fields.now }
        ensures place { result.at ≡ 0 }
    {
        Args { fields, at: 0 }
    }

    // Was each argument taken, and none past the last?
    pub fn is_spent(&self) -> bool
        ensures { result ≡ (self.now.at == length self.now.fields.now) }
    {
        self.at == self.fields.len()
    }

    // How many arguments are left.
    pub fn left(&self) -> usize
        ensures { result ≡ spec.left self.now }
    {
        self.fields.len().saturating_sub(self.at) / FIELD
    }

    // Takes all that are left.
    pub fn pass_rest(&mut self)
        ensures { self.new ≡ spec.pass_rest self.old }
    {
        self.at = self.fields.len();
    }

    // A whole number, and zero past the last argument.
    pub fn whole(&mut self) -> u64
        ensures value { result ≡ spec.whole self.old }
        ensures place { self.new ≡ spec.pass self.old }
    {
        let digits = self.at.saturating_add(1);
        self.at = self.at.saturating_add(FIELD);
        hex_digits::sixteen_at(self.fields, digits)
    }

    // A float by its bits.
    pub fn float(&mut self) -> f64
        ensures value { result ≡ spec.float self.old }
        ensures place { self.new ≡ spec.pass self.old }
    {
        patterns::from_bits(self.whole())
    }

    // An angle in radians.
    pub fn angle(&mut self) -> Angle
        ensures value { result ≡ spec.angle self.old }
        ensures place { self.new ≡ spec.pass self.old }
    {
        Angle::from_radians(self.float())
    }

    // A length in metres.
    pub fn length(&mut self) -> Length
        ensures value { result ≡ spec.length_of self.old }
        ensures place { self.new ≡ spec.pass self.old }
    {
        Length::from_metres(self.float())
    }

    // A speed in metres a second.
    pub fn speed(&mut self) -> Speed
        ensures value { result ≡ spec.speed self.old }
        ensures place { self.new ≡ spec.pass self.old }
    {
        Speed::from_metres_per_second(self.float())
    }

    // The three parts of a vector.
    pub fn vec3(&mut self) -> Vec3
        ensures value { result ≡ spec.vec3 self.old }
        ensures place { self.new ≡ spec.pass3 self.old }
    {
        Vec3::new(self.float(), self.float(), self.float())
    }

    // The three rows of a matrix.
    pub fn mat33(&mut self) -> Mat33
        ensures value { result ≡ spec.mat33 self.old }
        ensures place { self.new ≡ spec.pass3 (spec.pass3 (spec.pass3 self.old)) }
    {
        Mat33::new(self.vec3(), self.vec3(), self.vec3())
    }

    pub fn nvector(&mut self) -> NVector
        ensures value { result ≡ spec.nvector self.old }
        ensures place { self.new ≡ spec.pass3 self.old }
    {
        NVector::new(self.vec3())
    }

    // Position, bearing and speed.
    pub fn vehicle(&mut self) -> Vehicle
        ensures value { result ≡ spec.vehicle self.old }
        ensures place { self.new ≡ spec.pass (spec.pass (spec.pass3 self.old)) }
    {
        Vehicle::new(self.nvector(), self.angle(), self.speed())
    }
}
