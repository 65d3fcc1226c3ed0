// The frame that a line is.
ghost use Rattle.std.specs.Prelude.{◌≡◌, ◌+◌, ◌≤◌, Some, length};
ghost use Rattle.unhex.specs.Digits.{lows_in};
ghost use Rattle.wire.specs.Frame as spec;
ghost use Rattle.wire.specs.Known as known;

use crate::kind::Kind;
use plain::call::{Call, Coordinates, Fix};

// The digits of a frame of kind 00, a fresh board; REPORT has those of 01, OWN_SHIP those of 03.
pub const FRESH: usize = 18;

pub const REPORT: usize = 86;

pub const OWN_SHIP: usize = 82;

// The digits of a frame of kind 04, a track, the longest.
pub const MOST_FRAME_DIGITS: usize = 98;

// The digits of a frame of kind 02 or 05, which names a target alone.
pub const NAMED: usize = 6;

// The digits of a frame of kind 06, 07 or 08, which is its kind alone.
pub const ASKED: usize = 2;

// A frame by value.
#[derive(Clone, Copy)]
pub enum Frame {
    // Starts a fresh board of this radius.
    Fresh(f64),
    // A call of the board.
    Told(Call),
    Mean,
    Pick,
    Total,
}

// The float of the first 16 digits of s, 0 where s ends before; every NaN pattern is a NaN.
fn float(s: &[u8]) -> f64
    ensures { result ≡ spec.float_at lows_in s.now 0 }
{
    patterns::from_bits(hex_digits::sixteen_at(s, 0))
}

// The identity in the first 4 digits of s.
fn identity(s: &[u8]) -> u16
    requires { 4 ≤ length s.now }
    ensures { result ≡ lows_in s.now 0 4 }
{
    (hex_digits::two_at(s, 0) * 256 + hex_digits::two_at(s, 2)) as u16
}

// The position in the first 48 digits of s.
fn coordinates(s: &[u8]) -> Coordinates
    requires { 48 ≤ length s.now }
    ensures { result ≡ spec.coordinates_at lows_in s.now 0 }
{
    Coordinates {
        x: float(s),
        y: float(&s[16..]),
        z: float(&s[32..]),
    }
}

// The position, bearing and speed in the first 80 digits of s.
fn fix(s: &[u8]) -> Fix
    requires { 80 ≤ length s.now }
    ensures { result ≡ spec.fix_at lows_in s.now 0 }
{
    let position = coordinates(s);
    Fix {
        position,
        bearing: float(&s[48..]),
        speed: float(&s[64..]),
    }
}

// The frame that a line of a kind is, where it has as many digits as the kind.
fn of_kind(kind: Kind, s: &[u8]) -> Option<Frame>
    ensures { result ≡ spec.of_kind lows_in (Some kind) s.now }
{
    if s.len() != kind.digits() {
        return None;
    }
    Some(match kind {
        Kind::Fresh => Frame::Fresh(float(&s[2..])),
        Kind::Report => Frame::Told(Call::Report(identity(&s[2..]), fix(&s[6..]))),
        Kind::Withdraw => Frame::Told(Call::Withdraw(identity(&s[2..]))),
        Kind::OwnShip => Frame::Told(Call::OwnShip(fix(&s[2..]))),
        Kind::Track => Frame::Told(Call::Track(coordinates(&s[2..]), coordinates(&s[50..]))),
        Kind::Solve => Frame::Told(Call::Solve(identity(&s[2..]))),
        Kind::Mean => Frame::Mean,
        Kind::Pick => Frame::Pick,
        Kind::Total => Frame::Total,
    })
}

// The frame that a line without its newline is, told by `digits` whether it is digits alone. Of a line that is not, and is said to be, bytes count by their low bits.
// It takes `digits` beside the line and no `Option` of a line: `frame_known` says what comes of any line by what is told of it, true or not, so the two stand apart.
pub fn read_known(s: &[u8], digits: bool) -> Option<Frame>
    ensures value { result ≡ known.frame_known digits s.now }
    ensures unchanged { s.exit.now ≡ s.entry.now }
{
    // No kind is that short: an empty line, the shortest of all, need not be looked at.
    if !digits || s.len() < ASKED {
        return None;
    }
    of_kind(Kind::of_number(hex_digits::two_at(s, 0))?, s)
}

// The frame that a line without its newline is.
pub fn read(s: &[u8]) -> Option<Frame>
    ensures value { result ≡ spec.frame_of s.now }
    ensures unchanged { s.exit.now ≡ s.entry.now }
{
    if s.len() > MOST_FRAME_DIGITS {
        return None;
    }
    read_known(s, hex_digits::all_digits(s))
}
