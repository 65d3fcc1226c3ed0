// The digits of a reply, written into a lent part of a page.
ghost use Rattle.std.specs.Prelude.{◌≡◌, ◌+◌, ◌≤◌, length};
ghost use Rattle.hex_digits.specs.Hex.{digits};
ghost use Rattle.hex_digits.specs.Write.{Put, Wrote};
ghost use Rattle.wire.specs.Reply as spec;

use crate::kind::{Byte, Kind};
use means::NoMean;
use plain::call::Refusal;
use plain::line::Line;
use vectors::vec3::Vec3;
use walks::Outcome;

// The digits of the reply to a line that is no frame, or comes before a board.
const NOT_A_FRAME: u64 = 0xff01;

// The digits of the longest reply, a line's.
pub const MOST_REPLY_DIGITS: usize = 114;

// Why a frame is refused: a question was answered by no, or there is no mean.
#[derive(Clone, Copy)]
pub enum Reason {
    Refusal(Refusal),
    NoMean(NoMean),
}

impl Reason {
    // Document 01's number of the refusal.
    pub fn number(self) -> u8
        ensures { result ≡ spec.reason_number self }
    {
        match self {
            Reason::Refusal(refusal) => refusal.number(),
            Reason::NoMean(why) => why.number(),
        }
    }
}

impl Byte for Reason {
    ghost byte = { spec.reason_number };

    fn byte(self) -> u8 {
        self.number()
    }
}

// A reply by value: of a kind and a reason of document 01, or of what else has a byte.
#[derive(Clone, Copy)]
pub enum Reply<K = Kind, R = Reason> {
    // A kind that is done and hands out nothing.
    Done(K),
    // A kind, and why it is refused.
    Refused(K, R),
    Solved(Line),
    Mean(Vec3),
    Pick(u16),
    Total(u32),
    // `ff01`: document 01 has it as a reply like the others, so no `Option` of a reply.
    NotAFrame,
}

// The page and a place stay two parameters: `put`, which is public, is handed both, and `hex_digits::put_number`, in which each of these ends, takes both.

// The two digits of a byte.
fn put_byte<B: Byte>(out: &mut [u8], at: usize, b: B) -> usize
    requires { at + 2 ≤ length out.old }
    ensures { Wrote out.old at 2 (digits 2 (B.byte b)) out.new result }
{
    hex_digits::put_number(out, at, u64::from(b.byte()), 2)
}

// A kind, and a number, 00 for done, or why it is refused: four digits.
fn put_head<K: Byte, N: Byte>(out: &mut [u8], at: usize, kind: K, number: N) -> usize
    requires { at + 4 ≤ length out.old }
    ensures { Wrote out.old at 4 (spec.two (K.byte kind) (N.byte number)) out.new result }
{
    let next = put_byte(out, at, kind);
    put_byte(out, next, number)
}

// The 16 digits of a float's bits.
fn put_float(out: &mut [u8], at: usize, x: f64) -> usize
    requires { at + 16 ≤ length out.old }
    ensures { Wrote out.old at 16 (spec.float_digits x) out.new result }
{
    hex_digits::put_number(out, at, patterns::to_bits(x), 16)
}

// Number, nanoseconds and count of an outcome: 20 digits.
fn put_outcome(out: &mut [u8], at: usize, o: Outcome) -> usize
    requires { at + 20 ≤ length out.old }
    ensures { Wrote out.old at 20 (spec.outcome_digits o) out.new result }
{
    let time = put_byte(out, at, o.number());
    let count = hex_digits::put_number(out, time, o.nanoseconds(), 16);
    hex_digits::put_number(out, count, u64::from(o.count()), 2)
}

// The fields of a line: 110 digits.
fn put_line(out: &mut [u8], at: usize, line: Line) -> usize
    requires { at + 110 ≤ length out.old }
    ensures { Wrote out.old at 110 (spec.line_digits line) out.new result }
{
    let a = put_float(out, at, line.distance);
    let b = put_float(out, a, line.bearing);
    let c = put_byte(out, b, line.side);
    let d = put_float(out, c, line.offset);
    let e = put_outcome(out, d, line.closest);
    let f = put_outcome(out, e, line.meeting);
    put_outcome(out, f, line.longest)
}

// The three parts of a position: 48 digits.
fn put_position(out: &mut [u8], at: usize, p: Vec3) -> usize
    requires { at + 48 ≤ length out.old }
    ensures { Wrote out.old at 48 (spec.position_digits p) out.new result }
{
    let a = put_float(out, at, p.x);
    let b = put_float(out, a, p.y);
    put_float(out, b, p.z)
}

// How many digits a reply has.
pub fn size<K: Byte, R: Byte>(reply: Reply<K, R>) -> usize
    ensures { result ≡ length (spec.digits_by K.byte R.byte reply) }
{
    match reply {
        Reply::Done(_) | Reply::Refused(_, _) | Reply::NotAFrame => 4,
        Reply::Solved(_) => MOST_REPLY_DIGITS,
        Reply::Mean(_) => 52,
        Reply::Pick(_) => 8,
        Reply::Total(_) => 12,
    }
}

// Writes the digits of a reply over out from at on, and gives the place past them.
fn write<K: Byte, R: Byte>(out: &mut [u8], at: usize, reply: Reply<K, R>) -> usize
    requires { at + length (spec.digits_by K.byte R.byte reply) ≤ length out.old }
    ensures { Wrote out.old at (length (spec.digits_by K.byte R.byte reply)) (spec.digits_by K.byte R.byte reply) out.new result }
{
    match reply {
        Reply::Done(kind) => put_head(out, at, kind, 0u8),
        Reply::Refused(kind, why) => put_head(out, at, kind, why),
        Reply::Solved(line) => {
            let next = put_head(out, at, Kind::Solve, 0u8);
            put_line(out, next, line)
        }
        Reply::Mean(p) => {
            let next = put_head(out, at, Kind::Mean, 0u8);
            put_position(out, next, p)
        }
        Reply::Pick(identity) => {
            let next = put_head(out, at, Kind::Pick, 0u8);
            hex_digits::put_number(out, next, u64::from(identity), 4)
        }
        Reply::Total(total) => {
            let next = put_head(out, at, Kind::Total, 0u8);
            hex_digits::put_number(out, next, u64::from(total), 8)
        }
        Reply::NotAFrame => hex_digits::put_number(out, at, NOT_A_FRAME, 4),
    }
}

// The digits of a reply over out from at on, and the place past them; where they do not fit, nothing, and at.
pub fn put<K: Byte, R: Byte>(out: &mut [u8], at: usize, reply: Reply<K, R>) -> usize
    ensures { Put out.old at (spec.digits_by K.byte R.byte reply) out.new result }
{
    if at > out.len() || size(reply) > out.len() - at {
        return at;
    }
    write(out, at, reply)
}
