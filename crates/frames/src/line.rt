// The lines of a piece: where one ends, whether it is digits alone, and what is kept of one that has begun.
ghost use Rattle.std.specs.List.{position};
ghost use Rattle.std.specs.Prelude.{◌≡◌, ◌==◌, ◌+◌, ◌≤◌, length};
ghost use Rattle.frames.specs.Whole.{newline};
ghost use Rattle.frames.specs.Line as spec;

use wire::frame::MOST_FRAME_DIGITS;
use wire::kind::Kind;

// How many bytes of a line are kept: one more than the longest frame has, so that a longer line is no frame.
pub const KEPT: usize = MOST_FRAME_DIGITS + 1;

// The byte that ends a line.
pub const NEWLINE: u8 = 10;

// The end of a line, and whether its bytes are digits alone. No `Option` of an end: a line that is not digits alone has an end as well, and is answered and passed over.
#[derive(Clone, Copy)]
pub struct LineSpan {
    pub end: usize,
    pub digits: bool,
}

// The place of the first newline of s, or its end.
pub(crate) fn end_of_line(s: &[u8]) -> usize
    ensures { spec.EndsAt s.now result }
{
    memchr::memchr(NEWLINE, s).unwrap_or(s.len())
}

// The length that the first line of s has if it is a frame, by the second digit of its kind. What it says is tested.
// 0 and no `Option` where that digit is of no kind: an empty line has this length, so the one test, that a newline stands there, serves for it as well.
fn likely_length(s: &[u8]) -> usize {
    s.get(1)
        .and_then(|digit| Kind::of_number(digit.wrapping_sub(b'0') as u64))
        .map_or(0, Kind::digits)
}

// The first line of s. Digits alone as far as a newline need no search for it.
pub(crate) fn line_at(s: &[u8]) -> LineSpan
    ensures { spec.SpansLine s.now result }
{
    let n = likely_length(s);
    if n < s.len() && s[n] == NEWLINE && hex_digits::all_digits(&s[..n]) {
        return LineSpan {
            end: n,
            digits: true,
        };
    }
    let end = end_of_line(s);
    LineSpan {
        end,
        digits: hex_digits::all_digits(&s[..end]),
    }
}

// How many bytes of a line are kept, where n were kept and `more` have come.
pub(crate) fn kept_of(n: usize, more: usize) -> usize
    requires { n ≤ spec.kept }
    ensures { result ≡ spec.least (n + more) }
{
    n + more.min(KEPT - n)
}

// The bytes that are kept of a line, where the first n of `line` were kept and `part` has come.
pub(crate) fn joined(line: [u8; KEPT], n: usize, part: &[u8]) -> [u8; KEPT]
    requires { n ≤ spec.kept }
    ensures { spec.Joined line n part.now result }
{
    let m = kept_of(n, part.len());
    let mut out = line;
    out[n..m].copy_from_slice(&part[..m - n]);
    out
}
