// Reads frames on standard input and writes the reply to each on standard output, until the input ends or a read or a write fails.
#![tactic(auto)]

ghost use Rattle.std.specs.Prelude.{◌≡◌, ◌-◌, ◌^◌, ◌≤◌, false, Err, IfErr, IfSome, OnOk, length, take};
ghost use Rattle.std.specs.Io.KnownBytes.{Appends, Keeps};
ghost use Rattle.console.specs.Way.{way_of};
ghost use Rattle.frames.specs.Stream.{end_text, fed_text, room, view};
ghost use Rattle.frames.specs.Whole.{replies};
ghost use Rattle.plot.specs.Turn.{count_of, goes_on, turned, Poured, Turning, Unwritten};

use console::Failure;
use frames::stream::Stream;
use std::env::FillError;
use std::io;
use std::io::{Read, Write};
use std::rt::Env;

// How much is read at once. A larger piece than a pipe holds: a stream is handed on by value with each.
const PIECE: usize = 262_144;

// How much is written at once, and the room for the reply to a last line that no newline ends.
const PAGE: usize = 65_536;

const LAST_PAGE: usize = 4_096;

// Answers a piece of the input, page by page, and writes each page at once. The stream is lent, for a board is long.
fn pour<W: Write>(out: &mut W, s: &mut Stream, xs: &[u8], page: &mut [u8]) -> Result<(), Failure>
    requires { room ≤ length page.old }
    ensures poured { Poured s.old xs.now (turned s.new result) }
    ensures written { OnOk result (Appends (W.contents out.old) (W.contents out.new) (fed_text (view s.old) xs.now)) }
{
    let mut rest = xs;
    // No `chunks`: each turn takes as much of the rest as `feed` uses, by its lines and the page.
    while !rest.is_empty() {
        let fed = frames::stream::feed(*s, rest, page);
        *s = fed.stream;
        rest = &rest[fed.used..];
        out.write_all(&page[..fed.next]).map_err(Failure::Writing)?;
    }
    Ok(())
}

// The answer to a read that gave so many bytes, or failed: how many came, or none where the input has ended. Unless some came the stream stays.
fn answer<W: Write>(
    out: &mut W,
    s: &mut Stream,
    got: io::Result<usize>,
    piece: &[u8],
    page: &mut [u8],
) -> Result<Option<usize>, Failure>
    requires { room ≤ length page.old }
    ensures turning { Turning s.old got piece.now s.new result }
    ensures written { OnOk result (Appends (W.contents out.old) (W.contents out.new) (fed_text (view s.old) (take (count_of got (length piece.now)) piece.now))) }
    ensures silent { goes_on (way_of got) ≡ false → Keeps (W.contents out.old) (W.contents out.new) }
{
    let Some(n) = console::way_of(got)? else {
        return Ok(None);
    };
    let came = n.min(piece.len());
    pour(out, s, &piece[..came], page)?;
    Ok(Some(n))
}

// The end of the input: the reply to a line that has begun.
fn last<W: Write>(out: &mut W, s: Stream) -> Result<(), Failure>
    ensures failed { IfErr result Unwritten }
    ensures written { OnOk result (Appends (W.contents out.old) (W.contents out.new) (end_text (view s))) }
{
    let mut page = [0u8; LAST_PAGE];
    let n = frames::stream::finish(s, &mut page);
    out.write_all(&page[..n]).map_err(Failure::Writing)
}

// Answers the whole input, unless reading or writing fails. Each turn takes a byte at least, so 2^64 - 1 turns are more than any input has.
fn run<R: Read, W: Write>(input: &mut R, out: &mut W) -> Result<(), Failure>
    ensures answered { OnOk result (IfSome (R.remaining input.old) (λ xs. Appends (W.contents out.old) (W.contents out.new) (replies xs))) }
    ensures unfinished { result ≡ Err Failure.Unfinished → IfSome (R.remaining input.old) (λ xs. 2 ^ 64 - 1 ≤ length xs) }
{
    let mut stream = frames::stream::begin();
    let mut piece = [0u8; PIECE];
    let mut page = [0u8; PAGE];
    for _ in 0..u64::MAX {
        let got = input.read(&mut piece);
        let Some(_) = answer(out, &mut stream, got, &piece, &mut page)? else {
            return last(out, stream);
        };
    }
    Err(Failure::Unfinished)
}

// How many words was the program started with? Its own name is the first. With the host's runtime it rests on this one call; with any runtime it would rest on all.
fn words(rt: &HostRuntime) -> usize {
    let mut first = [0u8; 1];
    (0..usize::MAX)
        .find(|i| matches!(rt.arg(*i, &mut first), Err(FillError::NotPresent)))
        .unwrap_or(usize::MAX)
}

// With any argument it says how it is used, and reads nothing.
fn main(rt: HostRuntime) {
    let usage =
        b"usage: plot < FRAMES > REPLIES    (a plotting board: one reply a frame, each a line)\n\
        A frame is a line of lowercase hexadecimal digits, its kind first: 0041584dae33333333 begins a board.\n\
        README.md has the kinds of frames, how to read a reply and what to do about each number.\n";
    let mut err = rt.stderr();
    if console::usage_said(&mut err, words(&rt), usage) {
        return;
    }
    let way = run(&mut rt.stdin(), &mut rt.stdout());
    console::tell(
        &mut err,
        way,
        b"plot: reading standard input failed",
        b"plot: writing standard output failed",
    );
}
