// How a program goes on after a read, and what it says on standard error.
#![tactic(auto)]

ghost use Rattle.std.specs.Prelude.{◌≡◌, ◌≤◌, false, true, IsOk, OnOk, length, ltb};
ghost use Rattle.std.specs.Io.KnownBytes.{Appends, Keeps};
ghost use Rattle.console.specs.Way.{way_of, is_fault, is_told, words_of, SaysLine};

use std::io;
use std::io::Write;

// Why a program ended before its input did. A call that failed has left its error.
#[derive(Clone, Copy)]
pub enum Failure {
    Reading(io::Error),
    Writing(io::Error),
    // It had as many turns as it takes, and there may be more to read.
    Unfinished,
}

// What a read came to: so many bytes, or none where the input has ended; or it failed.
pub fn way_of(got: io::Result<usize>) -> Result<Option<usize>, Failure>
    ensures { result ≡ way_of got }
{
    let n = got.map_err(Failure::Reading)?;
    Ok((n > 0).then_some(n))
}

// Says in a line of the program's own words which failed, the reading or the writing, and why.
// Of a write that is no fault nothing is said. A line that cannot be written is lost.
pub fn tell<W: Write>(err: &mut W, way: Result<(), Failure>, reading: &[u8], writing: &[u8])
    ensures unchanged { (reading.exit.now ≡ reading.entry.now) × (writing.exit.now ≡ writing.entry.now) }
    ensures silent { is_told way ≡ false → Keeps (W.contents err.old) (W.contents err.new) }
{
    let _ = say(err, way, reading, writing);
}

// The line, or nothing, and whether it could be written.
fn say<W: Write>(
    err: &mut W,
    way: Result<(), Failure>,
    reading: &[u8],
    writing: &[u8],
) -> io::Result<()>
    ensures said { is_told way ≡ true → OnOk result (SaysLine (words_of way reading.now writing.now) (W.contents err.old) (W.contents err.new)) }
    ensures silent { is_told way ≡ false → IsOk result × Keeps (W.contents err.old) (W.contents err.new) }
{
    match way {
        Ok(()) | Err(Failure::Unfinished) => Ok(()),
        Err(Failure::Reading(error)) => fail(err, reading, error),
        Err(Failure::Writing(error)) => {
            let told = error.raw_os_error().is_none_or(is_fault);
            if told {
                return fail(err, writing, error);
            }
            Ok(())
        }
    }
}

// What the system calls a write to a pipe that nobody reads any more.
const EPIPE: i32 = 32;

// Is a failed write with this errno a fault? An output that nobody reads any more is none.
// By the errno, which `is_told` speaks of, not by std's `ErrorKind`: std ties the two of an error that `from_raw_os_error` makes, and of none that is at hand.
// To make one here and ask its kind would be no plainer than to compare two numbers.
pub fn is_fault(error: i32) -> bool
    ensures { result ≡ is_fault error }
{
    error != EPIPE
}

// Was a program started with an argument? Its own name is the first of these.
pub fn has_argument(words: usize) -> bool
    ensures { result ≡ ltb 1 words }
{
    1 < words
}

// Says the usage where the program was started with an argument, for none takes one. Did it? A usage that cannot be written is lost.
pub fn usage_said<W: Write>(err: &mut W, words: usize, usage: &[u8]) -> bool
    ensures said { result ≡ ltb 1 words }
    ensures unchanged { usage.exit.now ≡ usage.entry.now }
    ensures silent { result ≡ false → Keeps (W.contents err.old) (W.contents err.new) }
{
    if has_argument(words) {
        let _ = say_usage(err, usage);
        return true;
    }
    false
}

// The usage, and whether it could be written.
fn say_usage<W: Write>(err: &mut W, usage: &[u8]) -> io::Result<()>
    ensures { OnOk result (Appends (W.contents err.old) (W.contents err.new) usage.now) }
{
    err.write_all(usage)
}

// Room for what the system says of an error, and for its number.
const TEXT: usize = 256;

// A line: what failed, as the program names it, and the system's word for why.
fn fail<W: Write>(err: &mut W, what: &[u8], error: io::Error) -> io::Result<()>
    ensures { OnOk result (SaysLine what.now (W.contents err.old) (W.contents err.new)) }
{
    let mut text = [0u8; TEXT];
    let n = put_error(error, &mut text);
    err.write_all(what)?;
    err.write_all(b": ")?;
    err.write_all(word(&text[..n]))?;
    err.write_all(b"\n")
}

// The error's text, over the room from its start on, and the place past it.
fn put_error(error: io::Error, text: &mut [u8]) -> usize
    ensures { result ≤ length text.new }
{
    let all = text.len();
    let mut room: &mut [u8] = text;
    let _ = write!(room, "{error}");
    all.saturating_sub(room.len())
}

// The text without the number that std puts after the system's word.
fn word(text: &[u8]) -> &[u8] {
    let Ok(all) = std::str::from_utf8(text) else {
        return text;
    };
    all.split_once(" (os error ")
        .map_or(text, |(word, _)| word.as_bytes())
}
