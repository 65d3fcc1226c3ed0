// Makes one call of a board many times, the board by value, and prints a digest of what came of it. Time is taken from outside.
#![tactic(auto)]

mod inputs;
mod turns;

ghost use Rattle.std.specs.Prelude.{◌≤◌, length};

use std::io::Read;
use turns::Call;

// The digits of a line: two for the call, eight for how many times; then a newline.
const CALL: usize = 2;

const COUNT: usize = 8;

const LINE: usize = CALL + COUNT + 1;

// Room for all that is read.
const TEXT: usize = 4096;

// The digest of a line.
fn answer<P: Print>(out: &P, line: &[u8]) {
    let call = Call::from(hex_digits::number_at(line, 0, CALL));
    let count = hex_digits::number_at(line, CALL, COUNT);
    let digest = turns::digest(turns::turns(turns::full(), call, count));
    let _ = println!(out; "{digest:016x}");
}

// Reads until the text is full, the input ends or a read fails. How many bytes came?
fn read_full<R: Read>(input: &mut R, text: &mut [u8]) -> usize
    ensures { result ≤ length text.new }
{
    let mut done = 0;
    while done < text.len() {
        let got = input.read(&mut text[done..]).unwrap_or(0);
        if got == 0 {
            break;
        }
        done += got;
    }
    done
}

// Answers the whole lines. All is read before the first digest is written: an output that is the input's own file is not read back.
fn main(rt: HostRuntime) {
    let mut text = [0u8; TEXT];
    let n = read_full(&mut rt.stdin(), &mut text);
    for line in text[..n].chunks_exact(LINE) {
        answer(&rt.stdout(), line);
    }
}
