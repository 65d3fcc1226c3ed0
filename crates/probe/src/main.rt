// Reads calls on standard input, one a line, and writes the answer to each on standard output, until the input ends or a write fails.
#![tactic(auto)]

mod call;
mod lines;

use lines::Line;
use probe_fields::page::Page;
use std::io::{Read, Write};

// How much is read at once, and written at most.
const PIECE: usize = 65_536;

// One read, and the answers to what came; at the end of the input, the last line's. A read that fails is the end. Does the next turn follow?
fn turn<R: Read, W: Write>(input: &mut R, out: &mut W, line: &mut Line) -> bool {
    let mut chunk = [0u8; PIECE];
    let n = input.read(&mut chunk).unwrap_or(0);
    if n == 0 {
        let _ = lines::finish(out, line);
        return false;
    }
    let mut bytes = [0u8; PIECE];
    let mut page = Page::new(&mut bytes);
    lines::pour(out, line, &chunk[..n], &mut page).is_ok()
}

// Each turn but the last takes a byte at least, so no input takes 2^64 - 1 of them.
fn main(rt: HostRuntime) {
    let mut input = rt.stdin();
    let mut out = rt.stdout();
    let mut line = Line::new();
    for _ in 0..u64::MAX {
        if !turn(&mut input, &mut out, &mut line) {
            return;
        }
    }
}
