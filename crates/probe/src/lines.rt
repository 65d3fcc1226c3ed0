// The input cut into lines, in whatever pieces it comes.
use crate::call;
use arrayvec::ArrayVec;
use probe_fields::page::Page;
use std::io;
use std::io::Write;

// What is kept of a line: a call with all the arguments that there is room for, and one byte more, so that a longer line is no call.
const KEPT: usize = call::MOST_LINE_BYTES + 1;

// Room for the answer to a last line that no newline ends.
const LAST_PAGE: usize = 4_096;

// More than any answer takes.
const ANSWER: usize = 1024;

// The first bytes of a line that has begun.
pub(crate) type Line = ArrayVec<u8, KEPT>;

// Answers each line that ends in xs. The page goes out whenever an answer might not fit, and at the end.
// Byte by byte, for a line may be cut between pieces and its first KEPT bytes are all that is kept: of parts by `split` the last would have to be told
// from the others, as it ends no line, and each would have to be cut to the room that is left.
pub(crate) fn pour<W: Write>(
    out: &mut W,
    line: &mut Line,
    xs: &[u8],
    page: &mut Page,
) -> io::Result<()> {
    for b in xs {
        if *b == b'\n' {
            if page.room() < ANSWER {
                out.write_all(page.written())?;
                page.truncate(0);
            }
            call::answer(line.as_slice(), page);
            line.clear();
        } else if line.len() < KEPT {
            line.push(*b);
        }
    }
    out.write_all(page.written())
}

// The answer to a last line that no newline ends.
pub(crate) fn finish<W: Write>(out: &mut W, line: &Line) -> io::Result<()> {
    if line.is_empty() {
        return Ok(());
    }
    let mut bytes = [0u8; LAST_PAGE];
    let mut page = Page::new(&mut bytes);
    call::answer(line.as_slice(), &mut page);
    out.write_all(page.written())
}
