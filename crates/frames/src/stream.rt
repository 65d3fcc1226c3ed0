// A stream of bytes, answered line by line, in whatever pieces it comes.
ghost use Rattle.std.specs.Prelude.{◌≡◌, ◌+◌, ◌≤◌, length};
ghost use Rattle.sessions.specs.Quick.{session_of};
ghost use Rattle.frames.specs.Stream as spec;
ghost use Rattle.frames.specs.Turn as turn;

use crate::line::{KEPT, NEWLINE, end_of_line, joined, kept_of, line_at};
use board::glance::{Setting, board_of, setting_of};
use plain::targets::{MOST_TARGETS, Target};
use sessions::quick::{Quick, look};
use sessions::session::{Session, step};
use targets::{bared, empty};
use wire::frame::{read, read_known};
use wire::reply::{Reply, put};

// The room that any reply fits, its newline with it.
const ROOM: usize = wire::reply::MOST_REPLY_DIGITS + 1;

// The session, and the first n bytes of a line that has begun. Who holds a stream may copy it, and an `ArrayVec` is not `Copy`: so an array, with how much of it counts.
#[derive(Clone, Copy)]
pub struct Stream {
    pub session: Session,
    pub line: [u8; KEPT],
    pub n: usize,
}

// A session in its parts: all of its board but the entries, where it has one, and the entries of its targets.
// With no board the entries are an empty list's: `look` takes both parts as they stand, and an `Option` of the two would be taken apart at each line to change entries in place.
#[derive(Clone, Copy)]
struct InParts {
    setting: Option<Setting>,
    entries: [Target; MOST_TARGETS],
}

// The stream after a piece, how many bytes of it were used, and the place past what was written.
#[derive(Clone, Copy)]
pub struct Fed {
    pub stream: Stream,
    pub used: usize,
    pub next: usize,
}

// A stream of which nothing has come. What `feed` and `finish` write of it, joined, is the replies to the whole input, however it is cut.
pub fn begin() -> Stream
    ensures { (spec.view result ≡ spec.fresh) × spec.AnswersAll result }
{
    let session = sessions::session::begin();
    Stream {
        session,
        line: [0u8; KEPT],
        n: 0,
    }
}

// A reply and its newline over out from at on, and the place past them.
fn put_reply_line(out: &mut [u8], at: usize, reply: Reply) -> usize
    requires { at + spec.room ≤ length out.old }
    ensures { turn.PutReplyLine reply out.old at out.new result }
{
    let n = put(out, at, reply);
    out[n] = NEWLINE;
    n + 1
}

// A session in its parts. It is lent, and its board looked at where it lies, for a board is long.
#[inline(never)]
fn parts_of(session: &Session) -> InParts
    ensures { turn.PartsOf session.now result }
{
    match &session.board {
        Some(board) => {
            let targets = board.targets;
            let entries = targets.entries;
            InParts {
                setting: Some(setting_of(*board)),
                entries,
            }
        }
        None => {
            let targets = empty();
            let entries = targets.entries;
            InParts {
                setting: None,
                entries,
            }
        }
    }
}

// The session of a setting, if it has one, and entries.
#[inline(never)]
fn session_of(setting: Option<Setting>, entries: [Target; MOST_TARGETS]) -> Session
    ensures { result ≡ session_of setting entries }
{
    // By a match: a closure would hold the entries, and copy them once more.
    match setting {
        Some(s) => Session {
            board: Some(board_of(s, entries)),
        },
        None => Session { board: None },
    }
}

// Does what comes next wait: a line that does not end in the piece, or a reply that might not fit?
fn waits(end: usize, length: usize, left: usize) -> bool
    ensures { result ≡ turn.waits end length left }
{
    end >= length || left < ROOM
}

// Stream, piece and page stay three parameters, as `feed` is handed them: in a struct the page would be lent within a lent value, in each contract.

// Goes on with a line that has begun: answers it where it ends in the piece and any reply fits the page.
fn go_on(s: Stream, xs: &[u8], page: &mut [u8]) -> Fed
    ensures { turn.GoingOn s xs.now page.old page.new result }
{
    let session = s.session;
    let begun = s.line;
    let n = s.n.min(KEPT);
    let end = end_of_line(xs);
    let part = &xs[..end];
    let line = joined(begun, n, part);
    let m = kept_of(n, end);
    if waits(end, xs.len(), page.len()) {
        return Fed {
            stream: Stream {
                session,
                line,
                n: m,
            },
            used: end,
            next: 0,
        };
    }
    let stepped = step(session, read(&line[..m]));
    let next = put_reply_line(page, 0, stepped.reply);
    Fed {
        stream: Stream {
            session: stepped.session,
            line,
            n: 0,
        },
        used: end + 1,
        next,
    }
}

// Answers the whole lines of a piece that begins with one.
fn lines(s: Stream, xs: &[u8], page: &mut [u8]) -> Fed
    requires { s.n ≡ 0 }
    ensures { spec.Feeding s xs.now page.old page.new result }
{
    let mut parts = parts_of(&s.session);
    let mut next = 0;
    let mut rest = xs;
    // No `split_inclusive`: it searches each line for its newline, and `line_at` need not where a line is digits alone.
    while !rest.is_empty() {
        let span = line_at(rest);
        if waits(span.end, rest.len(), page.len() - next) {
            break;
        }
        let frame = read_known(&rest[..span.end], span.digits);
        let reply = match look(parts.setting, &parts.entries[..], frame) {
            Some(Quick::Stays(reply)) => reply,
            Some(Quick::Puts(kind, p, target)) => {
                parts.entries[p] = target;
                Reply::Done(kind)
            }
            Some(Quick::Sweeps(kind, after)) => {
                parts.setting = Some(after);
                parts.entries = bared(parts.entries);
                Reply::Done(kind)
            }
            None => {
                let stepped = step(session_of(parts.setting, parts.entries), frame);
                parts = parts_of(&stepped.session);
                stepped.reply
            }
        };
        next = put_reply_line(page, next, reply);
        rest = &rest[span.end + 1..];
    }
    let end = end_of_line(rest);
    let line = joined(s.line, 0, &rest[..end]);
    let n = kept_of(0, end);
    let session = session_of(parts.setting, parts.entries);
    let stream = Stream { session, line, n };
    let used = xs.len() - rest.len() + end;
    Fed { stream, used, next }
}

// Answers the whole lines of a piece, from the start of the page on, until the piece ends or a reply might not fit.
pub fn feed(s: Stream, xs: &[u8], page: &mut [u8]) -> Fed
    ensures feeding { spec.Feeding s xs.now page.old page.new result }
    ensures unchanged { xs.exit.now ≡ xs.entry.now }
{
    if s.n == 0 {
        return lines(s, xs, page);
    }
    let first = go_on(s, xs, page);
    if first.stream.n > 0 {
        return first;
    }
    let rest = lines(first.stream, &xs[first.used..], &mut page[first.next..]);
    Fed {
        stream: rest.stream,
        used: first.used + rest.used,
        next: first.next + rest.next,
    }
}

// At the end of the input: the reply to a line that has begun, and its length; nothing, and 0, in a page with less than the room for any.
pub fn finish(s: Stream, page: &mut [u8]) -> usize
    ensures { spec.Finishing s page.old page.new result }
{
    let n = s.n.min(KEPT);
    if n == 0 || page.len() < ROOM {
        return 0;
    }
    let stepped = step(s.session, read(&s.line[..n]));
    put_reply_line(page, 0, stepped.reply)
}
