// Turns of one call, as a caller would write them. The board of a turn is the one that the turn before left.
use crate::inputs::{HELD, coordinates, fix, identity};
use board::board::{fresh, own_ship, report, solve, track, withdraw};
use jord::positions::NVector;
use means::NoMean;
use plain::call::Refusal;
use plain::line::Line;
use plain::state::{Answered, Board};
use targets::asking::{mean, pick, total};

// The earth's radius in metres.
const EARTH: f64 = 6371000.8;

// A call that leaves another board.
#[derive(Clone, Copy)]
pub enum Change {
    Fresh,
    Report,
    // A withdrawal, and a report after it.
    Renew,
    OwnShip,
    Track,
    Solve,
}

// A call that leaves the board as it was.
#[derive(Clone, Copy)]
pub enum Question {
    Mean,
    Pick,
    Total,
}

#[derive(Clone, Copy)]
pub enum Call {
    Changes(Change),
    Asks(Question),
}

// The call that a line's number names; each other number asks for the total too.
impl From<u64> for Call {
    fn from(number: u64) -> Call {
        match number {
            1 => Call::Changes(Change::Fresh),
            2 => Call::Changes(Change::Report),
            3 => Call::Changes(Change::Renew),
            4 => Call::Changes(Change::OwnShip),
            5 => Call::Changes(Change::Track),
            6 => Call::Changes(Change::Solve),
            7 => Call::Asks(Question::Mean),
            8 => Call::Asks(Question::Pick),
            _ => Call::Asks(Question::Total),
        }
    }
}

// A board after some turns, and the sum of what the turns answered.
#[derive(Clone, Copy)]
pub struct Run {
    pub board: Board,
    pub seen: u64,
}

// A board with an own ship, a track and 64 targets, each with a line.
pub(crate) fn full() -> Board {
    let steered = own_ship(fresh(EARTH).board, fix(HELD)).board;
    let tracked = track(steered, coordinates(0), coordinates(1)).board;
    let placed = turns(tracked, Call::Changes(Change::Report), HELD).board;
    turns(placed, Call::Changes(Change::Solve), HELD).board
}

// What came of a run: of its answers, and of its last board, to which a solve puts own ship and track too.
pub(crate) fn digest(run: Run) -> u64 {
    let Answered { board, answer } = solve(run.board, identity(0));
    run.seen
        .wrapping_add(answer.seen())
        .wrapping_add(u64::from(total(board)))
        .wrapping_add(mean(board).seen())
        .wrapping_add(pick(board).seen())
}

// What an answer, or a part of one, adds to the digest.
trait Seen {
    fn seen(self) -> u64;
}

// What is handed out, or the number of why nothing is.
impl<T: Seen, E: Seen> Seen for Result<T, E> {
    fn seen(self) -> u64 {
        match self {
            Ok(handed) => handed.seen(),
            Err(why) => why.seen(),
        }
    }
}

// 1 for a line, 0 for none.
impl Seen for Option<Line> {
    fn seen(self) -> u64 {
        u64::from(self.is_some())
    }
}

// The bits of the position's x.
impl Seen for NVector {
    fn seen(self) -> u64 {
        patterns::to_bits(self.as_vec3().x())
    }
}

// An identity.
impl Seen for u16 {
    fn seen(self) -> u64 {
        u64::from(self)
    }
}

impl Seen for Refusal {
    fn seen(self) -> u64 {
        u64::from(self.number())
    }
}

impl Seen for NoMean {
    fn seen(self) -> u64 {
        u64::from(self.number())
    }
}

// A call, so many times. It is chosen within the loop: a function for a turn would copy the board once more.
// A call that asks leaves the board as it was, so the radius, which none asks for, is set anew: each turn has a board of its own. The last has the earth's.
pub(crate) fn turns(start: Board, call: Call, count: u64) -> Run {
    let mut board = start;
    let mut seen: u64 = 0;
    for turn in 0..count {
        match call {
            Call::Changes(change) => {
                let a = match change {
                    Change::Fresh => fresh(board.radius + 1.0),
                    Change::Report => report(board, identity(turn), fix(turn)),
                    Change::Renew => renewed(board, turn),
                    Change::OwnShip => own_ship(board, fix(turn)),
                    Change::Track => track(board, coordinates(turn), coordinates(turn + 1)),
                    Change::Solve => solve(board, identity(turn)),
                };
                board = a.board;
                seen = seen.wrapping_add(a.answer.seen());
            }
            Call::Asks(question) => {
                let answer = match question {
                    Question::Mean => mean(board).seen(),
                    Question::Pick => pick(board).seen(),
                    Question::Total => u64::from(total(board)),
                };
                seen = seen.wrapping_add(answer);
                board.radius += 1.0;
            }
        }
    }
    board.radius = EARTH;
    Run { board, seen }
}

// A withdrawal, and a first report after it. The first refusal of the two is answered.
fn renewed(start: Board, turn: u64) -> Answered {
    let gone = withdraw(start, identity(turn));
    let back = report(gone.board, identity(turn), fix(turn));
    Answered {
        board: back.board,
        answer: gone.answer.and(back.answer),
    }
}
