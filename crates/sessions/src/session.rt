// A session: a board or none yet, and what a frame makes of it.
ghost use Rattle.std.specs.Prelude.{◌≡◌, None, Some};
ghost use Rattle.sessions.specs.Printed as printed;
ghost use Rattle.sessions.specs.Session as spec;

use board::board::{fresh, hear};
use jord::positions::NVector;
use means::NoMean;
use plain::call::{Answer, Call, Refusal};
use plain::state::{Answered, Board};
use targets::asking::{mean, pick, total};
use wire::frame::Frame;
use wire::kind::Kind;
use wire::reply::{Reason, Reply};

// A board, where one has been started.
#[derive(Clone, Copy)]
pub struct Session {
    pub board: Option<Board>,
}

// A session beside what it answered.
#[derive(Clone, Copy)]
pub struct Stepped {
    pub session: Session,
    pub reply: Reply,
}

// A session with no board yet.
pub fn begin() -> Session
    ensures { spec.plain_of result ≡ None }
{
    Session { board: None }
}

// The kind of a call.
pub fn kind_of(call: Call) -> Kind
    ensures { result ≡ spec.kind_of call }
{
    match call {
        Call::Report(_, _) => Kind::Report,
        Call::Withdraw(_) => Kind::Withdraw,
        Call::OwnShip(_) => Kind::OwnShip,
        Call::Track(_, _) => Kind::Track,
        Call::Solve(_) => Kind::Solve,
    }
}

// The reply to a call of this kind, from the board's answer.
pub fn told<K: Copy>(kind: K, answer: Answer) -> Reply<K>
    ensures value { result ≡ spec.told kind answer }
    ensures printed { printed.CallPrinted answer result }
{
    match answer {
        Ok(None) => Reply::Done(kind),
        Ok(Some(line)) => Reply::Solved(line),
        Err(refusal) => Reply::Refused(kind, Reason::Refusal(refusal)),
    }
}

// The session and the reply after a frame that starts a board: a fresh one if the radius is accepted, else what was there.
fn start(s: Session, radius: f64) -> Stepped
    ensures { spec.Stepping s (Some (Frame.Fresh radius)) result }
{
    let made = fresh(radius);
    let answer = made.answer;
    let reply = told(Kind::Fresh, answer);
    let session = Session {
        board: Some(made.board),
    };
    match answer {
        Ok(_) => Stepped { session, reply },
        Err(_) => Stepped { session: s, reply },
    }
}

// The session and the reply after a call of the board, ff01 where none has been started.
fn tell(s: Session, call: Call) -> Stepped
    ensures { spec.Stepping s (Some (Frame.Told call)) result }
{
    match s.board {
        Some(held) => {
            let Answered { board, answer } = hear(held, call);
            let session = Session { board: Some(board) };
            let reply = told(kind_of(call), answer);
            Stepped { session, reply }
        }
        None => Stepped {
            session: s,
            reply: Reply::NotAFrame,
        },
    }
}

// The reply to a mean. `pick_told` stands beside it: one function for both would take the kind, the answer's reply and the reason's variant, which is all that either arm holds.
#[tactic(auto, using(crate::proofs::Printed::of_mean), unfolding(crate::specs::Session::mean_told))]
fn mean_told(m: Result<NVector, NoMean>) -> Reply
    ensures value { result ≡ spec.mean_told m }
    ensures printed { printed.MeanPrinted m result }
{
    match m {
        Ok(p) => Reply::Mean(p.as_vec3()),
        Err(e) => Reply::Refused(Kind::Mean, Reason::NoMean(e)),
    }
}

// The reply to a pick.
fn pick_told(choice: Result<u16, Refusal>) -> Reply
    ensures value { result ≡ spec.pick_told choice }
    ensures printed { printed.PickPrinted choice result }
{
    match choice {
        Ok(identity) => Reply::Pick(identity),
        Err(refusal) => Reply::Refused(Kind::Pick, Reason::Refusal(refusal)),
    }
}

// The session as it was, and what is asked of its board, ff01 where none has been started.
fn asked<A: FnOnce(Board) -> Reply>(s: Session, ask: A) -> Stepped
    requires { A.IsAlwaysCallable ask }
    ensures { spec.Asked s (A.post ask) result }
{
    Stepped {
        session: s,
        reply: s.board.map_or(Reply::NotAFrame, ask),
    }
}

// What a line makes of a session, and its reply: the frame that it is, if it is one.
pub fn step(s: Session, frame: Option<Frame>) -> Stepped
    ensures { spec.Stepping s frame result }
{
    match frame {
        Some(Frame::Fresh(radius)) => start(s, radius),
        Some(Frame::Told(call)) => tell(s, call),
        Some(Frame::Mean) => asked(s, |board| mean_told(mean(board))),
        Some(Frame::Pick) => asked(s, |board| pick_told(pick(board))),
        Some(Frame::Total) => asked(s, |board| Reply::Total(total(board))),
        None => Stepped {
            session: s,
            reply: Reply::NotAFrame,
        },
    }
}
