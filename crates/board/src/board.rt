// The calls of a board. The board goes in by value and comes back beside the answer.
ghost use Rattle.std.specs.Prelude.{◌≡◌, ◌≤◌};
ghost use Rattle.plain.specs.Board as spec;
ghost use Rattle.board.specs.Change as code;
ghost use Rattle.plain.specs.Code.{plain, Answers, Demanded};
ghost use Rattle.plain.specs.Targets.{at_most, most_targets};

use crate::glance::{Setting, board_of, setting_of};
use jord::vehicle::Vehicle;
use plain::call::{Answer, Call, Coordinates, Fix};
use plain::line::Ends;
use plain::state::{Answered, Board};
use plain::targets::{Held, Target};
use questions::call::{ends, vehicle};
use questions::line::{raise, solve_line};
use questions::{ends_asked, fix_asked, held_asked, identity_asked, radius_asked, room_asked, see};
use targets::{Change, bared, closed, empty, inserted, least, seek};

// A fresh board: only the radius. Refused where the radius is not finite and above zero.
pub fn fresh(radius: f64) -> Answered
    ensures { (result.answer ≡ spec.begins radius) × (plain result.board ≡ spec.fresh radius) × Demanded radius result.board }
{
    let board = Board {
        radius,
        own: None,
        track: None,
        targets: empty(),
        total: 0,
    };
    Answered {
        board,
        answer: radius_asked(radius).and(Ok(None)),
    }
}

// Places or replaces a target, without a line.
pub fn report(board: Board, identity: u16, fix: Fix) -> Answered
    ensures { Answers board (Call.Report identity fix) result }
{
    hear(board, Call::Report(identity, fix))
}

// Removes a target.
pub fn withdraw(board: Board, identity: u16) -> Answered
    ensures { Answers board (Call.Withdraw identity) result }
{
    hear(board, Call::Withdraw(identity))
}

// Sets the own ship and takes every line away.
pub fn own_ship(board: Board, fix: Fix) -> Answered
    ensures { Answers board (Call.OwnShip fix) result }
{
    hear(board, Call::OwnShip(fix))
}

// Sets the track and takes every line away.
pub fn track(board: Board, start: Coordinates, end: Coordinates) -> Answered
    ensures { Answers board (Call.Track start end) result }
{
    hear(board, Call::Track(start, end))
}

// Makes, stores and returns a target's line, and adds its three counts to the total.
pub fn solve(board: Board, identity: u16) -> Answered
    ensures { Answers board (Call.Solve identity) result }
{
    hear(board, Call::Solve(identity))
}

// Any call: its answer, and the board after it. A refused call changes nothing.
// The entries are long: one that is stored takes its place among them, and the rest stay where they are.
pub fn hear(board: Board, call: Call) -> Answered
    ensures { Answers board call result }
{
    let setting = setting_of(board);
    let targets = board.targets;
    let mut entries = targets.entries;
    let n = least(targets.count);
    let spot = seek(&entries[..n], name_of(call));
    let found = spot.ok().map(|p| entries[p].held);
    let answer = answer_of(setting, found, call);
    if answer.is_err() {
        return Answered { board, answer };
    }
    let change = change_of(call, answer, spot, found);
    match change {
        None => {}
        Some(Change::Stores(p, t)) => entries[p] = t,
        Some(Change::Inserts(p, t)) => entries = inserted(entries, p, t),
        Some(Change::Removes(p)) => entries = closed(entries, p),
        Some(Change::Sweeps) => entries = bared(entries),
    }
    let after = Setting {
        radius: setting.radius,
        own: own_after(call, setting.own),
        track: track_after(call, setting.track),
        count: count_after(change, n),
        total: total_after(answer, setting.total),
    };
    Answered {
        board: board_of(after, entries),
        answer,
    }
}

// The questions of a call in their order, put to a board of this setting where this is held under the identity that is named.
// The first no refuses it.
fn answer_of(setting: Setting, found: Option<Held>, call: Call) -> Answer
    ensures { result ≡ code.answer_by setting.radius setting.own setting.track found (at_most setting.count) call }
{
    match call {
        Call::Report(identity, fix) => {
            identity_asked(identity)?;
            fix_asked(fix)?;
            room_asked(found, least(setting.count))?;
            Ok(None)
        }
        Call::Withdraw(identity) => {
            identity_asked(identity)?;
            held_asked(found)?;
            Ok(None)
        }
        Call::OwnShip(fix) => {
            fix_asked(fix)?;
            Ok(None)
        }
        Call::Track(start, end) => {
            ends_asked(start, end)?;
            Ok(None)
        }
        Call::Solve(identity) => {
            identity_asked(identity)?;
            let scene = see(found, setting.own, setting.track)?;
            Ok(Some(solve_line(setting.radius, scene)))
        }
    }
}

// The identity that a call names, or 0.
// No `Option`: an own ship and a track look at nothing that is found, and for them `hear` would have to make up what a search for no identity gives.
fn name_of(call: Call) -> u16
    ensures { result ≡ code.name_of call }
{
    match call {
        Call::Report(identity, _) | Call::Withdraw(identity) | Call::Solve(identity) => identity,
        Call::OwnShip(_) | Call::Track(_, _) => 0,
    }
}

// The own ship after an accepted call.
pub fn own_after(call: Call, own: Option<Vehicle>) -> Option<Vehicle>
    ensures { result ≡ spec.own_after call own }
{
    match call {
        Call::OwnShip(fix) => Some(vehicle(fix)),
        _ => own,
    }
}

// The track after an accepted call.
pub fn track_after(call: Call, track: Option<Ends>) -> Option<Ends>
    ensures { result ≡ spec.track_after call track }
{
    match call {
        Call::Track(start, end) => Some(ends(start, end)),
        _ => track,
    }
}

// The total after an accepted call with this answer.
fn total_after(answer: Answer, total: u32) -> u32
    ensures { result ≡ spec.raised answer total }
{
    match answer {
        Ok(Some(line)) => raise(total, line),
        _ => total,
    }
}

// What an accepted call with this answer changes of the targets, where the identity that it names stands there and this is held under it.
fn change_of(
    call: Call,
    answer: Answer,
    spot: Result<usize, usize>,
    found: Option<Held>,
) -> Option<Change>
    ensures { code.RightChange call answer spot found result }
{
    match call {
        Call::Report(identity, fix) => {
            let held = Held {
                report: vehicle(fix),
                line: None,
            };
            Some(placing(spot, Target { identity, held }))
        }
        Call::Withdraw(_) => spot.ok().map(|p| Change::Removes(p)),
        Call::OwnShip(_) | Call::Track(_, _) => Some(Change::Sweeps),
        Call::Solve(identity) => found.map(|held| {
            let held = with_line(answer, held);
            placing(spot, Target { identity, held })
        }),
    }
}

// A target stored where its identity stands, or inserted where it belongs.
fn placing(spot: Result<usize, usize>, t: Target) -> Change
    ensures { result ≡ code.placing spot t }
{
    match spot {
        Ok(p) => Change::Stores(p, t),
        Err(p) => Change::Inserts(p, t),
    }
}

// How many targets stand after a change, where n stood.
fn count_after(change: Option<Change>, n: usize) -> usize
    requires { n ≤ most_targets }
    ensures { result ≡ code.count_after change n }
{
    match change {
        Some(Change::Inserts(_, _)) => n + 1,
        Some(Change::Removes(_)) => n.saturating_sub(1),
        None | Some(Change::Stores(_, _) | Change::Sweeps) => n,
    }
}

// What is held of a target with the line that the answer hands out.
fn with_line(answer: Answer, held: Held) -> Held
    ensures { result ≡ spec.with_line answer held }
{
    match answer {
        Ok(Some(line)) => Held {
            line: Some(line),
            ..held
        },
        _ => held,
    }
}
