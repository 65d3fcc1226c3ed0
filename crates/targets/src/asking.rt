// What is asked of a board: nothing changes.
ghost use Rattle.std.specs.Prelude.{◌≡◌, fold, None};
ghost use Rattle.plain.specs.Asking as asked;
ghost use Rattle.plain.specs.Code.{plain};
ghost use Rattle.targets.specs.Asking as spec;

use crate::least;
use jord::positions::NVector;
use means::NoMean;
use means::lent::mean_position_of;
use plain::call::Refusal;
use plain::line::Line;
use plain::state::Board;
use plain::targets::{MOST_TARGETS, Target};
use std::{array, cmp};
use walks::Outcome;

// A target's identity and its found meeting time, in nanoseconds.
#[derive(Clone, Copy)]
struct Best {
    identity: u16,
    time: u64,
}

// The total of steps.
pub fn total(board: Board) -> u32
    ensures { result ≡ (plain board).total }
{
    board.total
}

// The mean position of all targets in rising identity.
pub fn mean(board: Board) -> Result<NVector, NoMean>
    ensures { result ≡ asked.mean (plain board) }
{
    let targets = board.targets;
    let entries = targets.entries;
    let ps: [NVector; MOST_TARGETS] = array::from_fn(|i| entries[i].held.report.position);
    mean_position_of(&ps[..least(targets.count)])
}

// The target of the lowest identity among those whose found meeting time is least; NoMeeting (19) where none has one.
pub fn pick(board: Board) -> Result<u16, Refusal>
    ensures { result ≡ asked.pick (plain board) }
{
    let targets = board.targets;
    let best = soonest(&targets.entries[..least(targets.count)]);
    best.map(|best| best.identity).ok_or(Refusal::NoMeeting)
}

// The least meeting time of these targets, and the first of them that has it.
// A `reduce` by the lesser of two, no `min_by_key` of the iterator: what that one ensures is no fold, and thirty lines of proof more would lie between.
fn soonest(targets: &[Target]) -> Option<Best>
    ensures { result ≡ fold spec.better None targets.now }
{
    targets.iter().filter_map(|t| met(*t)).reduce(
        |a, b|
            ensures { result ≡ spec.sooner_of a b }
        { cmp::min_by_key(a, b, |x| x.time) },
    )
}

// A target's identity and meeting time, where its line has one that was found.
fn met(t: Target) -> Option<Best>
    ensures { result ≡ spec.met t }
{
    match t.held.line {
        Some(
            Line {
                meeting: Outcome::Found { nanoseconds, .. },
                ..
            },
        ) => Some(Best {
            identity: t.identity,
            time: nanoseconds,
        }),
        _ => None,
    }
}
