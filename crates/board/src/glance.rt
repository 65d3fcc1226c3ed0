// What a call makes of a board, told from all but the entries of its targets where that is enough. The entries are long: who holds them
// in place need not hand them over for a report.
ghost use Rattle.std.specs.Prelude.{◌≡◌, map, Some};
ghost use Rattle.board.specs.Glance as spec;

use crate::board::{own_after, track_after};
use jord::vehicle::Vehicle;
use plain::call::{Answer, Call, Fix, Refusal};
use plain::line::Ends;
use plain::state::Board;
use plain::targets::{Held, MOST_TARGETS, Target, Targets};
use questions::call::vehicle;
use questions::{ends_asked, fix_asked, identity_asked};
use targets::{Named, seek_first};

// All of a board but the entries of its targets.
// A board has these parts itself, for they are the plain board's: within a setting each would be named one step deeper, in every definition.
#[derive(Clone, Copy)]
pub struct Setting {
    pub radius: f64,
    pub own: Option<Vehicle>,
    pub track: Option<Ends>,
    // Beside the targets or identities that are lent with a setting, no slice in it: who holds both keeps a setting next to what the slice would lend.
    pub count: usize,
    pub total: u32,
}

// What a glance tells of a call.
#[derive(Clone, Copy)]
pub enum Hint {
    // The call has this answer, and the board stays as it was.
    Stays(Answer),
    // The call is done, and this target takes the place of entry p.
    Puts(usize, Target),
    // The call is done, every line is taken away, and this is the setting after it.
    Sweeps(Setting),
}

// The setting of a board.
pub fn setting_of(board: Board) -> Setting
    ensures { result ≡ spec.setting_of board }
{
    let own = board.own;
    let track = board.track;
    let targets = board.targets;
    Setting {
        radius: board.radius,
        own,
        track,
        count: targets.count,
        total: board.total,
    }
}

// The board of a setting and entries.
pub fn board_of(setting: Setting, entries: [Target; MOST_TARGETS]) -> Board
    ensures { result ≡ spec.board_of setting entries }
{
    let own = setting.own;
    let track = setting.track;
    let targets = Targets {
        entries,
        count: setting.count,
    };
    Board {
        radius: setting.radius,
        own,
        track,
        targets,
        total: setting.total,
    }
}

// What a call makes of every board of this setting whose targets have the identities of these; none where the entries have to be looked at.
// Setting and identities stay two parameters: a report needs the count alone, and a look and its calls have a setting or none beside the identities.
pub fn glance<T: Named>(setting: Setting, among: &[T], call: Call) -> Option<Hint>
    ensures value { result ≡ spec.glance setting (map T.name among.now) call }
    ensures unchanged { among.exit.now ≡ among.entry.now }
{
    match call {
        Call::Report(identity, fix) => at_report(setting.count, among, identity, fix),
        Call::OwnShip(fix) => Some(at_setting(setting, call, fix_asked(fix))),
        Call::Track(start, end) => Some(at_setting(setting, call, ends_asked(start, end))),
        Call::Withdraw(_) | Call::Solve(_) => None,
    }
}

// A report of an identity that is held takes its place.
fn at_report<T: Named>(count: usize, among: &[T], identity: u16, fix: Fix) -> Option<Hint>
    ensures { result ≡ spec.at_report count (map T.name among.now) identity fix }
{
    if let Err(refusal) = report_asked(identity, fix) {
        return Some(Hint::Stays(Err(refusal)));
    }
    let p = seek_first(among, count, identity).ok()?;
    let held = Held {
        report: vehicle(fix),
        line: None,
    };
    Some(Hint::Puts(p, Target { identity, held }))
}

// The questions of a report whose target is held.
fn report_asked(identity: u16, fix: Fix) -> Result<(), Refusal>
    ensures { result ≡ spec.report_asked identity fix }
{
    identity_asked(identity)?;
    fix_asked(fix)
}

// An own ship or a track of which this is said: one that is accepted takes every line away.
fn at_setting(setting: Setting, call: Call, said: Result<(), Refusal>) -> Hint
    ensures { Some result ≡ spec.at_setting setting call said }
{
    match said {
        Ok(()) => Hint::Sweeps(Setting {
            own: own_after(call, setting.own),
            track: track_after(call, setting.track),
            ..setting
        }),
        Err(refusal) => Hint::Stays(Err(refusal)),
    }
}
