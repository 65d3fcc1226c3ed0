// What a frame makes of a session, told from all but the entries of its targets where that is enough.
ghost use Rattle.std.specs.Prelude.{◌≡◌, map};
ghost use Rattle.sessions.specs.Quick as spec;

use crate::session::{kind_of, told};
use board::glance::{Hint, Setting, glance};
use plain::call::Call;
use plain::targets::Target;
use targets::Named;
use wire::frame::Frame;
use wire::kind::Kind;
use wire::reply::Reply;

// What a quick look tells of a frame.
// An enum of its own, not a reply or a hint beside its kind, as `Called(Kind, Hint)`: who reads that has an arm for a reply and one for an answer, and the session stays in both.
// Nor a `Hint` generic in its answer and a kind: a board's hint has no kind, so two of its arms would hold a `()`, in board's definitions too, and `at_call` keeps its three arms.
#[derive(Clone, Copy)]
pub enum Quick {
    // The reply, and the session stays as it was.
    Stays(Reply),
    // The call of this kind is done, and this target takes the place of entry p.
    Puts(Kind, usize, Target),
    // The call of this kind is done, every line is taken away, and this is the board's setting.
    Sweeps(Kind, Setting),
}

// What a line makes of every session of this setting whose targets have the identities of these, where the entries need not be looked at.
pub fn look<T: Named>(setting: Option<Setting>, among: &[T], frame: Option<Frame>) -> Option<Quick>
    ensures value { result ≡ spec.look setting (map T.name among.now) frame }
    ensures unchanged { among.exit.now ≡ among.entry.now }
{
    let Some(asked) = frame else {
        return Some(Quick::Stays(Reply::NotAFrame));
    };
    match asked {
        Frame::Fresh(_) | Frame::Mean | Frame::Pick => None,
        Frame::Told(call) => at_call(setting, among, call),
        Frame::Total => Some(Quick::Stays(total_reply(setting))),
    }
}

// The reply to a frame that asks for the total, ff01 where no board has been started.
fn total_reply(setting: Option<Setting>) -> Reply
    ensures { result ≡ spec.total_reply setting }
{
    setting.map_or(Reply::NotAFrame, |s| Reply::Total(s.total))
}

// What a call makes of every session of this setting whose targets have the identities of these.
fn at_call<T: Named>(setting: Option<Setting>, among: &[T], call: Call) -> Option<Quick>
    ensures { result ≡ spec.at_call setting (map T.name among.now) call }
{
    let Some(s) = setting else {
        return Some(Quick::Stays(Reply::NotAFrame));
    };
    let kind = kind_of(call);
    let hint = glance(s, among, call)?;
    Some(match hint {
        Hint::Stays(answer) => Quick::Stays(told(kind, answer)),
        Hint::Puts(p, target) => Quick::Puts(kind, p, target),
        Hint::Sweeps(after) => Quick::Sweeps(kind, after),
    })
}
