// The array of targets: the search of it, and each change of it.
#![tactic(auto)]

ghost use Rattle.std.specs.Prelude.{◌≡◌, ◌∷◌, ◌++◌, ℕ, map, ◌+◌, ◌-◌, length, take, drop, nat_le, position};
ghost use Rattle.plain.specs.Targets.{most_targets, bare_target, at_most};
ghost use Rattle.targets.specs.Slots as spec;

use jord::angle::Angle;
use jord::positions::NVector;
use jord::speed::Speed;
use jord::vehicle::Vehicle;
use plain::targets::{Held, MOST_TARGETS, Target, Targets};
use std::array;
use vectors::vec3::Vec3;

pub mod asking;

// The last of a board's 64 places.
const LAST: usize = MOST_TARGETS - 1;

// What a call does to the targets, where it changes them.
#[derive(Clone, Copy)]
pub enum Change {
    // This target takes the place of entry p.
    Stores(usize, Target),
    // This target comes before entry p.
    Inserts(usize, Target),
    // Entry p is taken out.
    Removes(usize),
    // Every line is taken away.
    Sweeps,
}

// No target stands.
pub fn empty() -> Targets
    ensures { result ≡ spec.empty }
{
    let nowhere = Vehicle::new(NVector::new(Vec3::ZERO), Angle::ZERO, Speed::ZERO);
    let held = Held {
        report: nowhere,
        line: None,
    };
    let blank = Target { identity: 0, held };
    Targets {
        entries: [blank; MOST_TARGETS],
        count: 0,
    }
}

// A count, or 64 where it says more.
pub fn least(count: usize) -> usize
    ensures { result ≡ at_most count }
{
    count.min(MOST_TARGETS)
}

// The identities of the targets that stand, then zeros. Nothing here calls it: it stands for callers of the crate.
pub fn identities(targets: Targets) -> [u16; MOST_TARGETS]
    ensures { (result ≡ spec.identities targets.entries (at_most targets.count)) × (length targets.entries ≡ most_targets) }
{
    let entries = targets.entries;
    let n = least(targets.count);
    array::from_fn(|i| if i < n { entries[i].identity } else { 0 })
}

// What has an identity.
pub trait Named {
    ghost name: { Self → ℕ };

    fn identity(&self) -> u16
        ensures { result ≡ name self.now };
}

impl Named for u16 {
    ghost name = { λ x. x };

    fn identity(&self) -> u16 {
        *self
    }
}

impl Named for Target {
    ghost name = { spec.identity_of };

    fn identity(&self) -> u16 {
        self.identity
    }
}

// The first of these whose identity is not below this one.
fn first_from<T: Named>(among: &[T], identity: u16) -> Option<usize>
    ensures { result ≡ position (λ x. nat_le identity (T.name x)) among.now }
{
    among.iter().position(|x| identity <= x.identity())
}

// Where an identity stands among these, in their order, or as an error before which it would.
// From the first on, for it asks no order of what it is lent: of a list that does not rise, std's `binary_search_by_key` gives another answer.
pub fn seek<T: Named>(among: &[T], identity: u16) -> Result<usize, usize>
    ensures value { result ≡ spec.spot_in 0 identity (map T.name among.now) }
    ensures unchanged { among.exit.now ≡ among.entry.now }
{
    match first_from(among, identity) {
        Some(p) if among[p].identity() == identity => Ok(p),
        Some(p) => Err(p),
        None => Err(among.len()),
    }
}

// The same among the first `count` of these alone, 64 at most, or all where there are fewer.
pub fn seek_first<T: Named>(among: &[T], count: usize, identity: u16) -> Result<usize, usize>
    ensures value { result ≡ spec.spot_in 0 identity (take (at_most count) (map T.name among.now)) }
    ensures unchanged { among.exit.now ≡ among.entry.now }
{
    let n = least(count).min(among.len());
    seek(&among[..n], identity)
}

// The entries with t in place p, those from p on one place later and the last dropped; as they were where p is 64 or more.
pub fn inserted(mut entries: [Target; MOST_TARGETS], p: usize, t: Target) -> [Target; MOST_TARGETS]
    ensures { result ≡ take most_targets (take p entries ++ t ∷ drop p entries) }
{
    if p < MOST_TARGETS {
        entries.copy_within(p..LAST, p + 1);
        entries[p] = t;
    }
    entries
}

// The entries without the one in place p, those after it one place earlier, the last place as it was; all as they were where p is 64 or more.
pub fn closed(mut entries: [Target; MOST_TARGETS], p: usize) -> [Target; MOST_TARGETS]
    ensures { result ≡ take most_targets ((take p entries ++ drop (p + 1) entries) ++ drop (most_targets - 1) entries) }
{
    if p < MOST_TARGETS {
        entries.copy_within(p + 1.., p);
    }
    entries
}

// Every entry without its line.
pub fn bared(mut entries: [Target; MOST_TARGETS]) -> [Target; MOST_TARGETS]
    ensures { result ≡ map bare_target entries }
{
    for t in entries.iter_mut() {
        t.held.line = None;
    }
    entries
}
