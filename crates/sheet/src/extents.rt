// Where the listed labels wait, by one walk of the queue.
ghost use mathlib.Core.{Path.◌≡◌, Bool.true};
ghost use Rattle.std.specs.Prelude.{◌≤◌, get_or, set};
ghost use Rattle.model.specs.Sound.{from1};
ghost use Rattle.walk.specs.Ways.{beginning_of, ahead};
ghost use Rattle.sheet.specs.Extents.{unseen, lower, higher, first_at, next_at, told, gathered, extents};

use crate::form::place_from;
use model::Control;
use walk::{Unsound, Way};

/// The lowest and the highest position of each listed label; 1,024 and 0 for one that doesn't wait.
#[derive(Clone, Copy)]
pub struct Extents {
    pub low: [u16; 32],
    pub high: [u16; 32],
}

impl Extents {
    pub fn unseen() -> Extents
        ensures { result ≡ unseen }
    {
        Extents {
            low: [1024; 32],
            high: [0; 32],
        }
    }

    /// Notes a position of the label at place k. One that isn't listed may have a place beyond all.
    fn note(&mut self, k: usize, at: u16)
        ensures { self.new ≡ record {
          low = set self.old.low k (lower at (get_or self.old.low k 0));
          high = set self.old.high k (higher at (get_or self.old.high k 0));
        } }
    {
        if k < 32 {
            self.low[k] = self.low[k].min(at);
            self.high[k] = self.high[k].max(at);
        }
    }
}

fn first_at(up: bool) -> u16
    ensures { result ≡ first_at up }
{
    if up { 1 } else { 1023 }
}

/// Positions rise along a walk from the left and fall along one from the right.
fn next_at(up: bool, at: u16) -> u16
    requires { (1 ≤ at) × (at ≤ 1023) }
    ensures { result ≡ next_at up at }
{
    if up { at + 1 } else { at - 1 }
}

/// Along the way, noting where each listed label waits.
fn gather(
    w: Way,
    lefts: &[u64],
    rights: &[u64],
    labels: &[u32],
    listed: &[u32],
    seen: &mut Extents,
) -> Result<(), Unsound>
    requires { (w.slots ≤ 1023) × (from1 w.slots w.first ≡ true) }
    ensures { told result seen.new ≡ gathered w.rightward listed.now seen.old (ahead w lefts.now rights.now labels.now) }
{
    let mut at = first_at(w.rightward);
    let mut x = w.first;
    for _ in 0..w.slots {
        seen.note(place_from(listed, 0, table::get_or(labels, x, 0)), at);
        let Some(y) = walk::leads(w, lefts, rights, x)? else {
            return Ok(());
        };
        x = y;
        at = next_at(w.rightward, at);
    }
    Err(Unsound)
}

/// The same of the labels waiting, by where their walk begins.
pub fn of_waiting(
    c: Control,
    listed: &[u32],
    lefts: &[u64],
    rights: &[u64],
    labels: &[u32],
    seen: &mut Extents,
) -> Result<(), Unsound>
    requires { c.slots ≤ 1023 }
    ensures { told result seen.new ≡ extents (beginning_of c) listed.now lefts.now rights.now labels.now seen.old }
{
    match walk::begin(c)? {
        None => Ok(()),
        Some(w) => gather(w, lefts, rights, labels, listed, seen),
    }
}
