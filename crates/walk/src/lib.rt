//! The walk of the labels waiting: where it begins, where a link leads, and how many labels it meets.
#![tactic(auto)]

ghost use mathlib.Core.{Path.◌≡◌, Bool.true, List.List};
ghost use Rattle.std.specs.Prelude.{ℕ, ◌<◌, length, get_or};
ghost use Rattle.word.specs.Link.{link_of};
ghost use Rattle.model.specs.{Tables.tables_of, Sound.from1, Walk.contents};
ghost use Rattle.walk.specs.{Ways.{way_of, beginning_of, links_on, leads_to, named, led_from, ahead}, Counted.counted};

use model::Control;
use word::{Anchor, Link};

// The lower half of a word is below this; that of a sound link word is its slot.
const HALF: u64 = 4294967296;

/// The way of a walk: from slot first to slot last among so many.
#[derive(Clone, Copy)]
pub struct Way {
    pub slots: u64,
    /// Along Right links, else along Left links.
    pub rightward: bool,
    pub first: u64,
    pub last: u64,
}

// From the right end along Left links, or, under LPUSH, from the left end along Right links.
fn way_of(c: Control) -> Way
    ensures { result ≡ way_of c }
{
    let a = Anchor::unpack(c.anchor);
    if a.status == 2 {
        return Way {
            slots: c.slots,
            rightward: true,
            first: a.left,
            last: a.right,
        };
    }
    Way {
        slots: c.slots,
        rightward: false,
        first: a.right,
        last: a.left,
    }
}

/// The end that a walk begins at is no slot, or a link word on its way is unsound or names none.
#[derive(Clone, Copy, Debug, PartialEq, Eq)]
pub struct Unsound;

/// Where a walk begins; nowhere where both ends are null, since nothing waits.
pub fn begin(c: Control) -> Result<Option<Way>, Unsound>
    ensures { result ≡ beginning_of c }
{
    let a = Anchor::unpack(c.anchor);
    if (a.left == 0) & (a.right == 0) {
        return Ok(None);
    }
    let w = way_of(c);
    if sound::from1(w.slots, w.first) {
        Ok(Some(w))
    } else {
        Err(Unsound)
    }
}

fn link_at(w: Way, lefts: &[u64], rights: &[u64], x: u64) -> u64
    ensures { result ≡ get_or (links_on w lefts.now rights.now) x 0 }
{
    if w.rightward {
        return table::get_or(rights, x, 0);
    }
    table::get_or(lefts, x, 0)
}

/// The slot that the link word of slot x leads to, where the word is sound and names one.
fn target(w: Way, lefts: &[u64], rights: &[u64], x: u64) -> Result<u64, Unsound>
    ensures { result ≡ named (leads_to w lefts.now rights.now x) }
{
    let word = link_at(w, lefts, rights, x);
    let y = word % HALF;
    if !sound::link_sound(w.slots, word) | (y == 0) {
        return Err(Unsound);
    }
    Ok(y)
}

/// Where a walk goes on from slot x; nowhere where that is the last.
pub fn leads(w: Way, lefts: &[u64], rights: &[u64], x: u64) -> Result<Option<u64>, Unsound>
    ensures { result ≡ led_from w lefts.now rights.now x }
{
    if x == w.last {
        return Ok(None);
    }
    Ok(Some(target(w, lefts, rights, x)?))
}

/// The slot that the link word of slot x names, where the links are known to be sound and to keep to their rows.
pub fn follow(links: &[u64], x: u64) -> u64
    requires { x < length links.now }
    ensures { result ≡ (link_of (get_or links.now x 0)).slot }
{
    let k = x as usize;
    let link = Link::unpack(links[k]);
    link.slot
}

/// How many labels are met from a first slot on, no more than there are slots. Labels don't matter.
pub fn count(w: Way, lefts: &[u64], rights: &[u64]) -> Result<u64, Unsound>
    requires { from1 w.slots w.first ≡ true }
    ensures { (labels : List ℕ) → result ≡ counted (ahead w lefts.now rights.now labels) }
{
    // The loop counts by hand: with `for n in 0..w.slots` zc_waiting takes 938 bytes of code in place of 884,
    // which is more than a twentieth above its figure in bench/facts.txt.
    let mut n = 0;
    let mut x = w.first;
    while n < w.slots {
        n += 1;
        let Some(y) = leads(w, lefts, rights, x)? else {
            return Ok(n);
        };
        x = y;
    }
    Err(Unsound)
}

/// How many labels wait.
pub fn waiting(c: Control, lefts: &[u64], rights: &[u64]) -> Result<u64, Unsound>
    ensures { (labels marks next : List ℕ) → result ≡ counted (contents (tables_of c lefts.now rights.now labels marks next)) }
{
    match begin(c)? {
        None => Ok(0),
        Some(w) => count(w, lefts, rights),
    }
}
