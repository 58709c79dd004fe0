//! Which slot a place touches, and which of its two link words. A step over lent tables, the plan of one whose touch
//! the executive makes, and what is asked without a step all take it from here.
ghost use Rattle.std.specs.Prelude.{◌≡◌};
ghost use Rattle.model.specs.Sound.{from1};
ghost use Rattle.decide.specs.Decided.{own_end, status_end, top, link3_of, link3, link5_of, link5, link7};

use crate::side;
use model::Call;
use word::{Anchor, Link};

/// Whether a place at 3 to 11 may touch slot x, which is then one of the queue's; else its step is refused with 34.
pub fn is_slot(slots: u64, x: u64) -> bool
    ensures { result ≡ from1 slots x }
{
    sound::from1(slots, x)
}

/// A link word of a slot: its Right or its Left.
#[derive(Clone, Copy)]
pub struct LinkWord {
    pub right: bool,
    pub slot: u64,
}

/// The end as read at the task's side: the slot of 11, and of a pop at 3.
pub fn own_end(r: Call) -> u64
    ensures { result ≡ own_end r }
{
    let a = Anchor::unpack(r.seen);
    side::near(r.side == 1, a)
}

/// The end as read at the side that the status names.
pub fn status_end(r: Call) -> u64
    ensures { result ≡ status_end r }
{
    let a = Anchor::unpack(r.seen);
    side::near(a.status == 1, a)
}

/// The slot of the head as read: that of 13 and 14.
pub fn top(r: Call) -> u64
    ensures { result ≡ top r }
{
    let head = Link::unpack(r.link);
    head.slot
}

/// Place 3: the own slot's inward link; of a pop the end's. `a` is Anchor as read, for a caller that has unpacked it.
pub fn link3_of(r: Call, a: Anchor) -> LinkWord
    ensures { result ≡ link3_of r a }
{
    let right = r.side == 1;
    let slot = if r.kind == 0 {
        r.own
    } else {
        side::near(right, a)
    };
    LinkWord {
        right: !right,
        slot,
    }
}

pub fn link3(r: Call) -> LinkWord
    ensures { result ≡ link3 r }
{
    link3_of(r, Anchor::unpack(r.seen))
}

/// Place 5: the end's inward link.
pub fn link5_of(a: Anchor) -> LinkWord
    ensures { result ≡ link5_of a }
{
    let right = a.status == 1;
    LinkWord {
        right: !right,
        slot: side::near(right, a),
    }
}

pub fn link5(r: Call) -> LinkWord
    ensures { result ≡ link5 r }
{
    link5_of(Anchor::unpack(r.seen))
}

/// Places 7 and 9: the neighbour's outward link.
pub fn link7(r: Call) -> LinkWord
    ensures { result ≡ link7 r }
{
    let a = Anchor::unpack(r.seen);
    LinkWord {
        right: a.status == 1,
        slot: r.neighbour,
    }
}
