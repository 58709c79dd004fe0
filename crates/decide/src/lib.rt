//! What a place makes of the word that it found, and the new word of each change: all by value, so that a step over
//! lent tables decides by the same functions as one whose touch the executive makes.
//!
//! A `w` is the word found: at 3, 5, 7 and 9 the link word of the slot's row, at 13 its next. Anchor and head are
//! found in control; what their places make of them is `at1`, `at2`, .. themselves.
#![tactic(auto)]

pub mod side;
pub mod step;
pub mod touched;

ghost use Rattle.std.specs.Prelude.{◌≡◌};
ghost use Rattle.decide.specs.Decided.{made_of, found3, found5, found7, found9, found11, found13, found14, new2};
ghost use Rattle.decide.specs.Decided.{found16, new3, new4, new9, new10, new14, new17};

use model::{Call, Control, Entry, Transition};
use route::next;
use word::{Anchor, Link};

/// Place 2: own, own, s; of a pop null, null, s.
pub fn new2(r: Call) -> u64
    ensures { result ≡ new2 r }
{
    let a = Anchor::unpack(r.seen);
    let end = if r.kind == 0 { r.own } else { 0 };
    side::facing(r.side == 1, step::raised(r.seen), a.status, end, end)
}

/// Place 3: the own slot's inward link, which names the end; w is the word found, and its tag is kept.
pub fn new3(r: Call, w: u64) -> u64
    ensures { result ≡ new3 r w }
{
    let link = Link::unpack(w);
    step::link_word(link.tag, touched::own_end(r))
}

/// Place 4: l, own, RPUSH; of a pop l, neighbour, s.
pub fn new4(r: Call) -> u64
    ensures { result ≡ new4 r }
{
    let right = r.side == 1;
    let a = Anchor::unpack(r.seen);
    let push = r.kind == 0;
    let status = if push { side::pushing(right) } else { a.status };
    let end = if push { r.own } else { r.neighbour };
    let far = side::near(!right, a);
    side::facing(right, step::raised(r.seen), status, end, far)
}

/// Place 9: the neighbour's outward link, which names the end.
pub fn new9(r: Call) -> u64
    ensures { result ≡ new9 r }
{
    step::link_word(step::raised(r.link), touched::status_end(r))
}

/// Place 10: l, r, STABLE.
pub fn new10(r: Call) -> u64
    ensures { result ≡ new10 r }
{
    let a = Anchor::unpack(r.seen);
    let tag = step::raised(r.seen);
    Anchor {
        tag,
        status: 0,
        ..a
    }
    .pack()
}

/// Place 14: the head, which names the next of the slot drawn.
pub fn new14(r: Call) -> u64
    ensures { result ≡ new14 r }
{
    step::link_word(step::raised(r.link), r.neighbour)
}

/// Place 17: the head, which names the own slot.
pub fn new17(r: Call) -> u64
    ensures { result ≡ new17 r }
{
    step::link_word(step::raised(r.link), r.own)
}

/// Whether a step was carried out and its change, if it makes one, has not failed: then what it writes is stored.
pub fn made(m: Transition) -> bool
    ensures { result ≡ made_of m }
{
    m.outcome.is_ok() && !m.failed
}

/// Place 3: a push goes on, with the end put into its own slot's link; a pop takes the slot that w names for neighbour.
#[tactic(auto, unfolding(crate::specs::Decided::found3))]
pub fn at3(c: Control, r: Call, w: u64) -> Transition
    ensures { result ≡ found3 c r w }
{
    let link = touched::link3(r);
    if r.kind == 0 {
        if step::row_sound(c.slots, link.slot, w) {
            return step::settles(c, r, next::next(3, r.kind, next::ONLY_WAY), step::NO_ENTRY);
        }
        return step::refused(c, r);
    }
    step::reads_neighbour(c, r, link.slot, w, next::next(3, r.kind, next::ONLY_WAY))
}

/// Place 5: the slot that w names is the neighbour.
#[tactic(auto, unfolding(crate::specs::Decided::found5))]
pub fn at5(c: Control, r: Call, w: u64) -> Transition
    ensures { result ≡ found5 c r w }
{
    let link = touched::link5(r);
    step::reads_neighbour(c, r, link.slot, w, next::next(5, r.kind, next::ONLY_WAY))
}

/// Place 7: w is remembered; it may name the end.
#[tactic(auto, unfolding(crate::specs::Decided::found7))]
pub fn at7(c: Control, r: Call, w: u64) -> Transition
    ensures { result ≡ found7 c r w }
{
    let end = touched::status_end(r);
    let names_end = next::next(7, r.kind, next::EQUAL);
    let other = next::next(7, r.kind, next::UNEQUAL);
    step::reads_link(c, r, end, w, names_end, other)
}

/// Place 9: the link is as read, and is changed; or it is another.
#[tactic(auto, unfolding(crate::specs::Decided::found9))]
pub fn at9(c: Control, r: Call, w: u64) -> Transition
    ensures { result ≡ found9 c r w }
{
    if !touched::is_slot(c.slots, touched::link7(r).slot) {
        return step::refused(c, r);
    }
    if w != r.link {
        let m = step::settles(c, r, next::next(9, r.kind, next::FAILED), step::NO_ENTRY);
        return step::fails(m);
    }
    if step::has_room(r.link) {
        return step::settles(c, r, next::next(9, r.kind, next::DONE), step::NO_ENTRY);
    }
    step::refused(c, r)
}

/// Place 11: the label of the end taken is the answer's; in a pooled queue slot and label are kept in the record, and
/// the slot is given back first.
#[tactic(auto, unfolding(crate::specs::Decided::found11))]
pub fn at11(c: Control, r: Call, label: u32) -> Transition
    ensures { result ≡ found11 c r label }
{
    let end = touched::own_end(r);
    if touched::is_slot(c.slots, end) {
        if c.pooled == 1 {
            let t = Call {
                own: end,
                label,
                ..r
            };
            return step::settles(c, t, next::next(11, r.kind, next::POOLED), step::NO_ENTRY);
        }
        let e = Entry { slot: end, label };
        return step::settles(c, r, next::next(11, r.kind, next::NAMED), e);
    }
    step::refused(c, r)
}

/// Place 13: the next of the head's slot is remembered.
#[tactic(auto, unfolding(crate::specs::Decided::found13))]
pub fn at13(c: Control, r: Call, w: u64) -> Transition
    ensures { result ≡ found13 c r w }
{
    if w <= c.slots {
        let t = Call { neighbour: w, ..r };
        return step::settles(c, t, next::next(13, r.kind, next::ONLY_WAY), step::NO_ENTRY);
    }
    step::refused(c, r)
}

/// Place 14: the head is as read, and is changed, and its slot is the push's own; or it is another.
#[tactic(auto, unfolding(crate::specs::Decided::found14))]
pub fn at14(c: Control, r: Call) -> Transition
    ensures { result ≡ found14 c r }
{
    if c.head != r.link {
        let m = step::settles(c, r, next::next(14, r.kind, next::FAILED), step::NO_ENTRY);
        return step::fails(m);
    }
    if step::has_room(r.link) {
        let d = step::with_head(c, new14(r));
        let t = Call {
            own: touched::top(r),
            ..r
        };
        return step::settles(d, t, next::next(14, r.kind, next::DONE), step::NO_ENTRY);
    }
    step::refused(c, r)
}

/// Place 16: the own slot's next is written.
#[tactic(auto, unfolding(crate::specs::Decided::found16))]
pub fn at16(c: Control, r: Call) -> Transition
    ensures { result ≡ found16 c r }
{
    step::settles(c, r, next::next(16, r.kind, next::ONLY_WAY), step::NO_ENTRY)
}
