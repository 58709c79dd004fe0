//! How a step ends: refused, made, or a change of Anchor tried.
ghost use mathlib.Core.{Path.◌≡◌, Bool.false};
ghost use Rattle.std.specs.Prelude.{◌+◌, ◌/◌, ◌^◌};
ghost use Rattle.word.specs.Link.{pack_link};
ghost use Rattle.model.specs.{Tables.{idle, with_seen}, Route.goes};
ghost use Rattle.model.specs.Outcomes.{Moved};
ghost use Rattle.decide.specs.Ending.{refused, settled, failing, tag_has_room, may_change, change_refused, anchored};
ghost use Rattle.decide.specs.Ending.{headed, remembered, compared, row_sound, neighbour_read, link_read, head_read};

use crate::touched;
use model::{Answer, Call, Control, Entry, Refusal, Transition};
use route::next;
use word::{Anchor, Link};

/// For a step that pops nothing.
// An entry and no `None`: `settled` and `no_entry`, which the clauses of this crate name, give every step one.
pub const NO_ENTRY: Entry = Entry { slot: 0, label: 0 };

/// 34: nothing is changed.
pub fn refused(c: Control, r: Call) -> Transition
    ensures { result ≡ refused c r }
{
    Transition {
        control: c,
        task: r,
        outcome: Err(Refusal { number: 34 }),
        failed: false,
    }
}

/// The call goes on at place n.
#[tactic(auto, unfolding(model::specs::Route::goes))]
fn goes(c: Control, t: Call, n: u8) -> Transition
    ensures { result ≡ record { control = c; task = goes t n; outcome = Moved (Answer.Running n); failed = false } }
{
    let place = u64::from(n);
    if n > 17 {
        return ends(c, Answer::Running(place));
    }
    Transition {
        control: c,
        task: Call { place, ..t },
        outcome: Ok(Answer::Running(place)),
        failed: false,
    }
}

/// The call is answered, and its record all zero.
fn ends(c: Control, a: Answer) -> Transition
    ensures { result ≡ record { control = c; task = idle; outcome = Moved a; failed = false } }
{
    Transition {
        control: c,
        task: Call {
            place: 0,
            kind: 0,
            side: 0,
            own: 0,
            label: 0,
            seen: 0,
            neighbour: 0,
            link: 0,
            finishing: 0,
        },
        outcome: Ok(a),
        failed: false,
    }
}

/// A step made: its record goes where the route leads, n; e is the entry popped.
#[tactic(auto, unfolding(crate::specs::Ending::settled, model::specs::Route::onward, model::specs::Route::answer, model::specs::Route::goes))]
pub fn settles(c: Control, t: Call, n: u8, e: Entry) -> Transition
    ensures { result ≡ settled c t n e }
{
    match n {
        next::LEAVE if t.finishing == 1 => ends(c, Answer::Pushed),
        next::LEAVE => goes(c, t, 1),
        next::PUSHED => ends(c, Answer::Pushed),
        next::EMPTY => ends(c, Answer::Empty),
        next::POPPED => ends(c, Answer::Popped(e)),
        next::NO_FREE_SLOT => ends(c, Answer::NoFreeSlot),
        _ => goes(c, t, n),
    }
}

/// The record with w for Anchor as read.
pub fn sees(r: Call, w: u64) -> Call
    ensures { result ≡ with_seen r w r.finishing }
{
    Call { seen: w, ..r }
}

/// A step whose change failed.
pub fn fails(m: Transition) -> Transition
    ensures { result ≡ failing m }
{
    Transition { failed: true, ..m }
}

/// The tag of a word, raised by 1.
pub fn raised(w: u64) -> u64
    ensures { result ≡ w / 2 ^ 32 + 1 }
{
    let a = Anchor::unpack(w);
    a.tag + 1
}

/// Whether the tag of a word can be raised.
pub fn has_room(w: u64) -> bool
    ensures { result ≡ tag_has_room w }
{
    let a = Anchor::unpack(w);
    a.tag < Anchor::TAG_MASK
}

/// Whether Anchor may be changed from `seen` to `new`: the tag can be raised, and `new` is sound.
#[tactic(auto, unfolding(crate::specs::Ending::may_change))]
pub fn may_change(slots: u64, seen: u64, new: u64) -> bool
    ensures { result ≡ may_change slots seen new }
{
    sound::anchor_sound(slots, new) & has_room(seen)
}

/// Whether a change of Anchor to `new` is refused: Anchor is as read, so that the change would be made, and may not be.
#[tactic(auto, unfolding(crate::specs::Ending::change_refused))]
pub fn change_refused(c: Control, r: Call, new: u64) -> bool
    ensures { result ≡ change_refused c r new }
{
    (c.anchor == r.seen) & !may_change(c.slots, r.seen, new)
}

/// The control with another Anchor.
pub fn with_anchor(c: Control, new: u64) -> Control
    ensures { result ≡ anchored c new }
{
    Control { anchor: new, ..c }
}

/// The control with another head.
pub fn with_head(c: Control, new: u64) -> Control
    ensures { result ≡ headed c new }
{
    Control { head: new, ..c }
}

/// The record once Anchor is changed at place 4: a push remembers the new word, and is finishing.
#[tactic(auto, unfolding(crate::specs::Ending::remembered))]
pub fn remembers(r: Call, new: u64) -> Call
    ensures { result ≡ remembered r new }
{
    if r.kind == 0 {
        Call {
            seen: new,
            finishing: 1,
            ..r
        }
    } else {
        r
    }
}

/// Compares Anchor with the word as read.
#[tactic(auto, unfolding(crate::specs::Ending::compared))]
pub fn compares(c: Control, r: Call, same: u8, other: u8) -> Transition
    ensures { result ≡ compared c r same other }
{
    if c.anchor == r.seen {
        settles(c, r, same, NO_ENTRY)
    } else {
        settles(c, r, other, NO_ENTRY)
    }
}

/// Whether x is a slot and the link word met there is sound.
#[tactic(auto, unfolding(crate::specs::Ending::row_sound))]
pub fn row_sound(slots: u64, x: u64, w: u64) -> bool
    ensures { result ≡ row_sound slots x w }
{
    touched::is_slot(slots, x) & sound::link_sound(slots, w)
}

pub fn link_word(tag: u64, slot: u64) -> u64
    ensures { result ≡ pack_link (record { tag = tag; slot = slot }) }
{
    Link { tag, slot }.pack()
}

/// Takes the slot that w, slot x's inward link, names for the neighbour.
#[tactic(auto, unfolding(crate::specs::Ending::neighbour_read))]
pub fn reads_neighbour(c: Control, r: Call, x: u64, w: u64, n: u8) -> Transition
    ensures { result ≡ neighbour_read c r x w n }
{
    if row_sound(c.slots, x, w) {
        let link = Link::unpack(w);
        let t = Call {
            neighbour: link.slot,
            ..r
        };
        return settles(c, t, n, NO_ENTRY);
    }
    refused(c, r)
}

/// Remembers w, the neighbour's outward link, which may name the end.
#[tactic(auto, unfolding(crate::specs::Ending::link_read))]
pub fn reads_link(c: Control, r: Call, end: u64, w: u64, same: u8, other: u8) -> Transition
    ensures { result ≡ link_read c r end w same other }
{
    if row_sound(c.slots, r.neighbour, w) {
        let link = Link::unpack(w);
        let t = Call { link: w, ..r };
        if link.slot == end {
            return settles(c, t, same, NO_ENTRY);
        }
        return settles(c, t, other, NO_ENTRY);
    }
    refused(c, r)
}

/// Remembers the head, whose slot may be 0.
#[tactic(auto, unfolding(crate::specs::Ending::head_read))]
pub fn reads_head(c: Control, r: Call, none: u8, other: u8) -> Transition
    ensures { result ≡ head_read c r none other }
{
    if sound::link_sound(c.slots, c.head) {
        let head = Link::unpack(c.head);
        let t = Call { link: c.head, ..r };
        let n = if head.slot == 0 { none } else { other };
        return settles(c, t, n, NO_ENTRY);
    }
    refused(c, r)
}
