//! Places 12 to 17: a push draws its slot from the stack before place 1, and a pop gives its slot
//! back after place 11. The head as read is kept as the link word, the next as the neighbour.
//! (Document 02, #104: the tagged compare-and-swap stack of 003's references.)
ghost use Rattle.places.specs.Arm.{Steps, StepsOnMarks, StepsOnNext};

use decide::{step, touched};
use model::{Call, Control, Entry, Transition};
use route::next;

/// Place 12: read the head; an empty one is *no slot*.
pub fn at12(c: Control, r: Call) -> Transition
    ensures { Steps 12 c r result }
{
    let none = next::next(12, r.kind, next::NONE_FREE);
    let other = next::next(12, r.kind, next::SOME_FREE);
    step::reads_head(c, r, none, other)
}

/// Place 13: read the next of the head's slot.
pub fn at13(c: Control, r: Call, nexts: &[u64]) -> Transition
    ensures { StepsOnNext 13 c r nexts.now result nexts.now }
{
    let n = table::get_or(nexts, touched::top(r), 0);
    decide::at13(c, r, n)
}

/// Place 14: change the head to that next. The slot is then the push's own, marked and with its label.
pub fn at14(c: Control, r: Call, labels: &mut [u32], marks: &mut [u64]) -> Transition
    ensures { StepsOnMarks 14 c r labels.old marks.old result labels.new marks.new }
{
    let m = decide::at14(c, r);
    if decide::made(m) {
        let top = touched::top(r);
        table::set(labels, top, r.label);
        table::set_mark(marks, top);
        return m;
    }
    m
}

/// Place 15: read the head.
pub fn at15(c: Control, r: Call) -> Transition
    ensures { Steps 15 c r result }
{
    let n = next::next(15, r.kind, next::ONLY_WAY);
    step::reads_head(c, r, n, n)
}

/// Place 16: put the head's slot into the own slot's next.
pub fn at16(c: Control, r: Call, nexts: &mut [u64]) -> Transition
    ensures { StepsOnNext 16 c r nexts.old result nexts.new }
{
    let top = touched::top(r);
    table::set(nexts, r.own, top);
    decide::at16(c, r)
}

/// Place 17: change the head to the own slot, and answer with it and its label.
pub fn at17(c: Control, r: Call) -> Transition
    ensures { Steps 17 c r result }
{
    if c.head != r.link {
        let m = step::settles(c, r, next::next(17, r.kind, next::FAILED), step::NO_ENTRY);
        return step::fails(m);
    }
    if step::has_room(r.link) {
        let d = step::with_head(c, decide::new17(r));
        let e = Entry {
            slot: r.own,
            label: r.label,
        };
        return step::settles(d, r, next::next(17, r.kind, next::DONE), e);
    }
    step::refused(c, r)
}
