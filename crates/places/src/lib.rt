//! What each place does with the tables lent to it, one function a place; 12 to 17, where a pooled queue draws its
//! slots and gets them back, are in `pool`. A place that touches a row, a label or a next reads, decides over the
//! word found (crate `decide`), and writes where the step was made.
//!
//! Every function carries out the step at its place, whatever its arguments:
//! it refuses with 34 what the place may not touch and then changes nothing.
//! Line numbers are those of source 003. Figures 3 and 5 show the right side;
//! at places 5 to 10, figure 4, the side is the one that the status as read names.
#![tactic(auto)]

pub mod links;
pub mod pool;

ghost use Rattle.std.specs.Prelude.{◌≡◌};
ghost use Rattle.places.specs.Arm.{Steps, StepsOnLinks, StepsOnMarks};

use decide::{step, touched};
use model::{Call, Control, Transition};
use route::next;
use word::Anchor;

/// Place 1: read Anchor. (Figure 3, line 1; figure 5, line 11.)
pub fn at1(c: Control, r: Call) -> Transition
    ensures { Steps 1 c r result }
{
    let a = Anchor::unpack(c.anchor);
    let n = next::after_reading(1, false, r.kind, a);
    let t = step::sees(r, c.anchor);
    step::settles(c, t, n, step::NO_ENTRY)
}

/// Place 2: the change, tried. A failed one is counted, takes the word found for its reading, and goes on as place 1.
pub fn at2(c: Control, r: Call) -> Transition
    ensures { Steps 2 c r result }
{
    if c.anchor == r.seen {
        return change2(c, r);
    }
    let a = Anchor::unpack(c.anchor);
    let n = next::after_reading(2, true, r.kind, a);
    let t = step::sees(r, c.anchor);
    let m = step::settles(c, t, n, step::NO_ENTRY);
    step::fails(m)
}

/// Place 2, Anchor as read: change it to own, own, s; a pop to null, null, s. (Figure 3, line 2; figure 5, line 12.)
fn change2(c: Control, r: Call) -> Transition
    ensures { c.anchor ≡ r.seen → Steps 2 c r result }
{
    let new = decide::new2(r);
    if step::change_refused(c, r, new) {
        return step::refused(c, r);
    }
    let d = step::with_anchor(c, new);
    step::settles(d, r, next::next(2, r.kind, next::DONE), step::NO_ENTRY)
}

/// Place 3: put the end into the own slot's inward link, its tag kept; a pop reads the end's
/// inward link as neighbour. (Figure 3, line 3; figure 5, line 13.)
pub fn at3(c: Control, r: Call, lefts: &mut [u64], rights: &mut [u64]) -> Transition
    ensures { StepsOnLinks 3 c r lefts.old rights.old result lefts.new rights.new }
{
    let a = Anchor::unpack(r.seen);
    if r.kind == 0 {
        let link = touched::link3_of(r, a);
        let w = links::link_at(link, lefts, rights);
        let m = decide::at3(c, r, w);
        if decide::made(m) {
            let new = decide::new3(r, w);
            links::put_link(link, new, lefts, rights);
            return m;
        }
        return m;
    }
    let link = touched::link3_of(r, a);
    let w = links::link_at(link, lefts, rights);
    decide::at3(c, r, w)
}

/// Place 4: the change, tried, as at 2.
pub fn at4(c: Control, r: Call) -> Transition
    ensures { Steps 4 c r result }
{
    if c.anchor == r.seen {
        return change4(c, r);
    }
    let a = Anchor::unpack(c.anchor);
    let n = next::after_reading(4, true, r.kind, a);
    let t = step::sees(r, c.anchor);
    let m = step::settles(c, t, n, step::NO_ENTRY);
    step::fails(m)
}

/// Place 4, Anchor as read: change it to l, own, RPUSH, and remember it, finishing; a pop to
/// l, neighbour, s. (Figure 3, line 4; figure 5, line 14.)
fn change4(c: Control, r: Call) -> Transition
    ensures { c.anchor ≡ r.seen → Steps 4 c r result }
{
    let new = decide::new4(r);
    if step::change_refused(c, r, new) {
        return step::refused(c, r);
    }
    let d = step::with_anchor(c, new);
    let t = step::remembers(r, new);
    step::settles(d, t, next::next(4, r.kind, next::DONE), step::NO_ENTRY)
}

/// Place 5: read the end's inward link as neighbour. (Figure 4, line 5.)
pub fn at5(c: Control, r: Call, lefts: &[u64], rights: &[u64]) -> Transition
    ensures { StepsOnLinks 5 c r lefts.now rights.now result lefts.now rights.now }
{
    let a = Anchor::unpack(r.seen);
    let link = touched::link5_of(a);
    let w = links::link_at(link, lefts, rights);
    decide::at5(c, r, w)
}

/// Place 6: compare Anchor. (Figure 4, line 6.)
pub fn at6(c: Control, r: Call) -> Transition
    ensures { Steps 6 c r result }
{
    let same = next::next(6, r.kind, next::EQUAL);
    let other = next::next(6, r.kind, next::UNEQUAL);
    step::compares(c, r, same, other)
}

/// Place 7: read the neighbour's outward link. (Figure 4, line 7.)
pub fn at7(c: Control, r: Call, lefts: &[u64], rights: &[u64]) -> Transition
    ensures { StepsOnLinks 7 c r lefts.now rights.now result lefts.now rights.now }
{
    let link = touched::link7(r);
    let w = links::link_at(link, lefts, rights);
    decide::at7(c, r, w)
}

/// Place 8: compare Anchor again. (Figure 4, line 8.)
pub fn at8(c: Control, r: Call) -> Transition
    ensures { Steps 8 c r result }
{
    let same = next::next(8, r.kind, next::EQUAL);
    let other = next::next(8, r.kind, next::UNEQUAL);
    step::compares(c, r, same, other)
}

/// Place 9: change the neighbour's outward link to the end. (Figure 4, line 9.)
pub fn at9(c: Control, r: Call, lefts: &mut [u64], rights: &mut [u64]) -> Transition
    ensures { StepsOnLinks 9 c r lefts.old rights.old result lefts.new rights.new }
{
    let link = touched::link7(r);
    let w = links::link_at(link, lefts, rights);
    let m = decide::at9(c, r, w);
    if decide::made(m) {
        let new = decide::new9(r);
        links::put_link(link, new, lefts, rights);
        return m;
    }
    m
}

/// Place 10: change Anchor to l, r, STABLE. (Figure 4, line 10.)
pub fn at10(c: Control, r: Call) -> Transition
    ensures { Steps 10 c r result }
{
    if c.anchor != r.seen {
        let m = step::settles(c, r, next::next(10, r.kind, next::FAILED), step::NO_ENTRY);
        return step::fails(m);
    }
    let new = decide::new10(r);
    if step::change_refused(c, r, new) {
        return step::refused(c, r);
    }
    let d = step::with_anchor(c, new);
    step::settles(d, r, next::next(10, r.kind, next::DONE), step::NO_ENTRY)
}

/// Place 11: read the label of the end taken and clear its mark. (Figure 5, after the loop.) In a
/// pooled queue slot and label are kept in the record, and the slot is given back first.
pub fn at11(c: Control, r: Call, labels: &[u32], marks: &mut [u64]) -> Transition
    ensures { StepsOnMarks 11 c r labels.now marks.old result labels.now marks.new }
{
    let end = touched::own_end(r);
    let label = table::get_or(labels, end, 0);
    if touched::is_slot(c.slots, end) {
        table::clear_mark(marks, end);
        return decide::at11(c, r, label);
    }
    decide::at11(c, r, label)
}
