//! What a step asks, without the step: the slot whose row it touches, and what it would be refused by. Nothing is
//! written. A run of no steps asks it, and a search that takes its steps back asks for the row.
//!
//! No place has a rule here: which word it touches (`decide::touched`), what it makes of the word found and which new
//! word it would put are the functions that the step itself calls.
#![tactic(auto)]

ghost use mathlib.Core.{Path.◌≡◌, List.List};
ghost use Rattle.std.specs.Prelude.{ℕ, leb, ltb};
ghost use Rattle.model.specs.{Tables.tables_of, Places.row, Refusals.step_refusal};
ghost use Rattle.asking.specs.WhyRefused.{why_not, why_unchanged, touch_refusal};

use decide::{step, touched};
use model::{Call, Control, Transition};
use places::{links, pool};
use sound::{Lengths, admission};

/// The slot whose row or mark the record's place touches, at 17 the one that it gives back; 0: none.
#[tactic(auto, unfolding(model::specs::Places::row, model::specs::Places::side_of))]
pub fn row_of(r: Call) -> u64
    ensures { result ≡ row r }
{
    match r.place {
        3 => touched::link3(r).slot,
        5 => touched::link5(r).slot,
        7 | 9 => touched::link7(r).slot,
        11 => touched::own_end(r),
        13 | 14 => touched::top(r),
        16 | 17 => r.own,
        _ => 0,
    }
}

/// The number that a step is refused by; 0: by none.
fn why_not(m: Transition) -> u32
    ensures { result ≡ why_not m.outcome }
{
    match m.outcome {
        Err(refusal) => refusal.number,
        Ok(_) => 0,
    }
}

/// The same of a change of Anchor to `new`, which fails where Anchor is not as read.
#[tactic(auto, unfolding(crate::specs::WhyRefused::why_unchanged))]
fn why_unchanged(c: Control, r: Call, new: u64) -> u32
    ensures { result ≡ why_unchanged c r new }
{
    if step::change_refused(c, r, new) {
        34
    } else {
        0
    }
}

/// What the step of a busy record is refused by for what it touches, as the step itself decides it.
fn touch_refusal(
    c: Control,
    r: Call,
    lefts: &[u64],
    rights: &[u64],
    labels: &[u32],
    next: &[u64],
) -> u32
    ensures { (marks : List ℕ)
        → result ≡ touch_refusal (tables_of c lefts.now rights.now labels.now marks next.now) r }
{
    match r.place {
        1 | 6 | 8 | 16 => 0,
        2 => why_unchanged(c, r, decide::new2(r)),
        3 => why_not(decide::at3(c, r, links::link_at(touched::link3(r), lefts, rights))),
        4 => why_unchanged(c, r, decide::new4(r)),
        5 => why_not(places::at5(c, r, lefts, rights)),
        7 => why_not(places::at7(c, r, lefts, rights)),
        9 => why_not(decide::at9(c, r, links::link_at(touched::link7(r), lefts, rights))),
        10 => why_unchanged(c, r, decide::new10(r)),
        11 => why_not(decide::at11(c, r, table::get_or(labels, touched::own_end(r), 0))),
        12 => why_not(pool::at12(c, r)),
        13 => why_not(pool::at13(c, r, next)),
        14 => why_not(decide::at14(c, r)),
        15 => why_not(pool::at15(c, r)),
        _ => why_not(pool::at17(c, r)),
    }
}

/// What a step of task `task` among `records` lent records would be refused by, where `r` is its record; 0: by nothing.
pub fn refusal(
    c: Control,
    r: Call,
    records: usize,
    task: usize,
    lefts: &[u64],
    rights: &[u64],
    labels: &[u32],
    marks: &[u64],
    next: &[u64],
) -> u32
    ensures { result ≡ step_refusal
        (tables_of c lefts.now rights.now labels.now marks.now next.now)
        (record { enough = leb c.tasks records; known = ltb task c.tasks }) r }
{
    let t = Lengths::of(records, lefts, rights, labels, marks, next);
    let why = admission::admit_step(c, task, t);
    if why != 0 {
        return why;
    }
    let pooled = c.pooled == 1;
    let unfit = sound::record_refusal(pooled, c.slots, r);
    if unfit != 0 {
        return unfit;
    }
    touch_refusal(c, r, lefts, rights, labels, next)
}
