//! The starts split at their touches: what a start does first, and what it comes to once a touch has
//! found a word.
ghost use mathlib.Core.{Path.◌≡◌, Bool.cond};
ghost use Rattle.std.specs.Prelude.{eqb};
ghost use Rattle.layout.specs.Rows.{call_of, record_of, upper_of};
ghost use Rattle.threads_model.specs.{Split.plan, Starts.{takes_slot, loads_mark}};
ghost use Rattle.threads_model.specs.Starts.{wrong_push, outside, start_why, plan_start, first_call, judged, settle_start};
ghost use Rattle.touch.specs.Started.{start_of, Started, started_by, loaded_by};

use crate::planned::Touch;
use crate::{Onward, met};
use calls::refusal;
use model::{Answer, Call, Refusal, Reply};
use threads_model::{PlannedTouch, Start};

/// The words of a start.
pub const START_WORDS: usize = 4;

/// The start that its words are.
// The operation stays a number, as C's words have it: `zc_plan_start` is proved for all numbers.
#[tactic(auto, unfolding(crate::specs::Started::start_of))]
pub fn start_of(words: [u64; START_WORDS]) -> Start
    ensures { result ≡ start_of words }
{
    let [operation, side, slot, label] = words;
    Start {
        operation,
        side,
        slot,
        label: met::label(label),
    }
}

/// 41: a push of the wrong kind for the queue.
fn wrong_push(pooled: u64, s: Start) -> bool
    ensures { result ≡ wrong_push pooled s }
{
    match s.operation {
        0 => pooled == 1,
        1 => false,
        _ => pooled != 1,
    }
}

/// 15: a push that names no slot of the queue.
fn outside(slots: u64, s: Start) -> bool
    ensures { result ≡ outside slots s }
{
    s.operation == 0 && !sound::from1(slots, s.slot)
}

/// Why a start is refused by its own numbers and record, or 0.
#[tactic(auto, using(crate::proofs::Starting::free), unfolding(threads_model::specs::Starts::own_refusal))]
fn own_refusal(pooled: u64, slots: u64, task: &[u64; layout::RECORD_WORDS], s: Start) -> u32
    ensures { result ≡ start_why pooled slots (call_of task.now) s }
{
    if 1 < s.side {
        return 14;
    }
    if wrong_push(pooled, s) {
        return 41;
    }
    if outside(slots, s) {
        return 15;
    }
    if layout::call_of(*task).place == 0 {
        return 0;
    }
    if crate::is_sound(pooled, slots, task) {
        30
    } else {
        34
    }
}

/// What a start does first: it is refused by its own numbers and record, or loads Anchor. (The touch is written once, by
/// the number: of several touches the compiler keeps one in memory and copies it, with loads over stores just made.)
#[tactic(auto, unfolding(threads_model::specs::Starts::plan_start))]
pub fn plan_start(
    pooled: u64,
    slots: u64,
    task: &[u64; layout::RECORD_WORDS],
    s: Start,
) -> PlannedTouch
    ensures { result ≡ plan_start pooled slots (call_of task.now) s }
{
    let why = own_refusal(pooled, slots, task, s);
    if why == 0 {
        Touch::LoadAnchor.into()
    } else {
        Touch::Refused(why).into()
    }
}

/// The call that a start writes.
fn first_call(s: Start) -> Call
    ensures { result ≡ first_call s }
{
    match s.operation {
        0 => calls::start::new_call(1, 0, s.side, s.slot, s.label),
        1 => calls::start::new_call(1, 1, s.side, 0, 0),
        _ => calls::start::new_call(12, 0, s.side, 0, s.label),
    }
}

/// Its first step: all that can be unsound of it are the words of the start.
fn first_plan(pooled: u64, slots: u64, s: Start) -> PlannedTouch
    ensures { result ≡ plan pooled slots (first_call s) }
{
    if 1 < s.side {
        return Touch::Refused(34).into();
    }
    match s.operation {
        0 if sound::from1(slots, s.slot) => Touch::LoadAnchor.into(),
        0 => Touch::Refused(34).into(),
        1 => Touch::LoadAnchor.into(),
        _ if pooled == 1 => Touch::LoadHead.into(),
        _ => Touch::Refused(34).into(),
    }
}

/// The touch of a push that names a slot, once it has loaded Anchor: it takes the slot; where Anchor was
/// late it only looks at the mark.
fn at_slot(late: bool, s: Start) -> PlannedTouch
    ensures { result ≡ cond late (loads_mark s.slot) (takes_slot s.slot s.label) }
{
    if late {
        Touch::LoadMark(s.slot).into()
    } else {
        Touch::TakeSlot {
            slot: s.slot,
            label: s.label,
        }
        .into()
    }
}

/// Why a start is refused by the word found, or 0: by the Anchor, whose lateness is told, or by the mark.
fn why_not(act: u32, found: u64, late: bool) -> u32
    ensures { result ≡ cond (eqb act 1) (cond late 33 0) (cond (eqb found 0) (cond (eqb act 12) 0 33) 32) }
{
    if act == 1 {
        return if late { 33 } else { 0 };
    }
    if found != 0 {
        return 32;
    }
    if act == 12 { 0 } else { 33 }
}

/// A start that is decided: carried out, or refused by the number `why`.
#[tactic(auto, using(crate::proofs::Starting::refused, crate::proofs::Starting::begun))]
fn decides(
    slots: u64,
    pooled: u64,
    task: &mut [u64; layout::RECORD_WORDS],
    s: Start,
    why: u32,
) -> Onward
    ensures { ◌≡◌ {A = Started}
        (record { task = record_of task.new; upper = upper_of task.new; reply = result.reply; touch = result.touch })
        (started_by pooled slots (upper_of task.old) (record_of task.old) (judged (record_of task.old) s why)) }
{
    if why != 0 {
        return Onward {
            reply: engine::reply(Err(Refusal { number: why })),
            touch: crate::plan(pooled, slots, task),
        };
    }
    let call = first_call(s);
    *task = layout::record_row(call, task[9]);
    Onward {
        reply: engine::reply(Ok(Answer::Running(call.place))),
        touch: first_plan(pooled, slots, s),
    }
}

/// What a start comes to once its touch of kind `act` has found a word.
#[tactic(auto, unfolding(threads_model::specs::Starts::settle_start))]
pub fn settle_start(
    slots: u64,
    pooled: u64,
    task: &mut [u64; layout::RECORD_WORDS],
    s: Start,
    act: u32,
    found: u64,
) -> Onward
    ensures { ◌≡◌ {A = Started}
        (record { task = record_of task.new; upper = upper_of task.new; reply = result.reply; touch = result.touch })
        (started_by pooled slots (upper_of task.old) (record_of task.old)
        (settle_start (record_of task.old) s act found)) }
{
    let late = refusal::late(found);
    if (act == 1) & (s.operation == 0) {
        return Onward {
            reply: Reply {
                code: 0,
                label: 0,
                value: 0,
            },
            touch: at_slot(late, s),
        };
    }
    decides(slots, pooled, task, s, why_not(act, found, late))
}

/// A start whose Anchor is loaded: refused by its own numbers and record, or what it comes to.
#[tactic(auto, using(crate::proofs::Starting::loaded_on))]
pub fn start_loaded(
    slots: u64,
    pooled: u64,
    task: &mut [u64; layout::RECORD_WORDS],
    s: Start,
    found: u64,
) -> Onward
    ensures { ◌≡◌ {A = Started}
        (record { task = record_of task.new; upper = upper_of task.new; reply = result.reply; touch = result.touch })
        (loaded_by pooled slots (upper_of task.old) (record_of task.old) s found) }
{
    let why = own_refusal(pooled, slots, task, s);
    if why != 0 {
        return crate::refused(why);
    }
    settle_start(slots, pooled, task, s, 1, found)
}

/// What a start does first: ZC_NO_TOUCH with its refusal, or it loads Anchor. For C and Rust.
#[unsafe(no_mangle)]
pub extern "C" fn zc_plan_start(
    slots: u64,
    pooled: u64,
    task: &[u64; layout::RECORD_WORDS],
    words: &[u64; START_WORDS],
) -> PlannedTouch
    ensures { result ≡ plan_start pooled slots (call_of task.now) (start_of words.now) }
{
    plan_start(pooled, slots, task, start_of(*words))
}

/// What a start comes to once its touch of kind `act` has found a word: one more touch (the reply's code
/// is then 0), or its outcome and the plan of the record as it then is. For C and
/// Rust.
#[unsafe(no_mangle)]
pub extern "C" fn zc_settle_start(
    slots: u64,
    pooled: u64,
    task: &mut [u64; layout::RECORD_WORDS],
    words: &[u64; START_WORDS],
    act: u32,
    found: u64,
) -> Onward
    ensures { ◌≡◌ {A = Started}
        (record { task = record_of task.new; upper = upper_of task.new; reply = result.reply; touch = result.touch })
        (started_by pooled slots (upper_of task.old) (record_of task.old)
        (settle_start (record_of task.old) (start_of words.now) act found)) }
{
    settle_start(slots, pooled, task, start_of(*words), act, found)
}
