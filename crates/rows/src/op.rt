//! One operation of one task over rows: its starts, and a start or step, whichever it is.
ghost use mathlib.Core.{Path.◌≡◌, Bool.cond};
ghost use Rattle.std.specs.Prelude.{set};
ghost use Rattle.model.specs.{declared.Op.TheVariants.{Push, Pop, PushPooled}, Calls.{Done, act}, Ends.is_moved};
ghost use Rattle.layout.specs.Rows.{uppers_of, queue_in, writes_row};

use calls::start;
use layout::{CONTROL_WORDS, RECORD_WORDS};
use model::{Op, Outcome};
use sound::Lengths;

/// Starts a push of a label in a slot.
pub fn push(
    control: &[u64; CONTROL_WORDS],
    records: &mut [[u64; RECORD_WORDS]],
    task: usize,
    side: u64,
    slot: u64,
    label: u32,
    lefts: &[u64],
    rights: &[u64],
    labels: &mut [u32],
    marks: &mut [u64],
    next: &[u64],
) -> Outcome
    ensures fact { ◌≡◌ {A = Done}
        (record {
          queue = queue_in control.now records.new
              lefts.now rights.now labels.new marks.new next.now;
          outcome = result;
        })
        (act (queue_in control.now records.old
        lefts.now rights.now labels.old marks.old next.now)
        task (Push side slot label)) }
    ensures records_after { uppers_of records.new ≡ cond (is_moved result) (set (uppers_of records.old) task 0) (uppers_of records.old) }
{
    let row = *control;
    let c = layout::control_of(row);
    let r = layout::call_at(records, task);
    let t = Lengths::of(records.len(), lefts, rights, labels, marks, next);
    let m = start::push_start(c, r, task, side, slot, label, t, labels, marks);
    crate::store_start(records, task, m);
    m.outcome
}

/// Starts a push that names no slot.
pub fn push_pooled(
    control: &[u64; CONTROL_WORDS],
    records: &mut [[u64; RECORD_WORDS]],
    task: usize,
    side: u64,
    label: u32,
    lefts: &[u64],
    rights: &[u64],
    labels: &[u32],
    marks: &[u64],
    next: &[u64],
) -> Outcome
    ensures fact { ◌≡◌ {A = Done}
        (record {
          queue = queue_in control.now records.new
              lefts.now rights.now labels.now marks.now next.now;
          outcome = result;
        })
        (act (queue_in control.now records.old
        lefts.now rights.now labels.now marks.now next.now)
        task (PushPooled side label)) }
    ensures records_after { uppers_of records.new ≡ cond (is_moved result) (set (uppers_of records.old) task 0) (uppers_of records.old) }
{
    let row = *control;
    let c = layout::control_of(row);
    let r = layout::call_at(records, task);
    let t = Lengths::of(records.len(), lefts, rights, labels, marks, next);
    let m = start::push_pooled_start(c, r, task, side, label, t);
    crate::store_start(records, task, m);
    m.outcome
}

/// Starts a pop.
pub fn pop(
    control: &[u64; CONTROL_WORDS],
    records: &mut [[u64; RECORD_WORDS]],
    task: usize,
    side: u64,
    lefts: &[u64],
    rights: &[u64],
    labels: &[u32],
    marks: &[u64],
    next: &[u64],
) -> Outcome
    ensures fact { ◌≡◌ {A = Done}
        (record {
          queue = queue_in control.now records.new
              lefts.now rights.now labels.now marks.now next.now;
          outcome = result;
        })
        (act (queue_in control.now records.old
        lefts.now rights.now labels.now marks.now next.now)
        task (Pop side)) }
    ensures records_after { uppers_of records.new ≡ cond (is_moved result) (set (uppers_of records.old) task 0) (uppers_of records.old) }
{
    let row = *control;
    let c = layout::control_of(row);
    let r = layout::call_at(records, task);
    let t = Lengths::of(records.len(), lefts, rights, labels, marks, next);
    let m = start::pop_start(c, r, task, side, t);
    crate::store_start(records, task, m);
    m.outcome
}

/// A start or step.
pub fn operate(
    control: &mut [u64; CONTROL_WORDS],
    records: &mut [[u64; RECORD_WORDS]],
    task: usize,
    op: Op,
    lefts: &mut [u64],
    rights: &mut [u64],
    labels: &mut [u32],
    marks: &mut [u64],
    next: &mut [u64],
) -> Outcome
    ensures fact { ◌≡◌ {A = Done}
        (record {
          queue =
              queue_in control.new records.new
              lefts.new rights.new labels.new marks.new next.new;
          outcome = result;
        })
        (act
        (queue_in control.old records.old
        lefts.old rights.old labels.old marks.old next.old)
        task op) }
    ensures records_after { uppers_of records.new ≡ cond (writes_row op result) (set (uppers_of records.old) task 0) (uppers_of records.old) }
{
    match op {
        Op::Push { side, slot, label } => push(
            control, records, task, side, slot, label, lefts, rights, labels, marks, next,
        ),
        Op::Pop { side } => pop(
            control, records, task, side, lefts, rights, labels, marks, next,
        ),
        Op::PushPooled { side, label } => push_pooled(
            control, records, task, side, label, lefts, rights, labels, marks, next,
        ),
        Op::Step => crate::step(control, records, task, lefts, rights, labels, marks, next),
    }
}
