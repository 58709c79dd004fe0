//! The opening and the operations, each by the exported call that carries it out.
ghost use Rattle.std.specs.Prelude.{◌≡◌};
ghost use Rattle.model.specs.Calls.{open_as, act};
ghost use Rattle.layout.specs.Rows.{queue_in, uppers_of, writes_row};
ghost use Rattle.capi.specs.Replies.{Coded, coded, Replied, replied};

use crate::request::Request;
use model::{Op, Reply};

/// Opens a queue, a pooled or a named one: 0, or the number of a refusal.
pub fn open_as(
    control: &mut [u64; layout::CONTROL_WORDS],
    records: &mut [[u64; layout::RECORD_WORDS]],
    pooled: bool,
    tasks: u64,
    slots: u64,
    tag: u32,
    lefts: &mut [u64],
    rights: &mut [u64],
    labels: &mut [u32],
    marks: &mut [u64],
    next: &mut [u64],
) -> u32
    ensures { ◌≡◌ {A = Coded}
        (record {
          queue = queue_in control.new records.new lefts.new rights.new
              labels.new marks.new next.new;
          uppers = uppers_of records.new;
          code = result;
        })
        (coded tasks (uppers_of records.old)
        (open_as pooled (queue_in control.old records.old lefts.old rights.old
        labels.old marks.old next.old)
        tasks slots tag)) }
{
    if pooled {
        return capi::openings::zc_open_pooled(
            control, records, tasks, slots, tag, lefts, rights, labels, marks, next,
        );
    }
    capi::openings::zc_open(
        control, records, tasks, slots, tag, lefts, rights, labels, marks,
    )
}

/// Carries out one request: a push, a pop, a push that names no slot, or else a step.
pub fn take_turn(
    control: &mut [u64; layout::CONTROL_WORDS],
    records: &mut [[u64; layout::RECORD_WORDS]],
    request: Request,
    lefts: &mut [u64],
    rights: &mut [u64],
    labels: &mut [u32],
    marks: &mut [u64],
    next: &mut [u64],
) -> Reply
    ensures { ◌≡◌ {A = Replied}
        (record {
          queue = queue_in control.new records.new lefts.new rights.new
              labels.new marks.new next.new;
          uppers = uppers_of records.new;
          reply = result;
        })
        (replied (writes_row request.op) request.task (uppers_of records.old)
        (act (queue_in control.old records.old lefts.old rights.old
        labels.old marks.old next.old)
        request.task request.op)) }
{
    let task = request.task;
    match request.op {
        Op::Push { side, slot, label } => capi::zc_push(
            control, records, task, side, slot, label, lefts, rights, labels, marks, next,
        ),
        Op::Pop { side } => capi::zc_pop(
            control, records, task, side, lefts, rights, labels, marks, next,
        ),
        Op::PushPooled { side, label } => capi::zc_push_pooled(
            control, records, task, side, label, lefts, rights, labels, marks, next,
        ),
        Op::Step => capi::zc_step(control, records, task, lefts, rights, labels, marks, next),
    }
}
