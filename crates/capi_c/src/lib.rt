//! The label queue for C and Rust: the calls of crate `capi`, in an archive of its own.
#![tactic(auto)]

ghost use mathlib.Core.{List.List, Path.◌≡◌};
ghost use Rattle.std.specs.Prelude.{ℕ};
ghost use Rattle.model.specs.{Calls.{act, open_pooled, open_queue}, Ends.{ends_call, is_moved}, Report.{report, retry_counts}, declared.Op.TheVariants.{Pop, Push, PushPooled, Step}};
ghost use Rattle.layout.specs.Rows.{queue_in, uppers_of};
ghost use Rattle.capi.specs.Replies.{Coded, Replied, coded, replied, report_reply_of};

use capi::ReportReply;
use model::Reply;

/// Starts a push of a label in a slot, for a task.
#[unsafe(no_mangle)]
pub extern "C" fn zc_push(
    control: &[u64; layout::CONTROL_WORDS],
    records: &mut [[u64; layout::RECORD_WORDS]],
    task: usize,
    side: u64,
    slot: u64,
    label: u32,
    lefts: &[u64],
    rights: &[u64],
    labels: &mut [u32],
    marks: &mut [u64],
    next: &[u64],
) -> Reply
    ensures { ◌≡◌ {A = Replied}
        (record {
          queue = queue_in control.now records.new
              lefts.now rights.now labels.new marks.new next.now;
          uppers = uppers_of records.new;
          reply = result;
        })
        (replied is_moved task (uppers_of records.old)
        (act (queue_in control.now records.old
        lefts.now rights.now labels.old marks.old next.now)
        task (Push side slot label))) }
{
    capi::zc_push(
        control, records, task, side, slot, label, lefts, rights, labels, marks, next,
    )
}

/// Starts a push that names no slot: it draws one from the stack.
#[unsafe(no_mangle)]
pub extern "C" fn zc_push_pooled(
    control: &[u64; layout::CONTROL_WORDS],
    records: &mut [[u64; layout::RECORD_WORDS]],
    task: usize,
    side: u64,
    label: u32,
    lefts: &[u64],
    rights: &[u64],
    labels: &[u32],
    marks: &[u64],
    next: &[u64],
) -> Reply
    ensures { ◌≡◌ {A = Replied}
        (record {
          queue = queue_in control.now records.new
              lefts.now rights.now labels.now marks.now next.now;
          uppers = uppers_of records.new;
          reply = result;
        })
        (replied is_moved task (uppers_of records.old)
        (act (queue_in control.now records.old
        lefts.now rights.now labels.now marks.now next.now)
        task (PushPooled side label))) }
{
    capi::zc_push_pooled(
        control, records, task, side, label, lefts, rights, labels, marks, next,
    )
}

/// Starts a pop for a task.
#[unsafe(no_mangle)]
pub extern "C" fn zc_pop(
    control: &[u64; layout::CONTROL_WORDS],
    records: &mut [[u64; layout::RECORD_WORDS]],
    task: usize,
    side: u64,
    lefts: &[u64],
    rights: &[u64],
    labels: &[u32],
    marks: &[u64],
    next: &[u64],
) -> Reply
    ensures { ◌≡◌ {A = Replied}
        (record {
          queue = queue_in control.now records.new
              lefts.now rights.now labels.now marks.now next.now;
          uppers = uppers_of records.new;
          reply = result;
        })
        (replied is_moved task (uppers_of records.old)
        (act (queue_in control.now records.old
        lefts.now rights.now labels.now marks.now next.now)
        task (Pop side))) }
{
    capi::zc_pop(
        control, records, task, side, lefts, rights, labels, marks, next,
    )
}

/// Moves a task by one step.
#[unsafe(no_mangle)]
pub extern "C" fn zc_step(
    control: &mut [u64; layout::CONTROL_WORDS],
    records: &mut [[u64; layout::RECORD_WORDS]],
    task: usize,
    lefts: &mut [u64],
    rights: &mut [u64],
    labels: &mut [u32],
    marks: &mut [u64],
    next: &mut [u64],
) -> Reply
    ensures { ◌≡◌ {A = Replied}
        (record {
          queue = queue_in control.new records.new
              lefts.new rights.new labels.new marks.new next.new;
          uppers = uppers_of records.new;
          reply = result;
        })
        (replied ends_call task (uppers_of records.old)
        (act (queue_in control.old records.old
        lefts.old rights.old labels.old marks.old next.old)
        task Step)) }
{
    capi::zc_step(control, records, task, lefts, rights, labels, marks, next)
}

/// Tells the fields of Anchor, the busy tasks, the labels waiting, the slots taken and each task's retries. Each arm returns
/// its answer: one that both arms make is copied once more.
#[unsafe(no_mangle)]
pub extern "C" fn zc_report(
    control: &[u64; layout::CONTROL_WORDS],
    records: &[[u64; layout::RECORD_WORDS]],
    lefts: &[u64],
    rights: &[u64],
    labels: &[u32],
    marks: &[u64],
    next: &[u64],
) -> ReportReply
    ensures { let q = queue_in control.now records.now
        lefts.now rights.now labels.now marks.now next.now in
        result ≡ report_reply_of (report q) (retry_counts q) }
{
    capi::zc_report(control, records, lefts, rights, labels, marks, next)
}

/// Opens a named queue: 0, or the number of a refusal. Whatever the next rows, they keep their values.
#[unsafe(no_mangle)]
pub extern "C" fn zc_open(
    control: &mut [u64; layout::CONTROL_WORDS],
    records: &mut [[u64; layout::RECORD_WORDS]],
    tasks: u64,
    slots: u64,
    tag: u32,
    lefts: &mut [u64],
    rights: &mut [u64],
    labels: &mut [u32],
    marks: &mut [u64],
) -> u32
    ensures { (next : List ℕ) → ◌≡◌ {A = Coded}
        (record {
          queue = queue_in control.new records.new lefts.new rights.new labels.new marks.new next;
          uppers = uppers_of records.new;
          code = result;
        })
        (coded tasks (uppers_of records.old)
        (open_queue (queue_in control.old records.old
        lefts.old rights.old labels.old marks.old next)
        tasks slots tag)) }
{
    capi::openings::zc_open(
        control, records, tasks, slots, tag, lefts, rights, labels, marks,
    )
}

/// Opens a pooled queue, all its slots stacked: 0, or the number of a refusal.
#[unsafe(no_mangle)]
pub extern "C" fn zc_open_pooled(
    control: &mut [u64; layout::CONTROL_WORDS],
    records: &mut [[u64; layout::RECORD_WORDS]],
    tasks: u64,
    slots: u64,
    tag: u32,
    lefts: &mut [u64],
    rights: &mut [u64],
    labels: &mut [u32],
    marks: &mut [u64],
    next: &mut [u64],
) -> u32
    ensures { ◌≡◌ {A = Coded}
        (record {
          queue = queue_in control.new records.new
              lefts.new rights.new labels.new marks.new next.new;
          uppers = uppers_of records.new;
          code = result;
        })
        (coded tasks (uppers_of records.old)
        (open_pooled (queue_in control.old records.old
        lefts.old rights.old labels.old marks.old next.old)
        tasks slots tag)) }
{
    capi::openings::zc_open_pooled(
        control, records, tasks, slots, tag, lefts, rights, labels, marks, next,
    )
}
