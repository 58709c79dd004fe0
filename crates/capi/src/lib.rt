//! The label queue for C and Rust. Control and records are lent as rows of words, which in memory are the
//! structs of the header. The step of one lent record stands in crate `capi_record`.
#![tactic(auto)]

pub mod openings;

ghost use mathlib.Core.{Path.◌≡◌, List.List};
ghost use Rattle.std.specs.Prelude.{ℕ, ◌≤◌, length};
ghost use Rattle.model.specs.{declared.Op.TheVariants.{Push, Pop, PushPooled, Step}, Calls.act};
ghost use Rattle.model.specs.Outcomes.{Refused};
ghost use Rattle.model.specs.Report.{report, retry_counts};
ghost use Rattle.model.specs.Ends.{ends_call, is_moved};
ghost use Rattle.layout.specs.Rows.{queue_in, records_of, uppers_of};
ghost use Rattle.capi.specs.Replies.{report_reply_of, busy_in, counts_in, Replied, replied};

use calls::report;
use model::{Reply, Report};
use rows::op;

/// A report in numbers.
#[repr(C)]
#[derive(Clone, Copy)]
pub struct ReportReply {
    /// 0, or the number of a refusal; the rest is then 0.
    pub code: u64,
    pub tag: u64,
    pub status: u64,
    pub left: u64,
    pub right: u64,
    pub busy: u64,
    pub waiting: u64,
    pub taken: u64,
    /// In task order; 0 beyond the tasks.
    pub retries: [u64; 16],
}

/// Nothing but the number.
fn refused_report(number: u32) -> ReportReply
    ensures { (retries : List ℕ) → result ≡ report_reply_of (Refused number) retries }
{
    ReportReply {
        code: number as u64,
        tag: 0,
        status: 0,
        left: 0,
        right: 0,
        busy: 0,
        waiting: 0,
        taken: 0,
        retries: [0; 16],
    }
}

fn told_report(t: Report, retries: [u64; 16]) -> ReportReply
    ensures { result ≡ report_reply_of (Ok t) retries }
{
    ReportReply {
        code: 0,
        tag: t.anchor.tag,
        status: t.anchor.status,
        left: t.anchor.left,
        right: t.anchor.right,
        busy: t.busy,
        waiting: t.waiting,
        taken: t.taken,
        retries,
    }
}

/// Starts a push of a label in a slot, for a task.
#[unsafe(no_mangle)]
pub extern "C" fn zc_push(
    control: &[u64; layout::CONTROL_WORDS],
    records: &mut [[u64; layout::RECORD_WORDS]],
    task: usize,
    side: u64,
    slot: u64,
    label: u32,
    lefts: &[u64],
    rights: &[u64],
    labels: &mut [u32],
    marks: &mut [u64],
    next: &[u64],
) -> Reply
    ensures { ◌≡◌ {A = Replied}
        (record {
          queue = queue_in control.now records.new
              lefts.now rights.now labels.new marks.new next.now;
          uppers = uppers_of records.new;
          reply = result;
        })
        (replied is_moved task (uppers_of records.old)
        (act (queue_in control.now records.old
        lefts.now rights.now labels.old marks.old next.now)
        task (Push side slot label))) }
{
    let o = op::push(
        control, records, task, side, slot, label, lefts, rights, labels, marks, next,
    );
    engine::reply(o)
}

/// Starts a push that names no slot: it draws one from the stack.
#[unsafe(no_mangle)]
pub extern "C" fn zc_push_pooled(
    control: &[u64; layout::CONTROL_WORDS],
    records: &mut [[u64; layout::RECORD_WORDS]],
    task: usize,
    side: u64,
    label: u32,
    lefts: &[u64],
    rights: &[u64],
    labels: &[u32],
    marks: &[u64],
    next: &[u64],
) -> Reply
    ensures { ◌≡◌ {A = Replied}
        (record {
          queue = queue_in control.now records.new
              lefts.now rights.now labels.now marks.now next.now;
          uppers = uppers_of records.new;
          reply = result;
        })
        (replied is_moved task (uppers_of records.old)
        (act (queue_in control.now records.old
        lefts.now rights.now labels.now marks.now next.now)
        task (PushPooled side label))) }
{
    let o = op::push_pooled(
        control, records, task, side, label, lefts, rights, labels, marks, next,
    );
    engine::reply(o)
}

/// Starts a pop for a task.
#[unsafe(no_mangle)]
pub extern "C" fn zc_pop(
    control: &[u64; layout::CONTROL_WORDS],
    records: &mut [[u64; layout::RECORD_WORDS]],
    task: usize,
    side: u64,
    lefts: &[u64],
    rights: &[u64],
    labels: &[u32],
    marks: &[u64],
    next: &[u64],
) -> Reply
    ensures { ◌≡◌ {A = Replied}
        (record {
          queue = queue_in control.now records.new
              lefts.now rights.now labels.now marks.now next.now;
          uppers = uppers_of records.new;
          reply = result;
        })
        (replied is_moved task (uppers_of records.old)
        (act (queue_in control.now records.old
        lefts.now rights.now labels.now marks.now next.now)
        task (Pop side))) }
{
    let o = op::pop(
        control, records, task, side, lefts, rights, labels, marks, next,
    );
    engine::reply(o)
}

/// Moves a task by one step.
#[unsafe(no_mangle)]
pub extern "C" fn zc_step(
    control: &mut [u64; layout::CONTROL_WORDS],
    records: &mut [[u64; layout::RECORD_WORDS]],
    task: usize,
    lefts: &mut [u64],
    rights: &mut [u64],
    labels: &mut [u32],
    marks: &mut [u64],
    next: &mut [u64],
) -> Reply
    ensures { ◌≡◌ {A = Replied}
        (record {
          queue = queue_in control.new records.new
              lefts.new rights.new labels.new marks.new next.new;
          uppers = uppers_of records.new;
          reply = result;
        })
        (replied ends_call task (uppers_of records.old)
        (act (queue_in control.old records.old
        lefts.old rights.old labels.old marks.old next.old)
        task Step)) }
{
    let o = rows::step(control, records, task, lefts, rights, labels, marks, next);
    engine::reply(o)
}

// What the report tells of the records.
#[derive(Clone, Copy)]
struct Looked {
    busy: u64,
    retries: [u64; 16],
}

// Of the first n records: how many are busy tasks', and all counts, 0 beyond. One loop, so that each record is read once.
fn look(records: &[[u64; layout::RECORD_WORDS]], n: usize) -> Looked
    requires { (n ≤ length records.now) × (n ≤ 16) }
    ensures { (result.busy ≡ busy_in n (records_of records.now)) × (result.retries ≡ counts_in n (records_of records.now)) }
{
    let mut busy = 0;
    let mut retries = [0; 16];
    for (i, row) in records[..n].iter().enumerate() {
        busy += u64::from(layout::call_of(*row).place != 0);
        retries[i] = layout::retries_of(*row);
    }
    Looked { busy, retries }
}

/// Tells the fields of Anchor, the busy tasks, the labels waiting, the slots taken and each task's retries. Each arm returns
/// its answer: one that both arms make is copied once more.
#[unsafe(no_mangle)]
pub extern "C" fn zc_report(
    control: &[u64; layout::CONTROL_WORDS],
    records: &[[u64; layout::RECORD_WORDS]],
    lefts: &[u64],
    rights: &[u64],
    labels: &[u32],
    marks: &[u64],
    next: &[u64],
) -> ReportReply
    ensures { let q = queue_in control.now records.now
        lefts.now rights.now labels.now marks.now next.now in
        result ≡ report_reply_of (report q) (retry_counts q) }
{
    let c = layout::control_of(*control);
    let n = records.len();
    let k = report::to_count(c, n);
    let l = look(records, k);
    let r = report::told(c, n, l.busy, lefts, rights, labels, marks, next);
    match r {
        Err(refusal) => {
            return refused_report(refusal.number);
        }
        Ok(t) => {
            return told_report(t, l.retries);
        }
    }
}
