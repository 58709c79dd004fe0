//! The step of one lent record for C and Rust. It has an archive of its own: a step that two calls
//! of one archive share is compiled once and not into either, which makes both slower.
#![tactic(auto)]

ghost use Rattle.std.specs.Prelude.{◌≡◌};
ghost use Rattle.model.specs.{Tables.tables_of, Calls.step_lent};
ghost use Rattle.layout.specs.Rows.{control_of, record_of, upper_of};
ghost use Rattle.capi_record.specs.Replies.{RepliedAlone, replied_alone};

use model::Reply;
use sound::{Lengths, admission};

/// Moves the task of one lent record by one step.
#[unsafe(no_mangle)]
pub extern "C" fn zc_step_record(
    control: &mut [u64; layout::CONTROL_WORDS],
    task: &mut [u64; layout::RECORD_WORDS],
    lefts: &mut [u64],
    rights: &mut [u64],
    labels: &mut [u32],
    marks: &mut [u64],
    next: &mut [u64],
) -> Reply
    ensures { ◌≡◌ {A = RepliedAlone}
        (record {
          tables = tables_of (control_of control.new)
              lefts.new rights.new labels.new marks.new next.new;
          task = record_of task.new;
          upper = upper_of task.new;
          reply = result;
        })
        (replied_alone (upper_of task.old)
        (step_lent
        (tables_of (control_of control.old) lefts.old rights.old labels.old marks.old next.old)
        (record_of task.old))) }
{
    let words = *control;
    let c = layout::control_of(words);
    let t = Lengths::of(1, lefts, rights, labels, marks, next);
    let why = admission::admit_alone(c, t);
    if why != 0 {
        let o = engine::refuse(why);
        return engine::reply(o);
    }
    let o = rows::moving::move_row(control, task, lefts, rights, labels, marks, next);
    engine::reply(o)
}
