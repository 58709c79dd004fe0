//! The step over a lent control and lent structs, in document 01's two forms: a slice of records, and one
//! record. Rows of words (crate `rows`) take the same way without a proof by hand.
#![tactic(auto)]

ghost use Rattle.std.specs.Prelude.{◌≡◌};
ghost use Rattle.model.specs.{declared.Op.TheVariants.Step, Tables.{tables_of, queue_of}, Calls.{Done, act, step_lent}};
ghost use Rattle.model.specs.Calls as calls;

use model::{Control, Outcome, Record};
use rows::value;
use rows::value::Stepped;
use sound::{Lengths, admission};

/// The step of a record lent alone.
fn step_alone(
    c: Control,
    t: Record,
    lefts: &mut [u64],
    rights: &mut [u64],
    labels: &mut [u32],
    marks: &mut [u64],
    next: &mut [u64],
) -> Stepped
    ensures { ◌≡◌ {A = calls.Acted}
        (record {
          tables = tables_of result.control lefts.new rights.new labels.new marks.new next.new;
          task = result.task;
          outcome = result.outcome;
        })
        (step_lent (tables_of c lefts.old rights.old labels.old marks.old next.old) t) }
{
    let lent = Lengths::of(1, lefts, rights, labels, marks, next);
    let why = admission::admit_alone(c, lent);
    if why != 0 {
        let outcome = engine::refuse(why);
        return Stepped {
            control: c,
            task: t,
            outcome,
        };
    }
    value::step_by_value(c, t, lefts, rights, labels, marks, next)
}

/// Moves a task by one step.
pub fn step(
    control: &mut Control,
    records: &mut [Record],
    task: usize,
    lefts: &mut [u64],
    rights: &mut [u64],
    labels: &mut [u32],
    marks: &mut [u64],
    next: &mut [u64],
) -> Outcome
    ensures { ◌≡◌ {A = Done}
        (record {
          queue = queue_of control.new records.new
              lefts.new rights.new labels.new marks.new next.new;
          outcome = result;
        })
        (act (queue_of control.old records.old
        lefts.old rights.old labels.old marks.old next.old)
        task Step) }
{
    let c = *control;
    let lent = Lengths::of(records.len(), lefts, rights, labels, marks, next);
    let why = admission::admit_step(c, task, lent);
    if why != 0 {
        return engine::refuse(why);
    }
    let record = &mut records[task];
    let t = *record;
    let m = value::step_by_value(c, t, lefts, rights, labels, marks, next);
    *control = m.control;
    *record = m.task;
    m.outcome
}

/// Moves the task of one lent record by one step.
pub fn step_record(
    control: &mut Control,
    task: &mut Record,
    lefts: &mut [u64],
    rights: &mut [u64],
    labels: &mut [u32],
    marks: &mut [u64],
    next: &mut [u64],
) -> Outcome
    ensures { ◌≡◌ {A = calls.Acted}
        (record {
          tables = tables_of control.new lefts.new rights.new labels.new marks.new next.new;
          task = task.new;
          outcome = result;
        })
        (step_lent (tables_of control.old lefts.old rights.old labels.old marks.old next.old)
        task.old) }
{
    let c = *control;
    let t = *task;
    let m = step_alone(c, t, lefts, rights, labels, marks, next);
    *control = m.control;
    *task = m.task;
    m.outcome
}
