//! The step of one admitted record for callers that hold control and record by value: in rows of its own, and back.
ghost use Rattle.std.specs.Prelude.{◌≡◌};
ghost use Rattle.model.specs.Tables.{tables_of};
ghost use Rattle.model.specs.Calls as calls;
ghost use Rattle.engine.specs.StepAdmitted.{step_admitted};

use model::{Control, Outcome, Record};

/// What a step leaves of control and its task's record, and its outcome.
#[derive(Clone, Copy)]
pub struct Stepped {
    pub control: Control,
    pub task: Record,
    pub outcome: Outcome,
}

/// The step of a record once it is admitted.
pub fn step_by_value(
    c: Control,
    t: Record,
    lefts: &mut [u64],
    rights: &mut [u64],
    labels: &mut [u32],
    marks: &mut [u64],
    next: &mut [u64],
) -> Stepped
    ensures { ◌≡◌ {A = calls.Acted}
        (record {
          tables = tables_of result.control lefts.new rights.new labels.new marks.new next.new;
          task = result.task;
          outcome = result.outcome;
        })
        (step_admitted (tables_of c lefts.old rights.old labels.old marks.old next.old) t) }
{
    let mut words = layout::control_row(c);
    let r = t.call;
    let mut row = layout::record_row(r, t.retries);
    let outcome = crate::moving::move_row(&mut words, &mut row, lefts, rights, labels, marks, next);
    let control = layout::control_of(words);
    let call = layout::call_of(row);
    let retries = layout::retries_of(row);
    Stepped {
        control,
        task: Record { call, retries },
        outcome,
    }
}
