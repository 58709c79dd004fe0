//! The next schedule for C and Rust: the call of crate `schedule`, in an archive of its own.
#![tactic(auto)]

ghost use mathlib.Core.Path.{◌≡◌};
ghost use Rattle.model.specs.Tables.{tables_of};
ghost use Rattle.layout.specs.Rows.{control_of, records_of};
ghost use Rattle.schedule.specs.Answered.{Answered, answered};

use schedule_model::ScheduleReply;

/// One call for C and Rust, with control and records lent as rows of words.
#[unsafe(no_mangle)]
pub extern "C" fn zc_next_schedule(
    control: &[u64; layout::CONTROL_WORDS],
    records: &[[u64; layout::RECORD_WORDS]],
    schedule: &mut [u64],
    lefts: &mut [u64],
    rights: &mut [u64],
    labels: &mut [u32],
    marks: &mut [u64],
    next: &mut [u64],
) -> ScheduleReply
    ensures { ◌≡◌ {A = Answered}
        (record {
          handed = record { reply = result; memory = schedule.new };
          tables = tables_of (control_of control.now)
              lefts.new rights.new labels.new marks.new next.new;
        })
        (answered
        (tables_of (control_of control.now) lefts.old rights.old labels.old marks.old next.old)
        (records_of records.now) schedule.old) }
{
    schedule::zc_next_schedule(
        control, records, schedule, lefts, rights, labels, marks, next,
    )
}
