//! A task stepped until it answers for C and Rust: the call of crate `capi_run`, in an archive of its own.
#![tactic(auto)]

ghost use Rattle.std.specs.Prelude.{◌≡◌};
ghost use Rattle.model.specs.Solo.{solo_run};
ghost use Rattle.layout.specs.Rows.{queue_in, uppers_of};
ghost use Rattle.capi_run.specs.Replies.{Ran, ran};

use capi_run::RunReply;

/// Moves a task until a step doesn't answer running, `most` steps at the most. It is refused by what its
/// first step is refused by, or would be, and then nothing is changed; a later step that is refused is not
/// made, and ends the run.
#[unsafe(no_mangle)]
pub extern "C" fn zc_run(
    control: &mut [u64; layout::CONTROL_WORDS],
    records: &mut [[u64; layout::RECORD_WORDS]],
    task: usize,
    most: u64,
    lefts: &mut [u64],
    rights: &mut [u64],
    labels: &mut [u32],
    marks: &mut [u64],
    next: &mut [u64],
) -> RunReply
    ensures { ◌≡◌ {A = Ran}
        (record {
          queue = queue_in control.new records.new
              lefts.new rights.new labels.new marks.new next.new;
          uppers = uppers_of records.new;
          reply = result;
        })
        (ran task (uppers_of records.old)
        (solo_run most
        (queue_in control.old records.old
        lefts.old rights.old labels.old marks.old next.old)
        task)) }
{
    capi_run::zc_run(
        control, records, task, most, lefts, rights, labels, marks, next,
    )
}
