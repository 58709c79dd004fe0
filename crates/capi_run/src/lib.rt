//! A task stepped until it answers, for C and Rust. It has an archive of its own: a step that two calls
//! of one archive share is compiled once and not into either, which makes both slower.
#![tactic(auto)]

ghost use Rattle.std.specs.Prelude.{◌≡◌, get_or};
ghost use Rattle.model.specs.Outcomes.{Moved};
ghost use Rattle.model.specs.{declared.Answer.TheVariants.Running, Tables.unused};
ghost use Rattle.model.specs.Solo.{solo_run};
ghost use Rattle.layout.specs.Rows.{queue_in, records_of, uppers_of};
ghost use Rattle.capi_run.specs.Replies.{run_reply_of, Ran, ran};

use model::{Answer, Outcome, Refusal};

/// An outcome in numbers, and the steps made.
#[repr(C)]
#[derive(Clone, Copy)]
pub struct RunReply {
    /// 1 running, 2 pushed, 3 empty, 4 popped, 5 no slot, or the number of a refusal.
    pub code: u32,
    /// The label popped.
    pub label: u32,
    /// The next place, or the slot popped.
    pub value: u64,
    pub steps: u64,
}

fn run_reply(o: Outcome, steps: u64) -> RunReply
    ensures { result ≡ run_reply_of o steps }
{
    let r = engine::reply(o);
    RunReply {
        code: r.code,
        label: r.label,
        value: r.value,
        steps,
    }
}

/// No further step is made: the task is running at its place.
fn resting(records: &[[u64; layout::RECORD_WORDS]], task: usize, steps: u64) -> RunReply
    ensures { result ≡ run_reply_of (Moved (Running (get_or (records_of records.now) task unused).call.place)) steps }
{
    let r = layout::call_at(records, task);
    run_reply(Ok(Answer::Running(r.place)), steps)
}

/// A run of no steps: what its first step would be refused by, else the task is running at its place.
fn run_of_none(
    control: &[u64; layout::CONTROL_WORDS],
    records: &[[u64; layout::RECORD_WORDS]],
    task: usize,
    lefts: &[u64],
    rights: &[u64],
    labels: &[u32],
    marks: &[u64],
    next: &[u64],
) -> RunReply
    ensures { let d = solo_run 0
        (queue_in control.now records.now
        lefts.now rights.now labels.now marks.now next.now)
        task in result ≡ run_reply_of d.outcome d.steps }
{
    let c = layout::control_of(*control);
    let r = layout::call_at(records, task);
    let why = asking::refusal(
        c,
        r,
        records.len(),
        task,
        lefts,
        rights,
        labels,
        marks,
        next,
    );
    if why != 0 {
        return run_reply(Err(Refusal { number: why }), 0);
    }
    resting(records, task, 0)
}

/// Moves a task until a step doesn't answer running, `most` steps at the most. It is refused by what its
/// first step is refused by, or would be, and then nothing is changed; a later step that is refused is not
/// made, and ends the run.
#[unsafe(no_mangle)]
pub extern "C" fn zc_run(
    control: &mut [u64; layout::CONTROL_WORDS],
    records: &mut [[u64; layout::RECORD_WORDS]],
    task: usize,
    most: u64,
    lefts: &mut [u64],
    rights: &mut [u64],
    labels: &mut [u32],
    marks: &mut [u64],
    next: &mut [u64],
) -> RunReply
    ensures { ◌≡◌ {A = Ran}
        (record {
          queue = queue_in control.new records.new
              lefts.new rights.new labels.new marks.new next.new;
          uppers = uppers_of records.new;
          reply = result;
        })
        (ran task (uppers_of records.old)
        (solo_run most
        (queue_in control.old records.old
        lefts.old rights.old labels.old marks.old next.old)
        task)) }
{
    if most == 0 {
        return run_of_none(control, records, task, lefts, rights, labels, marks, next);
    }
    for steps in 0..most {
        let o = rows::step(control, records, task, lefts, rights, labels, marks, next);
        if !engine::runs(o) {
            if engine::moves(o) {
                return run_reply(o, steps + 1);
            }
            if steps == 0 {
                return run_reply(o, 0);
            }
            return resting(records, task, steps);
        }
    }
    resting(records, task, most)
}
