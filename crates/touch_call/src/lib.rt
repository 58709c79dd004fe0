//! What a whole call of a thread is made of, for C and Rust: its start and its settlements. From the start on the record is
//! known to be sound, and is not tested again. An archive of its own: what two calls of an archive share is compiled into
//! neither, and `zc_settle_plan` and `zc_settle_start` of `touch` share a settlement and a start with these.
#![tactic(auto)]

ghost use Rattle.std.specs.Prelude.{◌≡◌};
ghost use Rattle.layout.specs.Rows.{call_of, record_of, upper_of};
ghost use Rattle.threads_model.specs.Split.{plan_unasked, settle_unasked, heard_as};
ghost use Rattle.touch.specs.{Heard.{Replied, replied}, Started.{start_of, Started, loaded_by}};

use touch::{Onward, start};

/// A start whose Anchor is loaded: refused by its own numbers and record, or what it comes to.
#[unsafe(no_mangle)]
pub extern "C" fn zc_start_loaded(
    slots: u64,
    pooled: u64,
    task: &mut [u64; layout::RECORD_WORDS],
    words: &[u64; start::START_WORDS],
    anchor: u64,
) -> Onward
    ensures { ◌≡◌ {A = Started}
        (record { task = record_of task.new; upper = upper_of task.new; reply = result.reply; touch = result.touch })
        (loaded_by pooled slots (upper_of task.old) (record_of task.old) (start_of words.now) anchor) }
{
    let s = start::start_of(*words);
    start::start_loaded(slots, pooled, task, s, anchor)
}

/// Moves a record on once its touch has found the word `found`, and plans the next step; the record is tested for its place
/// alone.
#[unsafe(no_mangle)]
pub extern "C" fn zc_settle_unasked(
    slots: u64,
    pooled: u64,
    task: &mut [u64; layout::RECORD_WORDS],
    found: u64,
) -> Onward
    ensures fact { ◌≡◌ {A = Replied}
        (record { task = record_of task.new; upper = upper_of task.new; reply = result.reply })
        (replied (upper_of task.old)
        (settle_unasked pooled slots (record_of task.old) (heard_as (call_of task.old) found))) }
    ensures touch_value { result.touch ≡ plan_unasked pooled slots (call_of task.new) }
{
    touch::settle_unasked(pooled, slots, task, found)
}
