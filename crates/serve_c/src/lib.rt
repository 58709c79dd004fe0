//! A list of requests for C and Rust: the call of crate `serve`, in an archive of its own.
#![tactic(auto)]

ghost use mathlib.Core.Bool.{not};
ghost use lib.Dec.{eqb};
ghost use Rattle.serve.specs.Serving.{Serves, state_in};

use serve::ServeReply;

/// Opens a queue, a named one if `pooled` is 0 and else a pooled one, and carries out as many requests as there are and have
/// room for a reply. A request is five words: task, operation (0 push, 1 pop, 2 a push that names no slot, any other a
/// step), side, slot, label. A reply is three: code, label, value.
#[unsafe(no_mangle)]
pub extern "C" fn zc_serve(
    control: &mut [u64; layout::CONTROL_WORDS],
    records: &mut [[u64; layout::RECORD_WORDS]],
    pooled: u64,
    tasks: u64,
    slots: u64,
    tag: u32,
    requests: &[u64],
    replies: &mut [u64],
    lefts: &mut [u64],
    rights: &mut [u64],
    labels: &mut [u32],
    marks: &mut [u64],
    next: &mut [u64],
) -> ServeReply
    ensures { Serves (not (eqb pooled 0)) tasks slots tag requests.now
        (state_in control.old records.old replies.old
        lefts.old rights.old labels.old marks.old next.old)
        (state_in control.new records.new replies.new
        lefts.new rights.new labels.new marks.new next.new)
        result }
{
    serve::zc_serve(
        control, records, pooled, tasks, slots, tag, requests, replies, lefts, rights, labels,
        marks, next,
    )
}
