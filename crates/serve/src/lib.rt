//! A queue opened in lent tables, and a list of operations carried out on it from lent memory, for C and Rust.
//!
//! It opens and acts by the exported calls themselves (`capi`), and what it answers and leaves is `run` and `final` of just
//! that list (`specs/History.antt` of `model`). So its contract states the theorems on histories of what ships: demand 3,
//! that 34 never occurs, that the tasks' counts add up to the failed changes, that every label is accounted for, each by
//! itself and all in one sum (#114), and that *no slot* is answered only where every slot is in use.
#![tactic(auto)]

mod reply;
mod request;
mod turn;

ghost use mathlib.Core.{Path.◌≡◌, Bool.not};
ghost use Rattle.std.specs.Prelude.{◌*◌, ◌≤◌};
ghost use lib.{Dec.eqb, ListN.length};
ghost use Rattle.serve.specs.{Requests.requests_of, Serving.{state_in, served, count_after, Serves}};

/// The words of a request, and of a reply.
const REQUEST_WORDS: usize = 5;

const REPLY_WORDS: usize = 3;

/// What the opening answered, and how many requests were carried out.
#[repr(C)]
#[derive(Clone, Copy)]
pub struct ServeReply {
    /// 0, or the number of a refusal; served is then 0.
    pub code: u64,
    pub served: u64,
}

// How many operations follow an opening that answers `code`, by the lengths of requests and replies.
fn count_after(code: u32, requests: usize, replies: usize) -> usize
    ensures { result ≡ count_after code requests replies }
{
    if code != 0 {
        return 0;
    }
    (requests / REQUEST_WORDS).min(replies / REPLY_WORDS)
}

// The first `count` requests, in order.
fn carry_out(
    control: &mut [u64; layout::CONTROL_WORDS],
    records: &mut [[u64; layout::RECORD_WORDS]],
    count: usize,
    requests: &[u64],
    replies: &mut [u64],
    lefts: &mut [u64],
    rights: &mut [u64],
    labels: &mut [u32],
    marks: &mut [u64],
    next: &mut [u64],
)
    requires { (5 * count ≤ length requests.now) × (3 * count ≤ length replies.old) }
    ensures { state_in control.new records.new replies.new
        lefts.new rights.new labels.new marks.new next.new
        ≡ served 0
        (state_in control.old records.old replies.old
        lefts.old rights.old labels.old marks.old next.old)
        (requests_of count requests.now) }
{
    for i in 0..count {
        let request = request::request_at(requests, i);
        let r = turn::take_turn(
            control, records, request, lefts, rights, labels, marks, next,
        );
        reply::write_reply(replies, i, r);
    }
}

/// Opens a queue, a named one if `pooled` is 0 and else a pooled one, and carries out as many requests as there are and have
/// room for a reply. A request is five words: task, operation (0 push, 1 pop, 2 a push that names no slot, any other a
/// step), side, slot, label. A reply is three: code, label, value.
#[unsafe(no_mangle)]
pub extern "C" fn zc_serve(
    control: &mut [u64; layout::CONTROL_WORDS],
    records: &mut [[u64; layout::RECORD_WORDS]],
    pooled: u64,
    tasks: u64,
    slots: u64,
    tag: u32,
    requests: &[u64],
    replies: &mut [u64],
    lefts: &mut [u64],
    rights: &mut [u64],
    labels: &mut [u32],
    marks: &mut [u64],
    next: &mut [u64],
) -> ServeReply
    ensures { Serves (not (eqb pooled 0)) tasks slots tag requests.now
        (state_in control.old records.old replies.old
        lefts.old rights.old labels.old marks.old next.old)
        (state_in control.new records.new replies.new
        lefts.new rights.new labels.new marks.new next.new)
        result }
{
    let code = turn::open_as(
        control,
        records,
        pooled != 0,
        tasks,
        slots,
        tag,
        lefts,
        rights,
        labels,
        marks,
        next,
    );
    let count = count_after(code, requests.len(), replies.len());
    carry_out(
        control, records, count, requests, replies, lefts, rights, labels, marks, next,
    );
    ServeReply {
        code: code as u64,
        served: count as u64,
    }
}
