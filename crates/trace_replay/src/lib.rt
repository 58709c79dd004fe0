//! A run file carried out on lent tables, its trace written into a lent buffer.
//!
//! What a whole file prints is `trace_of` of `specs/Trace.antt`. `begin`, `feed` and `finish` write just
//! that, in whatever pieces the file comes; reading it and writing the buffer out is left to the program.
#![tactic(auto)]

ghost use mathlib.Core.{Path.◌≡◌, List.List};
ghost use Rattle.std.specs.Prelude.{ℕ};
ghost use Rattle.trace_field.specs.Page.{page_of};
ghost use Rattle.trace_replay.specs.Feed.{feed_page, finish_page, Begins};

use model::Control;
use trace_field::RunState;

/// Every whole field from the reading position on, while the buffer has room for the lines of any one.
pub fn feed(
    s: RunState,
    bytes: &[u8],
    out: &mut [u8],
    rows: &mut [[u64; layout::RECORD_WORDS]],
    lefts: &mut [u64],
    rights: &mut [u64],
    labels: &mut [u32],
    marks: &mut [u64],
    next: &mut [u64],
) -> RunState
    ensures { page_of result out.new rows.new
        lefts.new rights.new labels.new marks.new next.new
        ≡ feed_page bytes.now
        (page_of s out.old rows.old
        lefts.old rights.old labels.old marks.old next.old) }
{
    let mut q = s;
    while !q.over {
        let at = q.at;
        q = trace_field::take(q, bytes, out, rows, lefts, rights, labels, marks, next);
        if q.at == at {
            return q;
        }
    }
    q
}

/// The end of the file, where so many bytes are left. Nothing is done where the buffer has no room for a line.
#[tactic(auto, unfolding(crate::specs::Feed::finish_page))]
pub fn finish(s: RunState, left: usize, out: &mut [u8]) -> RunState
    ensures { (ws : List (List ℕ)) (ls rs bs ms ns : List ℕ)
        → page_of result out.new ws ls rs bs ms ns ≡ finish_page left (page_of s out.old ws ls rs bs ms ns) }
{
    if s.over || (s.opened && left == 0) {
        return s;
    }
    trace_field::malformed(s, out)
}

/// A run over tables that are all zero, of which nothing was read yet, with the trace's first line.
pub fn begin(out: &mut [u8]) -> RunState
    ensures { Begins out.old out.new result }
{
    let to = lines::write_header(out, 0);
    RunState {
        control: Control {
            tasks: 0,
            slots: 0,
            anchor: 0,
            pooled: 0,
            head: 0,
        },
        opened: false,
        over: false,
        event: 0,
        at: 0,
        to,
    }
}
