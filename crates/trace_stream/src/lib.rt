//! The trace of a run file from a reader, written out as the file comes.
//!
//! What the system reads (`refill`) and writes (`pages`) is in no contract; what is between is proved.
#![tactic(auto)]

mod refill;

ghost use Rattle.std.specs.Prelude.{◌≤◌, ◌<◌, ◌-◌, IfOk};
ghost use mathlib.Core.{Path.◌≡◌};
ghost use lib.{ListN.{length, take}, Seq.slice};
ghost use Rattle.runfile.specs.Field.{longest_field};
ghost use Rattle.trace_field.specs.Page.{page_of, field_room};
ghost use Rattle.trace_replay.specs.{Feed.Zeros, Pieces.Gone};
ghost use Rattle.trace_stream.specs.Round.{Round};

use std::io::{Read, Write};
use std::ops::ControlFlow;
use trace_field::RunState;

/// Why a trace is not whole.
#[derive(Clone, Copy, Debug, PartialEq, Eq)]
enum Fault {
    Read,
    Write,
    /// No input is so long: the count of reads has run out.
    Count,
}

// Reads behind the bytes that are left, and takes them all, or the end of the input. The buffer has room, so a zero-byte read means end of
// input. The answer is whether to read on, and how many bytes the input holds: where the run goes on, those from `s.at` on are left.
fn take_round<R: Read, W: Write>(
    reader: &mut R,
    writer: &mut W,
    s: &mut RunState,
    input: &mut [u8],
    have: usize,
    out: &mut [u8],
    rows: &mut [[u64; layout::RECORD_WORDS]],
    lefts: &mut [u64],
    rights: &mut [u64],
    labels: &mut [u32],
    marks: &mut [u64],
    next: &mut [u64],
) -> Result<ControlFlow<usize, usize>, Fault>
    requires { (have ≤ length input.old) × (have - s.old.at < length input.old) }
    ensures input_after { take (have - s.old.at) input.new ≡ slice s.old.at have input.old }
    ensures run_after { IfOk result (Round (slice s.old.at have input.old) input.new
        (page_of s.old out.old rows.old lefts.old rights.old labels.old marks.old next.old)
        (page_of s.new out.new rows.new lefts.new rights.new labels.new marks.new next.new)) }
{
    let left = have.saturating_sub(s.at);
    let full = refill::refill(reader, input, s.at, have)?;
    if full == left {
        trace_pages::end(writer, s, left, out).map_err(|_| Fault::Write)?;
        return Ok(ControlFlow::Break(full));
    }
    let bytes = &input[..full];
    trace_pages::take_piece(
        writer, s, bytes, out, rows, lefts, rights, labels, marks, next,
    )
    .map_err(|_| Fault::Write)?;
    if s.over {
        return Ok(ControlFlow::Break(full));
    }
    Ok(ControlFlow::Continue(full))
}

// Reads and writes until the file ends, or the run. The input is so long that a read always has room behind what is left.
fn rounds<R: Read, W: Write>(
    reader: &mut R,
    writer: &mut W,
    input: &mut [u8],
    out: &mut [u8],
    rows: &mut [[u64; layout::RECORD_WORDS]],
    lefts: &mut [u64],
    rights: &mut [u64],
    labels: &mut [u32],
    marks: &mut [u64],
    next: &mut [u64],
) -> Result<RunState, Fault>
    requires longest_field_in_bounds { longest_field ≤ length input.old }
    requires field_room_in_bounds { field_room ≤ length out.old }
    requires zeros { Zeros rows.old lefts.old rights.old labels.old marks.old next.old }
    ensures { IfOk result (λ s. Gone out.old (page_of s out.new rows.new
        lefts.new rights.new labels.new marks.new next.new)) }
{
    let (mut s, written) = trace_pages::begin(writer, out);
    written.map_err(|_| Fault::Write)?;
    let mut have = 0;
    // A proved loop has to end, and nothing says that the input does: a count that no run uses up.
    for _ in 0..u64::MAX {
        let turn = take_round(
            reader, writer, &mut s, input, have, out, rows, lefts, rights, labels, marks, next,
        )?;
        match turn {
            ControlFlow::Continue(full) => have = full,
            ControlFlow::Break(_) => return Ok(s),
        }
    }
    Err(Fault::Count)
}

/// The whole of the file that the reader gives, over buffers and tables of its own. Where it cannot be read, or its trace not written,
/// that is told to `errors`.
pub fn trace<R: Read, W: Write, E: Write>(reader: &mut R, writer: &mut W, errors: &mut E) {
    let mut input = [0u8; 65536];
    let mut output = [0u8; 589824];
    let mut rows = [[0u64; layout::RECORD_WORDS]; 16];
    let mut lefts = [0u64; 1024];
    let mut rights = [0u64; 1024];
    let mut labels = [0u32; 1024];
    let mut marks = [0u64; 16];
    let mut next = [0u64; 1024];
    let done = rounds(
        reader,
        writer,
        &mut input,
        &mut output,
        &mut rows,
        &mut lefts,
        &mut rights,
        &mut labels,
        &mut marks,
        &mut next,
    );
    let told: &[u8] = match done {
        Err(Fault::Read) => b"trace: cannot read\n",
        Err(Fault::Write) => b"trace: cannot write\n",
        Ok(_) | Err(Fault::Count) => return,
    };
    // Where the errors cannot be written either, nothing is left to tell.
    let _ = errors.write_all(told);
}
