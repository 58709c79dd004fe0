//! What `replay` makes of a file, written out: each page once, from the front of the buffer.
//!
//! No contract says that the system writes what it is lent. Where it cannot be written, the error is handed on.
#![tactic(auto)]

ghost use Rattle.std.specs.Prelude.{ℕ, ◌≤◌, length, OnOk};
ghost use mathlib.Core.{Path.◌≡◌, List.List};
ghost use Rattle.trace_field.specs.Page.{page_of};
ghost use Rattle.trace_replay.specs.{Feed.{Begins, first_page}, Pieces.{from_start, next_page, pages_of, last_page}};
ghost use Rattle.trace_pages.specs.Some.{Some};

use std::io;
use std::io::Write;
use trace_field::RunState;

// Writes out the lines.
fn flush<W: Write>(writer: &mut W, out: &[u8], to: usize) -> io::Result<()>
    requires { to ≤ length out.now }
{
    writer.write_all(&out[..to])
}

/// A run before its first field, with the trace's first line in the buffer; and whether that line was written out.
pub fn begin<W: Write>(writer: &mut W, out: &mut [u8]) -> (RunState, io::Result<()>)
    ensures begins { Begins out.old out.new result.0 }
    ensures out_after { out.new ≡ (first_page out.old).out }
{
    let s = trace_replay::begin(out);
    (s, flush(writer, out, s.to))
}

// One call of `feed`, and what its page holds written out.
fn take_page<W: Write>(
    writer: &mut W,
    s: &mut RunState,
    bytes: &[u8],
    out: &mut [u8],
    rows: &mut [[u64; layout::RECORD_WORDS]],
    lefts: &mut [u64],
    rights: &mut [u64],
    labels: &mut [u32],
    marks: &mut [u64],
    next: &mut [u64],
) -> io::Result<()>
    ensures { page_of s.new out.new rows.new
        lefts.new rights.new labels.new marks.new next.new
        ≡ next_page bytes.now
        (page_of s.old out.old rows.old
        lefts.old rights.old labels.old marks.old next.old) }
{
    let front = RunState { to: 0, ..*s };
    *s = trace_replay::feed(front, bytes, out, rows, lefts, rights, labels, marks, next);
    flush(writer, out, s.to)
}

/// Every whole field of the bytes, or those of the first pages, up to one that cannot be written: a page takes none only
/// where none is left.
pub fn take_piece<W: Write>(
    writer: &mut W,
    s: &mut RunState,
    bytes: &[u8],
    out: &mut [u8],
    rows: &mut [[u64; layout::RECORD_WORDS]],
    lefts: &mut [u64],
    rights: &mut [u64],
    labels: &mut [u32],
    marks: &mut [u64],
    next: &mut [u64],
) -> io::Result<()>
    ensures next_after { OnOk result (page_of s.new out.new rows.new
        lefts.new rights.new labels.new marks.new next.new
        ≡ (pages_of bytes.now
        (from_start (page_of s.old out.old rows.old
        lefts.old rights.old labels.old marks.old next.old))).page) }
    ensures some { Some bytes.now
        (from_start (page_of s.old out.old rows.old
        lefts.old rights.old labels.old marks.old next.old))
        (page_of s.new out.new rows.new
        lefts.new rights.new labels.new marks.new next.new) }
{
    s.at = 0;
    // The loop of `trace_replay::feed`, over pages: one function with a closure for both is no plainer, since it would be lent the six tables
    // and the buffer only to hand them to the closure.
    while !s.over {
        let at = s.at;
        take_page(
            writer, s, bytes, out, rows, lefts, rights, labels, marks, next,
        )?;
        if s.at == at {
            return Ok(());
        }
    }
    Ok(())
}

/// The end of the input, where so many bytes are left: the rest of the trace.
pub fn end<W: Write>(
    writer: &mut W,
    s: &mut RunState,
    left: usize,
    out: &mut [u8],
) -> io::Result<()>
    ensures { (ws : List (List ℕ)) (ls rs bs ms ns : List ℕ)
        → page_of s.new out.new ws ls rs bs ms ns ≡ last_page left (page_of s.old out.old ws ls rs bs ms ns) }
{
    *s = trace_replay::finish(RunState { to: 0, ..*s }, left, out);
    flush(writer, out, s.to)
}
