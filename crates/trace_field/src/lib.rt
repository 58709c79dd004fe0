//! A field of a run file carried out on lent tables, its lines written into a lent buffer.
//!
//! What it does to a run, and what it prints, is `carried` of `specs/Run.antt`.
#![tactic(auto)]

mod acts;

ghost use mathlib.Core.{Path.◌≡◌, List.List};
ghost use Rattle.std.specs.Prelude.{ℕ, ◌+◌, ◌≤◌};
ghost use lib.{Dec.leb, ListN.{length, drop}};
ghost use Rattle.trace_field.specs.Page.{page_of, field_room, breaks, does, takes, BytesThere};

use lines::Line;
use model::Control;
use runfile::{Field, Found, NoField};

// Room in the buffer for the lines of any one field.
const FIELD_ROOM: usize = 524288;

/// A run between two fields. `opened` and `over` stay flags, because `Run` of `specs/Run.antt` has both, and the file's trace is defined on it.
#[derive(Clone, Copy)]
pub struct RunState {
    pub control: Control,
    pub opened: bool,
    /// The run has ended.
    pub over: bool,
    /// The number of the last event.
    pub event: u64,
    /// Where the next field is read.
    pub at: usize,
    /// Where the next line is written.
    pub to: usize,
}

/// A malformed place, which ends the run. Nothing is done where the buffer has no room for a line.
pub fn malformed(s: RunState, out: &mut [u8]) -> RunState
    ensures { (ws : List (List ℕ)) (ls rs bs ms ns : List ℕ)
        → page_of result out.new ws ls rs bs ms ns ≡ breaks (page_of s out.old ws ls rs bs ms ns) }
{
    if !lines::fits(out.len(), s.to) {
        return s;
    }
    let event = s.event.wrapping_add(1);
    let to = lines::write_line(out, s.to, event, Line::File, s.control.anchor);
    RunState {
        over: true,
        event,
        to,
        ..s
    }
}

// A field that stands at the head of the bytes.
fn carry_out(
    s: RunState,
    field: Field,
    bytes: &[u8],
    out: &mut [u8],
    rows: &mut [[u64; layout::RECORD_WORDS]],
    lefts: &mut [u64],
    rights: &mut [u64],
    labels: &mut [u32],
    marks: &mut [u64],
    next: &mut [u64],
) -> RunState
    requires to_in_bounds { s.to + 524288 ≤ length out.old }
    requires bytes_there { BytesThere field 0 (length bytes.now) }
    ensures { page_of result out.new rows.new
        lefts.new rights.new labels.new marks.new next.new
        ≡ does
        (page_of s out.old rows.old
        lefts.old rights.old labels.old marks.old next.old)
        field bytes.now }
{
    match field {
        Field::Open {
            pooled,
            tasks,
            slots,
            tag,
        } => acts::open_queue(
            s, pooled, tasks, slots, tag, out, rows, lefts, rights, labels, marks, next,
        ),
        Field::Each { op, count } => {
            let tasks = &bytes[runfile::HEAD..runfile::HEAD + count];
            acts::each(s, op, tasks, out, rows, lefts, rights, labels, marks, next)
        }
    }
}

// Whether the buffer has room for the lines of any one field.
fn has_room(len: usize, to: usize) -> bool
    ensures { result ≡ leb (to + field_room) len }
{
    len.checked_sub(FIELD_ROOM).is_some_and(|last| to <= last)
}

// The bytes from a position on: none past the end.
fn from_position(bytes: &[u8], at: usize) -> &[u8]
    ensures { result.now ≡ drop at bytes.now }
{
    bytes.get(at..).unwrap_or_default()
}

/// The field at the reading position. Nothing is done where the buffer has no room for its lines.
pub fn take(
    s: RunState,
    bytes: &[u8],
    out: &mut [u8],
    rows: &mut [[u64; layout::RECORD_WORDS]],
    lefts: &mut [u64],
    rights: &mut [u64],
    labels: &mut [u32],
    marks: &mut [u64],
    next: &mut [u64],
) -> RunState
    ensures { page_of result out.new rows.new
        lefts.new rights.new labels.new marks.new next.new
        ≡ takes bytes.now
        (page_of s out.old rows.old
        lefts.old rights.old labels.old marks.old next.old) }
{
    if !has_room(out.len(), s.to) {
        return s;
    }
    let rest = from_position(bytes, s.at);
    match runfile::first_field(rest, s.opened) {
        Ok(Found { field, size }) => {
            let done = carry_out(
                s, field, rest, out, rows, lefts, rights, labels, marks, next,
            );
            RunState {
                at: s.at + size,
                ..done
            }
        }
        Err(NoField::Malformed) => malformed(s, out),
        Err(NoField::Cut) => s,
        Err(NoField::End) => s,
    }
}
