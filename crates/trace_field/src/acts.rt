//! What each field does, with its lines.
ghost use mathlib.Core.{Path.◌≡◌, List.{List, [], ◌∷◌}};
ghost use Rattle.std.specs.Prelude.{ℕ, ◌+◌, ◌*◌, ◌≤◌};
ghost use lib.ListN.{length, set};
ghost use Rattle.model.specs.Tables.{queue_of};
ghost use Rattle.layout.specs.Rows.{records_of, uppers_of};
ghost use Rattle.trace_field.specs.{Run.each_of, Page.{page_of, answered, operates, opens}};

use crate::RunState;
use calls::opening;
use lines::Line;
use model::{Control, Op, Outcome};

// An operation that was done: its line written.
fn answer(
    s: RunState,
    control: Control,
    outcome: Outcome,
    task: usize,
    op: Op,
    out: &mut [u8],
) -> RunState
    requires { s.to + 128 ≤ length out.old }
    ensures by_index { (rows rows' : List (List ℕ)) (ls rs bs ms ns ls' rs' bs' ms' ns' : List ℕ) → uppers_of rows' ≡ set (uppers_of rows) task 0
        → page_of result out.new rows' ls' rs' bs' ms' ns'
        ≡ answered (page_of s out.old rows ls rs bs ms ns) task op
        (record { queue = queue_of control (records_of rows') ls' rs' bs' ms' ns'; outcome = outcome }) }
    ensures to_bound { result.to ≤ s.to + 128 }
{
    let event = s.event.wrapping_add(1);
    let line = Line::Act { task, op, outcome };
    let to = lines::write_line(out, s.to, event, line, control.anchor);
    RunState {
        control,
        event,
        to,
        ..s
    }
}

// A start or step of a task. Called once, so that the step is compiled into its caller's loop.
fn operate(
    s: RunState,
    task: usize,
    op: Op,
    out: &mut [u8],
    rows: &mut [[u64; layout::RECORD_WORDS]],
    lefts: &mut [u64],
    rights: &mut [u64],
    labels: &mut [u32],
    marks: &mut [u64],
    next: &mut [u64],
) -> RunState
    requires { s.to + 128 ≤ length out.old }
    ensures next_after { page_of result out.new rows.new
        lefts.new rights.new labels.new marks.new next.new
        ≡ operates
        (page_of s out.old rows.old
        lefts.old rights.old labels.old marks.old next.old)
        (record { task = task; op = op } ∷ []) }
    ensures to_bound { result.to ≤ s.to + 128 }
{
    let mut words = layout::control_row(s.control);
    let outcome = rows::op::operate(
        &mut words, rows, task, op, lefts, rights, labels, marks, next,
    );
    layout::trim(rows, task);
    answer(s, layout::control_of(words), outcome, task, op, out)
}

/// The operation for each of the task bytes.
pub fn each(
    s: RunState,
    op: Op,
    tasks: &[u8],
    out: &mut [u8],
    rows: &mut [[u64; layout::RECORD_WORDS]],
    lefts: &mut [u64],
    rights: &mut [u64],
    labels: &mut [u32],
    marks: &mut [u64],
    next: &mut [u64],
) -> RunState
    requires { s.to + 128 * length tasks.now ≤ length out.old }
    ensures { page_of result out.new rows.new
        lefts.new rights.new labels.new marks.new next.new
        ≡ operates
        (page_of s out.old rows.old
        lefts.old rights.old labels.old marks.old next.old)
        (each_of op tasks.now) }
{
    let mut q = s;
    for &task in tasks {
        q = operate(
            q,
            usize::from(task),
            op,
            out,
            rows,
            lefts,
            rights,
            labels,
            marks,
            next,
        );
    }
    q
}

/// The opening. A refused one ends the run.
pub fn open_queue(
    s: RunState,
    pooled: bool,
    tasks: u64,
    slots: u64,
    tag: u32,
    out: &mut [u8],
    rows: &mut [[u64; layout::RECORD_WORDS]],
    lefts: &mut [u64],
    rights: &mut [u64],
    labels: &mut [u32],
    marks: &mut [u64],
    next: &mut [u64],
) -> RunState
    requires { s.to + 128 ≤ length out.old }
    ensures { page_of result out.new rows.new
        lefts.new rights.new labels.new marks.new next.new
        ≡ opens
        (page_of s out.old rows.old
        lefts.old rights.old labels.old marks.old next.old)
        pooled tasks slots tag }
{
    let parts = opening::open_tables(
        s.control,
        pooled,
        rows.len(),
        tasks,
        slots,
        tag,
        lefts,
        rights,
        labels,
        marks,
        next,
    );
    layout::clear(rows, parts.clear);
    let opened = parts.outcome.is_ok();
    let event = s.event.wrapping_add(1);
    let to = lines::write_line(
        out,
        s.to,
        event,
        Line::Open(parts.outcome),
        parts.control.anchor,
    );
    RunState {
        control: parts.control,
        opened,
        over: !opened,
        event,
        to,
        ..s
    }
}
