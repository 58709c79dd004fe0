//! A step, and back: what it can write is kept and put back.
ghost use Rattle.std.specs.Prelude.{◌≡◌, ◌<◌};
ghost use Rattle.model.specs.{Places.row, Tables.tables_of};
ghost use Rattle.layout.specs.Rows.{control_of, queue_in};
ghost use Rattle.schedule_model.specs.Undo.{saved, put_back};
ghost use Rattle.schedule_search.specs.Stepped.{Steps, restored};

use model::{Call, Control};
use rows::moving;
use schedule_model::Saved;

/// Control and the records of both tasks, in rows of the search's own.
#[derive(Clone, Copy)]
pub struct Rows {
    pub control: [u64; layout::CONTROL_WORDS],
    pub pair: [[u64; layout::RECORD_WORDS]; 2],
}

/// What a step can write, as it was before.
#[derive(Clone, Copy)]
pub struct Kept {
    pub row: [u64; layout::RECORD_WORDS],
    pub saved: Saved,
    /// The step was refused.
    pub stopped: bool,
}

/// Anchor, the head, and the words of the row that the next step of the record can write.
fn keep(
    control: &[u64; layout::CONTROL_WORDS],
    r: Call,
    lefts: &[u64],
    rights: &[u64],
    labels: &[u32],
    marks: &[u64],
    next: &[u64],
) -> Saved
    ensures { result ≡ saved (row r) (tables_of (control_of control.now)
        lefts.now rights.now labels.now marks.now next.now) }
{
    let c = layout::control_of(*control);
    let slot = asking::row_of(r);
    let left = table::get_or(lefts, slot, 0);
    let right = table::get_or(rights, slot, 0);
    let label = table::get_or(labels, slot, 0);
    let mark = table::get_or(marks, slot / 64, 0);
    let next = table::get_or(next, slot, 0);
    Saved {
        anchor: c.anchor,
        head: c.head,
        slot,
        left,
        right,
        label,
        mark,
        next,
    }
}

fn put_back(
    s: Saved,
    control: &mut [u64; layout::CONTROL_WORDS],
    lefts: &mut [u64],
    rights: &mut [u64],
    labels: &mut [u32],
    marks: &mut [u64],
    next: &mut [u64],
)
    ensures { tables_of (control_of control.new)
        lefts.new rights.new labels.new marks.new next.new
        ≡ put_back s (tables_of (control_of control.old)
        lefts.old rights.old labels.old marks.old next.old) }
{
    let c = layout::control_of(*control);
    *control = layout::control_row(Control {
        anchor: s.anchor,
        head: s.head,
        ..c
    });
    let slot = s.slot;
    table::set(lefts, slot, s.left);
    table::set(rights, slot, s.right);
    table::set(labels, slot, s.label);
    table::set(marks, slot / 64, s.mark);
    table::set(next, slot, s.next);
}

/// A step of task t, and what to put back.
pub fn step(
    t: usize,
    rows: &mut Rows,
    lefts: &mut [u64],
    rights: &mut [u64],
    labels: &mut [u32],
    marks: &mut [u64],
    next: &mut [u64],
) -> Kept
    requires { t < 2 }
    ensures { Steps
        (queue_in rows.old.control rows.old.pair
        lefts.old rights.old labels.old marks.old next.old)
        t result
        (queue_in rows.new.control rows.new.pair
        lefts.new rights.new labels.new marks.new next.new) }
{
    let row = rows.pair[t];
    let r = layout::call_of(row);
    let saved = keep(&rows.control, r, lefts, rights, labels, marks, next);
    let o = moving::move_row(
        &mut rows.control,
        &mut rows.pair[t],
        lefts,
        rights,
        labels,
        marks,
        next,
    );
    Kept {
        row,
        saved,
        stopped: !engine::moves(o),
    }
}

/// Before the step again.
pub fn back(
    k: Kept,
    t: usize,
    rows: &mut Rows,
    lefts: &mut [u64],
    rights: &mut [u64],
    labels: &mut [u32],
    marks: &mut [u64],
    next: &mut [u64],
)
    requires { t < 2 }
    ensures { queue_in rows.new.control rows.new.pair
        lefts.new rights.new labels.new marks.new next.new
        ≡ restored k t (queue_in rows.old.control rows.old.pair
        lefts.old rights.old labels.old marks.old next.old) }
{
    let row = k.row;
    rows.pair[t] = row;
    put_back(
        k.saved,
        &mut rows.control,
        lefts,
        rights,
        labels,
        marks,
        next,
    );
}
