//! Saving a queue on one of eight shelves, and returning to it. Control and records are lent as rows of
//! words. The shelves are lent as flat tables, of which each shelf has an eighth; of controls there is
//! one a shelf.
#![tactic(auto)]

mod paste;
mod refusal;
mod tables;

ghost use Rattle.std.specs.Prelude.{◌≡◌, get_or, set};
ghost use Rattle.layout.specs.Rows.{control_of, queue_in, uppers_of};
ghost use Rattle.shelf_model.specs.Shelves.{unfilled};
ghost use Rattle.shelf.specs.Lent.{controls_of, shelves_in, Saved, saving, Returned, returning};

use paste::MOST_TASKS;
use sound::Lengths;

/// A shelf's control; one that is not lent reads as zero.
fn control_at(controls: &[[u64; layout::CONTROL_WORDS]], shelf: u64) -> [u64; layout::CONTROL_WORDS]
    ensures { control_of result ≡ get_or (controls_of controls.now) shelf unfilled }
{
    controls
        .get(shelf as usize)
        .copied()
        .unwrap_or([0; layout::CONTROL_WORDS])
}

/// A shelf's control stored, where one is lent.
fn put_control(
    controls: &mut [[u64; layout::CONTROL_WORDS]],
    shelf: u64,
    row: [u64; layout::CONTROL_WORDS],
)
    ensures { controls_of controls.new ≡ set (controls_of controls.old) shelf (control_of row) }
{
    let n = shelf as usize;
    if n < controls.len() {
        controls[n] = row;
    }
}

/// Saves the queue on a shelf.
#[unsafe(no_mangle)]
pub extern "C" fn zc_save(
    control: &[u64; layout::CONTROL_WORDS],
    records: &[[u64; layout::RECORD_WORDS]],
    controls8: &mut [[u64; layout::CONTROL_WORDS]],
    records8: &mut [[u64; layout::RECORD_WORDS]],
    shelf: u64,
    lefts: &[u64],
    rights: &[u64],
    labels: &[u32],
    marks: &[u64],
    next: &[u64],
    lefts8: &mut [u64],
    rights8: &mut [u64],
    labels8: &mut [u32],
    marks8: &mut [u64],
    next8: &mut [u64],
) -> u32
    ensures { ◌≡◌ {A = Saved}
        (record {
          code = result;
          shelves = shelves_in controls8.new records8.new lefts8.new rights8.new
              labels8.new marks8.new next8.new;
          uppers = uppers_of records8.new;
        })
        (saving
        (queue_in control.now records.now lefts.now rights.now
        labels.now marks.now next.now)
        (uppers_of records.now)
        (shelves_in controls8.old records8.old lefts8.old rights8.old
        labels8.old marks8.old next8.old)
        (uppers_of records8.old)
        shelf) }
{
    let row = *control;
    let c = layout::control_of(row);
    let queue = Lengths {
        records: records.len(),
        lefts: lefts.len(),
        rights: rights.len(),
        labels: labels.len(),
        marks: marks.len(),
        next: next.len(),
    };
    let shelves = Lengths {
        records: records8.len(),
        lefts: lefts8.len(),
        rights: rights8.len(),
        labels: labels8.len(),
        marks: marks8.len(),
        next: next8.len(),
    };
    let why = refusal::save_refusal(c, shelf, queue, shelves, controls8.len());
    if why != 0 {
        return why;
    }
    put_control(controls8, shelf, row);
    paste::put(
        records,
        records8,
        &mut [[0; layout::RECORD_WORDS]; MOST_TASKS],
        shelf,
        c.tasks,
    );
    tables::put_tables(
        c, shelf, lefts, rights, labels, marks, next, lefts8, rights8, labels8, marks8, next8,
    );
    0
}

/// Puts the queue on a shelf back, half-done calls included.
#[unsafe(no_mangle)]
pub extern "C" fn zc_return(
    control: &mut [u64; layout::CONTROL_WORDS],
    records: &mut [[u64; layout::RECORD_WORDS]],
    controls8: &[[u64; layout::CONTROL_WORDS]],
    records8: &[[u64; layout::RECORD_WORDS]],
    shelf: u64,
    lefts: &mut [u64],
    rights: &mut [u64],
    labels: &mut [u32],
    marks: &mut [u64],
    next: &mut [u64],
    lefts8: &[u64],
    rights8: &[u64],
    labels8: &[u32],
    marks8: &[u64],
    next8: &[u64],
) -> u32
    ensures { ◌≡◌ {A = Returned}
        (record {
          code = result;
          queue = queue_in control.new records.new lefts.new rights.new
              labels.new marks.new next.new;
          uppers = uppers_of records.new;
        })
        (returning
        (queue_in control.old records.old lefts.old rights.old
        labels.old marks.old next.old)
        (uppers_of records.old)
        (shelves_in controls8.now records8.now lefts8.now rights8.now
        labels8.now marks8.now next8.now)
        (uppers_of records8.now)
        shelf) }
{
    let row = control_at(controls8, shelf);
    let c = layout::control_of(row);
    let queue = Lengths {
        records: records.len(),
        lefts: lefts.len(),
        rights: rights.len(),
        labels: labels.len(),
        marks: marks.len(),
        next: next.len(),
    };
    let shelves = Lengths {
        records: records8.len(),
        lefts: lefts8.len(),
        rights: rights8.len(),
        labels: labels8.len(),
        marks: marks8.len(),
        next: next8.len(),
    };
    let why = refusal::return_refusal(c, shelf, queue, shelves, controls8.len());
    if why != 0 {
        return why;
    }
    *control = row;
    paste::take(
        records8,
        records,
        &mut [[0; layout::RECORD_WORDS]; MOST_TASKS],
        shelf,
        c.tasks,
    );
    tables::take_tables(
        c, shelf, lefts, rights, labels, marks, next, lefts8, rights8, labels8, marks8, next8,
    );
    0
}
