// An opening, of a pooled queue or of a named one: all of it but the records, which the caller zeroes.
ghost use mathlib.Core.{Path.◌≡◌, Bool.{◌&&◌, cond}};
ghost use Rattle.std.specs.Prelude.{leb};
ghost use Rattle.model.specs.Tables.{tables_of, opened_control};
ghost use Rattle.sound.specs.Lengths.{lengths_fit};
ghost use Rattle.calls.specs.Opening.{opening_refusal, OpenedParts, open_tables};

use model::{Control, Opening, Refusal};
use sound::Lengths;
use word::Anchor;

#[derive(Clone, Copy)]
pub struct OpenedTables {
    /// The new one, or the old one where the opening is refused.
    pub control: Control,
    /// How many records the caller zeroes.
    pub clear: usize,
    pub outcome: Opening,
}

fn open_refusal(pooled: bool, tasks: u64, slots: u64, t: Lengths) -> u32
    ensures { result ≡ opening_refusal tasks slots (lengths_fit pooled slots t && leb tasks t.records) }
{
    if !sound::from1(16, tasks) {
        return 10;
    }
    if !sound::from1(1023, slots) {
        return 11;
    }
    let fits = sound::rows_fit(pooled, slots, t);
    let enough = tasks <= t.records as u64;
    if !(fits & enough) {
        return 12;
    }
    0
}

/// The number of the way in control; and the first head, which in a pooled queue is tag 0 and slot 1.
fn way(pooled: bool) -> u64
    ensures { result ≡ cond pooled 1 0 }
{
    if pooled { 1 } else { 0 }
}

fn opened_control(pooled: bool, tasks: u64, slots: u64, tag: u32) -> Control
    ensures { result ≡ opened_control pooled tasks slots tag }
{
    let empty = Anchor::empty(tag as u64);
    let anchor = empty.pack();
    let way = way(pooled);
    Control {
        tasks,
        slots,
        anchor,
        pooled: way,
        head: way,
    }
}

pub fn open_tables(
    c: Control,
    pooled: bool,
    records: usize,
    tasks: u64,
    slots: u64,
    tag: u32,
    lefts: &mut [u64],
    rights: &mut [u64],
    labels: &mut [u32],
    marks: &mut [u64],
    next: &mut [u64],
) -> OpenedTables
    ensures { ◌≡◌ {A = OpenedParts}
        (record {
          tables = tables_of result.control lefts.new rights.new labels.new marks.new next.new;
          clear = result.clear;
          outcome = result.outcome;
        })
        (open_tables pooled
        (tables_of c lefts.old rights.old labels.old marks.old next.old)
        records tasks slots tag) }
{
    let t = Lengths::of(records, lefts, rights, labels, marks, next);
    let why = open_refusal(pooled, tasks, slots, t);
    if why != 0 {
        return OpenedTables {
            control: c,
            clear: 0,
            outcome: Err(Refusal { number: why }),
        };
    }
    let rows = slots + 1;
    table::fill(lefts, rows, 0);
    table::fill(rights, rows, 0);
    table::fill(labels, rows, 0);
    table::fill(marks, slots / 64 + 1, 0);
    table::stack_slots(pooled, next, slots);
    let control = opened_control(pooled, tasks, slots, tag);
    OpenedTables {
        control,
        clear: tasks as usize,
        outcome: Ok(()),
    }
}
