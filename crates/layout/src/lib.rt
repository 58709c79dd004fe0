//! Control and records as rows of words, as C lends them: which word is which field. To C a control is a struct of so
//! many words, and so is a record.
#![tactic(auto)]

ghost use Rattle.std.specs.Prelude.{◌≡◌, ◌/◌, ◌%◌, ◌^◌, ◌≤◌, min, length, get_or, set};
ghost use Rattle.model.specs.{Tables.unused, Lists.zeroed};
ghost use Rattle.layout.specs.Rows.{control_of, call_of, record_of, records_of, upper_of, uppers_of, with_call_at};

use model::{Call, Control};

/// The words of a control.
pub const CONTROL_WORDS: usize = 5;

/// The words of a record.
pub const RECORD_WORDS: usize = 10;

// A label is below this. The upper half of its word is in no field.
const LABELS: u64 = 4294967296;

/// The control that a row is.
pub fn control_of(row: [u64; CONTROL_WORDS]) -> Control
    ensures { result ≡ control_of row }
{
    Control {
        tasks: row[0],
        slots: row[1],
        anchor: row[2],
        pooled: row[3],
        head: row[4],
    }
}

/// The row of a control.
pub fn control_row(c: Control) -> [u64; CONTROL_WORDS]
    ensures { control_of result ≡ c }
{
    [c.tasks, c.slots, c.anchor, c.pooled, c.head]
}

/// The call that a row holds.
pub fn call_of(row: [u64; RECORD_WORDS]) -> Call
    ensures { result ≡ call_of row }
{
    Call {
        place: row[0],
        kind: row[1],
        side: row[2],
        own: row[3],
        label: (row[4] % LABELS) as u32,
        seen: row[5],
        neighbour: row[6],
        link: row[7],
        finishing: row[8],
    }
}

/// The count that a row holds.
pub fn retries_of(row: [u64; RECORD_WORDS]) -> u64
    ensures { result ≡ (record_of row).retries }
{
    row[9]
}

/// The row of a call and a count.
pub fn record_row(r: Call, retries: u64) -> [u64; RECORD_WORDS]
    ensures { (record_of result ≡ record { call = r; retries = retries }) × (upper_of result ≡ 0) }
{
    [
        r.place,
        r.kind,
        r.side,
        r.own,
        r.label as u64,
        r.seen,
        r.neighbour,
        r.link,
        r.finishing,
        retries,
    ]
}

/// A label's word with another label, its upper half kept.
pub fn relabelled(word: u64, label: u32) -> u64
    ensures { (result % 2 ^ 32 ≡ label) × (result / 2 ^ 32 ≡ word / 2 ^ 32) }
{
    word / LABELS * LABELS + label as u64
}

/// A task's call, or an idle one where there is no such task.
pub fn call_at(rows: &[[u64; RECORD_WORDS]], task: usize) -> Call
    ensures { result ≡ (get_or (records_of rows.now) task unused).call }
{
    if task < rows.len() {
        let row = rows[task];
        call_of(row)
    } else {
        call_of([0; RECORD_WORDS])
    }
}

/// A task's call stored, where there is such a task; its count stays.
pub fn put_call(rows: &mut [[u64; RECORD_WORDS]], task: usize, r: Call)
    ensures rows_after { records_of rows.new ≡ with_call_at (records_of rows.old) task r }
    ensures rows_after_2 { uppers_of rows.new ≡ set (uppers_of rows.old) task 0 }
{
    if task < rows.len() {
        let was = rows[task];
        let row = record_row(r, was[9]);
        rows[task] = row;
    }
}

/// The upper half of a task's label word zeroed, where there is such a task.
pub fn trim(rows: &mut [[u64; RECORD_WORDS]], task: usize)
    ensures rows_unchanged { records_of rows.new ≡ records_of rows.old }
    ensures rows_after { uppers_of rows.new ≡ set (uppers_of rows.old) task 0 }
{
    if task < rows.len() {
        let was = rows[task];
        let r = call_of(was);
        let row = record_row(r, was[9]);
        rows[task] = row;
    }
}

/// The first n records zeroed, their counts too; all records where there are fewer.
pub fn clear(rows: &mut [[u64; RECORD_WORDS]], n: usize)
    ensures rows_after { records_of rows.new ≡ zeroed (min n (length rows.old)) unused (records_of rows.old) }
    ensures rows_after_2 { uppers_of rows.new ≡ zeroed (min n (length rows.old)) 0 (uppers_of rows.old) }
{
    let most = n.min(rows.len());
    // Not by the slice's `fill`: its contract does not say that each row it stores has as many words.
    for i in 0..most {
        rows[i] = [0; RECORD_WORDS];
    }
}
