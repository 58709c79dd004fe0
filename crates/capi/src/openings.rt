// The two ways of opening: a named queue, and a pooled one.
ghost use mathlib.Core.{Path.◌≡◌, Bool.false, List.List};
ghost use Rattle.std.specs.Prelude.{ℕ};
ghost use Rattle.model.specs.Calls.{open_as, open_queue, open_pooled, opening_code};
ghost use Rattle.layout.specs.Rows.{queue_in, uppers_of};
ghost use Rattle.capi.specs.Replies.{Coded, coded};

use calls::opening;
use model::Opening;

fn opening_code(o: Opening) -> u32
    ensures { result ≡ opening_code o }
{
    match o {
        Err(refusal) => refusal.number,
        Ok(()) => 0,
    }
}

/// Opens a queue of either kind: 0, or the number of a refusal. Of a named one the next rows keep their values, whatever they are.
/// It is compiled into both calls: one that they share makes each slower.
#[inline(always)]
fn open(
    control: &mut [u64; layout::CONTROL_WORDS],
    records: &mut [[u64; layout::RECORD_WORDS]],
    pooled: bool,
    tasks: u64,
    slots: u64,
    tag: u32,
    lefts: &mut [u64],
    rights: &mut [u64],
    labels: &mut [u32],
    marks: &mut [u64],
    next: &mut [u64],
) -> u32
    ensures whole { ◌≡◌ {A = Coded}
        (record {
          queue = queue_in control.new records.new
              lefts.new rights.new labels.new marks.new next.new;
          uppers = uppers_of records.new;
          code = result;
        })
        (coded tasks (uppers_of records.old)
        (open_as pooled (queue_in control.old records.old
        lefts.old rights.old labels.old marks.old next.old)
        tasks slots tag)) }
    ensures named { pooled ≡ false → (any : List ℕ) → ◌≡◌ {A = Coded}
        (record {
          queue = queue_in control.new records.new lefts.new rights.new labels.new marks.new any;
          uppers = uppers_of records.new;
          code = result;
        })
        (coded tasks (uppers_of records.old)
        (open_queue (queue_in control.old records.old
        lefts.old rights.old labels.old marks.old any)
        tasks slots tag)) }
{
    let c = layout::control_of(*control);
    let made = opening::open_tables(
        c,
        pooled,
        records.len(),
        tasks,
        slots,
        tag,
        lefts,
        rights,
        labels,
        marks,
        next,
    );
    *control = layout::control_row(made.control);
    layout::clear(records, made.clear);
    opening_code(made.outcome)
}

/// Opens a named queue: 0, or the number of a refusal. Whatever the next rows, they keep their values.
#[unsafe(no_mangle)]
pub extern "C" fn zc_open(
    control: &mut [u64; layout::CONTROL_WORDS],
    records: &mut [[u64; layout::RECORD_WORDS]],
    tasks: u64,
    slots: u64,
    tag: u32,
    lefts: &mut [u64],
    rights: &mut [u64],
    labels: &mut [u32],
    marks: &mut [u64],
) -> u32
    ensures { (next : List ℕ) → ◌≡◌ {A = Coded}
        (record {
          queue = queue_in control.new records.new lefts.new rights.new labels.new marks.new next;
          uppers = uppers_of records.new;
          code = result;
        })
        (coded tasks (uppers_of records.old)
        (open_queue (queue_in control.old records.old
        lefts.old rights.old labels.old marks.old next)
        tasks slots tag)) }
{
    open(
        control,
        records,
        false,
        tasks,
        slots,
        tag,
        lefts,
        rights,
        labels,
        marks,
        &mut [0],
    )
}

/// Opens a pooled queue, all its slots stacked: 0, or the number of a refusal.
#[unsafe(no_mangle)]
pub extern "C" fn zc_open_pooled(
    control: &mut [u64; layout::CONTROL_WORDS],
    records: &mut [[u64; layout::RECORD_WORDS]],
    tasks: u64,
    slots: u64,
    tag: u32,
    lefts: &mut [u64],
    rights: &mut [u64],
    labels: &mut [u32],
    marks: &mut [u64],
    next: &mut [u64],
) -> u32
    ensures { ◌≡◌ {A = Coded}
        (record {
          queue = queue_in control.new records.new
              lefts.new rights.new labels.new marks.new next.new;
          uppers = uppers_of records.new;
          code = result;
        })
        (coded tasks (uppers_of records.old)
        (open_pooled (queue_in control.old records.old
        lefts.old rights.old labels.old marks.old next.old)
        tasks slots tag)) }
{
    open(
        control, records, true, tasks, slots, tag, lefts, rights, labels, marks, next,
    )
}
