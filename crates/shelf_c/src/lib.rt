//! Saving and returning for C and Rust: the calls of crate `shelf`, in an archive of its own.
#![tactic(auto)]

ghost use Rattle.std.specs.Prelude.{◌≡◌};
ghost use Rattle.layout.specs.Rows.{queue_in, uppers_of};
ghost use Rattle.shelf.specs.Lent.{Returned, Saved, returning, saving, shelves_in};

/// Saves the queue on a shelf.
#[unsafe(no_mangle)]
pub extern "C" fn zc_save(
    control: &[u64; layout::CONTROL_WORDS],
    records: &[[u64; layout::RECORD_WORDS]],
    controls8: &mut [[u64; layout::CONTROL_WORDS]],
    records8: &mut [[u64; layout::RECORD_WORDS]],
    shelf: u64,
    lefts: &[u64],
    rights: &[u64],
    labels: &[u32],
    marks: &[u64],
    next: &[u64],
    lefts8: &mut [u64],
    rights8: &mut [u64],
    labels8: &mut [u32],
    marks8: &mut [u64],
    next8: &mut [u64],
) -> u32
    ensures { ◌≡◌ {A = Saved}
        (record {
          code = result;
          shelves = shelves_in controls8.new records8.new lefts8.new rights8.new
              labels8.new marks8.new next8.new;
          uppers = uppers_of records8.new;
        })
        (saving
        (queue_in control.now records.now lefts.now rights.now
        labels.now marks.now next.now)
        (uppers_of records.now)
        (shelves_in controls8.old records8.old lefts8.old rights8.old
        labels8.old marks8.old next8.old)
        (uppers_of records8.old)
        shelf) }
{
    shelf::zc_save(
        control, records, controls8, records8, shelf, lefts, rights, labels, marks, next, lefts8,
        rights8, labels8, marks8, next8,
    )
}

/// Puts the queue on a shelf back, half-done calls included.
#[unsafe(no_mangle)]
pub extern "C" fn zc_return(
    control: &mut [u64; layout::CONTROL_WORDS],
    records: &mut [[u64; layout::RECORD_WORDS]],
    controls8: &[[u64; layout::CONTROL_WORDS]],
    records8: &[[u64; layout::RECORD_WORDS]],
    shelf: u64,
    lefts: &mut [u64],
    rights: &mut [u64],
    labels: &mut [u32],
    marks: &mut [u64],
    next: &mut [u64],
    lefts8: &[u64],
    rights8: &[u64],
    labels8: &[u32],
    marks8: &[u64],
    next8: &[u64],
) -> u32
    ensures { ◌≡◌ {A = Returned}
        (record {
          code = result;
          queue = queue_in control.new records.new lefts.new rights.new
              labels.new marks.new next.new;
          uppers = uppers_of records.new;
        })
        (returning
        (queue_in control.old records.old lefts.old rights.old
        labels.old marks.old next.old)
        (uppers_of records.old)
        (shelves_in controls8.now records8.now lefts8.now rights8.now
        labels8.now marks8.now next8.now)
        (uppers_of records8.now)
        shelf) }
{
    shelf::zc_return(
        control, records, controls8, records8, shelf, lefts, rights, labels, marks, next, lefts8,
        rights8, labels8, marks8, next8,
    )
}
