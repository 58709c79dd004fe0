//! How many slots are taken: the ones of each mark word under its mask, added up.
#![tactic(auto)]

ghost use Rattle.std.specs.Prelude.{◌≡◌, ◌-◌, ◌*◌, ◌/◌, ◌≤◌, min};
ghost use Rattle.model.specs.Report.{taken_slots};
ghost use Rattle.marks.specs.Masked.{masked_word};

/// Word k of the marks without bit 0 of word 0 and without the bits above the last slot's.
fn masked(w: u64, k: u64, slots: u64) -> u64
    requires { k ≤ slots / 64 }
    ensures { result ≡ masked_word w k slots }
{
    let mut m = w;
    if k == slots / 64 {
        m = m & (0xffff_ffff_ffff_ffff >> (63 - slots % 64));
    }
    if k == 0 {
        m = m & !1;
    }
    m
}

/// The marks set for all slots before the last slot's word, when n are set below slot 64. Words past the end hold no mark:
/// the loop ends where they begin, and asks of no word whether it is there. (That neither end of a mask lies in these
/// words the compiler finds by itself.)
fn before_last(n: u64, slots: u64, marks: &[u64]) -> u64
    requires { (64 ≤ slots) × (n ≡ taken_slots 63 marks.now) }
    ensures { result ≡ taken_slots (64 * (slots / 64) - 1) marks.now }
{
    let end = marks.len().min((slots / 64) as usize);
    let mut sum = n;
    for k in 1..end {
        sum += u64::count_ones(masked(marks[k], k as u64, slots)) as u64;
    }
    sum
}

/// The marks set for slots 1 to slots.
pub fn taken(slots: u64, marks: &[u64]) -> u64
    ensures { result ≡ taken_slots slots marks.now }
{
    let first = u64::count_ones(masked(table::get_or(marks, 0, 0), 0, slots)) as u64;
    if slots < 64 {
        return first;
    }
    let n = before_last(first, slots, marks);
    let last = slots / 64;
    n + u64::count_ones(masked(table::get_or(marks, last, 0), last, slots)) as u64
}
