// Whether a queue is at rest, and whether the third is fresh: what 47 asks.
ghost use mathlib.Core.{Path.◌≡◌, Bool.not, List.{List, map}};
ghost use Rattle.std.specs.Prelude.{ℕ, ◌≤◌};
ghost use lib.{Dec.eqb, ListN.get_or};
ghost use Rattle.model.specs.{Tables.{queue_of, unused}, Lists.count};
ghost use Rattle.layout.specs.Rows.{records_of};
ghost use Rattle.join_model.specs.Join.{at_rest, blank, fresh};
ghost use Rattle.join.specs.Numbers.{AreNumbers};

use model::Control;
use std::ops::BitOr;
use word::Anchor;

/// The first n entries are zero, and beyond the end of a table all is zero. All are looked at, several at a time.
fn blank<T: Copy + Default + BitOr<Output = T> + Into<u64>>(t: &[T], n: u64) -> bool
    requires { (x y : T) → T.can_bitor x y }
    ensures { (number : T → ℕ) → AreNumbers T.is_default T.bitor_gives T.converts number → result ≡ blank n (map number t.now) }
{
    let k = t.len().min(n as usize);
    let mut any = T::default();
    for x in &t[..k] {
        any = any | *x;
    }
    any.into() == 0
}

/// None of the first n tasks is busy.
fn idle(records: &[[u64; layout::RECORD_WORDS]], n: usize) -> bool
    ensures { result ≡ eqb (count (λ t. not (eqb (get_or (records_of records.now) t unused).call.place 0)) n) 0 }
{
    for t in 0..n {
        if layout::call_at(records, t).place != 0 {
            return false;
        }
    }
    true
}

/// No busy task, and STABLE.
pub fn at_rest(c: Control, records: &[[u64; layout::RECORD_WORDS]]) -> bool
    ensures { (lefts rights labels marks next : List ℕ)
        → result ≡ at_rest (queue_of c (records_of records.now) lefts rights labels marks next) }
{
    let a = Anchor::unpack(c.anchor);
    let still = idle(records, c.tasks as usize);
    still & (a.status == 0)
}

/// Named, empty, at rest, and zero in its rows and their mark words.
pub fn is_fresh(
    c: Control,
    records: &[[u64; layout::RECORD_WORDS]],
    lefts: &[u64],
    rights: &[u64],
    labels: &[u32],
    marks: &[u64],
) -> bool
    requires { c.slots ≤ 1023 }
    ensures { (next : List ℕ)
        → result ≡ fresh
        (queue_of c (records_of records.now) lefts.now rights.now labels.now marks.now next) }
{
    let a = Anchor::unpack(c.anchor);
    let rest = at_rest(c, records);
    let rows = c.slots + 1;
    let left = blank(lefts, rows);
    let right = blank(rights, rows);
    let label = blank(labels, rows);
    let mark = blank(marks, c.slots / 64 + 1);
    (c.pooled != 1) & ((a.left == 0) & (a.right == 0)) & rest & left & right & label & mark
}
