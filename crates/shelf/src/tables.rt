// The five tables of a queue put on a shelf, and put back.
ghost use mathlib.Core.{Path.◌≡◌, Bool.cond};
ghost use Rattle.std.specs.Prelude.{◌+◌, ◌/◌, ◌≤◌};
ghost use Rattle.model.specs.Tables.{is_pooled};
ghost use Rattle.shelf.specs.Pasting.{put_on, put_back};

use crate::paste::{MOST_ROWS, put, take};
use model::Control;

/// How many entries of the next table count: all in a pooled queue, none in a named one.
fn next_rows(c: Control) -> u64
    requires { c.slots ≤ 1023 }
    ensures { result ≡ cond (is_pooled c) (c.slots + 1) 0 }
{
    if c.pooled == 1 { c.slots + 1 } else { 0 }
}

/// The tables of a queue with this control put on a shelf.
pub fn put_tables(
    c: Control,
    shelf: u64,
    lefts: &[u64],
    rights: &[u64],
    labels: &[u32],
    marks: &[u64],
    next: &[u64],
    lefts8: &mut [u64],
    rights8: &mut [u64],
    labels8: &mut [u32],
    marks8: &mut [u64],
    next8: &mut [u64],
)
    requires { c.slots ≤ 1023 }
    ensures lefts8_after { lefts8.new ≡ put_on shelf (c.slots + 1) lefts.now lefts8.old }
    ensures rights8_after { rights8.new ≡ put_on shelf (c.slots + 1) rights.now rights8.old }
    ensures labels8_after { labels8.new ≡ put_on shelf (c.slots + 1) labels.now labels8.old }
    ensures marks8_after { marks8.new ≡ put_on shelf (c.slots / 64 + 1) marks.now marks8.old }
    ensures next8_after { next8.new ≡ put_on shelf (cond (is_pooled c) (c.slots + 1) 0) next.now next8.old }
{
    let rows = c.slots + 1;
    put(lefts, lefts8, &mut [0; MOST_ROWS], shelf, rows);
    put(rights, rights8, &mut [0; MOST_ROWS], shelf, rows);
    put(labels, labels8, &mut [0; MOST_ROWS], shelf, rows);
    put(marks, marks8, &mut [0; MOST_ROWS], shelf, c.slots / 64 + 1);
    put(next, next8, &mut [0; MOST_ROWS], shelf, next_rows(c));
}

/// The tables of the queue on a shelf, with this control, put back.
// A function of its own: `zc_save` is lent the queue's tables for reading alone and `zc_return` the shelves', so no one list of parameters fits both.
pub fn take_tables(
    c: Control,
    shelf: u64,
    lefts: &mut [u64],
    rights: &mut [u64],
    labels: &mut [u32],
    marks: &mut [u64],
    next: &mut [u64],
    lefts8: &[u64],
    rights8: &[u64],
    labels8: &[u32],
    marks8: &[u64],
    next8: &[u64],
)
    requires { c.slots ≤ 1023 }
    ensures lefts_after { lefts.new ≡ put_back shelf (c.slots + 1) lefts8.now lefts.old }
    ensures rights_after { rights.new ≡ put_back shelf (c.slots + 1) rights8.now rights.old }
    ensures labels_after { labels.new ≡ put_back shelf (c.slots + 1) labels8.now labels.old }
    ensures marks_after { marks.new ≡ put_back shelf (c.slots / 64 + 1) marks8.now marks.old }
    ensures next_after { next.new ≡ put_back shelf (cond (is_pooled c) (c.slots + 1) 0) next8.now next.old }
{
    let rows = c.slots + 1;
    take(lefts8, lefts, &mut [0; MOST_ROWS], shelf, rows);
    take(rights8, rights, &mut [0; MOST_ROWS], shelf, rows);
    take(labels8, labels, &mut [0; MOST_ROWS], shelf, rows);
    take(marks8, marks, &mut [0; MOST_ROWS], shelf, c.slots / 64 + 1);
    take(next8, next, &mut [0; MOST_ROWS], shelf, next_rows(c));
}
