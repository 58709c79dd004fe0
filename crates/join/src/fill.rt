// The labels of two queues at rest laid into a third that is fresh. Its link tables serve as scratch.
ghost use mathlib.Core.{Path.◌≡◌, List.◌∷◌};
ghost use Rattle.std.specs.Prelude.{ℕ, ◌+◌, ◌≤◌, ◌<◌};
ghost use Rattle.word.specs.{Anchor.anchor_of, Link.pack_link};
ghost use Rattle.join_model.specs.{Merge.merge, Closed.{filled, left_of, label_of, marked_to}};
ghost use Rattle.join.specs.Scratch.{InRows, rows_down, walked_to, label_via, right_to};

use model::Control;
use word::{Anchor, Link};

/// Rows 1 to n: the slots of a queue from its right end along Left links.
fn gather(n: u64, end: u64, links: &[u64], out: &mut [u64])
    requires { InRows links.now end n }
    ensures { out.new ≡ filled (walked_to links.now end) n out.old }
{
    let mut x = end;
    for k in 0..n {
        table::set(out, k + 1, x);
        x = walk::follow(links, x);
    }
}

/// The label that goes next, and how many then remain of each queue.
#[derive(Clone, Copy)]
struct Going {
    label: u32,
    first: u64,
    second: u64,
}

/// Of x and y, the leftmost of so many that remain of the first queue and of the second.
fn next(first: u64, second: u64, x: u32, y: u32) -> Going
    requires { 0 < first + second }
    ensures second_value { result.first + result.second + 1 ≡ first + second }
    ensures by_index { (f g : ℕ → ℕ) → f first ≡ x → g second ≡ y
        → merge (rows_down f first) (rows_down g second) ≡ result.label ∷ merge (rows_down f result.first) (rows_down g result.second) }
{
    if second == 0 || (first != 0 && x <= y) {
        return Going {
            label: x,
            first: first - 1,
            second,
        };
    }
    Going {
        label: y,
        first,
        second: second - 1,
    }
}

/// The labels of both queues, whose slots stand in the rows of two tables from right to left.
fn merge(
    n: u64,
    m: u64,
    labels1: &[u32],
    labels2: &[u32],
    slots1: &[u64],
    slots2: &[u64],
    labels: &mut [u32],
)
    requires { n + m ≤ 1023 }
    ensures { labels.new ≡ filled
        (label_of (merge
        (rows_down (label_via labels1.now slots1.now) n)
        (rows_down (label_via labels2.now slots2.now) m)))
        (n + m) labels.old }
{
    let mut first = n;
    let mut second = m;
    for k in 0..n + m {
        let x = table::get_or(labels1, table::get_or(slots1, first, 0), 0);
        let y = table::get_or(labels2, table::get_or(slots2, second, 0), 0);
        let t = next(first, second, x, y);
        table::set(labels, k + 1, t.label);
        first = t.first;
        second = t.second;
    }
}

/// The word of a link that was changed so many times.
fn link_word(changes: u64, slot: u64) -> u64
    ensures { result ≡ pack_link (record { tag = changes; slot = slot }) }
{
    let link = Link { tag: changes, slot };
    link.pack()
}

/// The Right of slot k where n slots are linked.
fn right_word(n: u64, k: u64) -> u64
    requires { k ≤ 1023 }
    ensures { result ≡ right_to n k }
{
    if k < n { link_word(1, k + 1) } else { 0 }
}

/// Slots 1 to n linked in a row, and marked.
fn link_up(n: u64, lefts: &mut [u64], rights: &mut [u64], marks: &mut [u64])
    requires { n ≤ 1023 }
    ensures lefts_after { lefts.new ≡ filled left_of n lefts.old }
    ensures rights_after { rights.new ≡ filled (right_to n) n rights.old }
    ensures marks_after { marks.new ≡ marked_to n marks.old }
{
    for k in 0..n {
        let x = k + 1;
        table::set(lefts, x, link_word(0, k));
        table::set(rights, x, right_word(n, x));
        table::set_mark(marks, x);
    }
}

/// Lays n labels of the first queue and m of the second into the third's tables.
pub fn fill(
    first: Control,
    second: Control,
    n: u64,
    m: u64,
    lefts1: &[u64],
    labels1: &[u32],
    lefts2: &[u64],
    labels2: &[u32],
    lefts: &mut [u64],
    rights: &mut [u64],
    labels: &mut [u32],
    marks: &mut [u64],
)
    requires { (n + m ≤ 1023)
        × (InRows lefts1.now (anchor_of first.anchor).right n × InRows lefts2.now (anchor_of second.anchor).right m) }
    ensures lefts_after { lefts.new
        ≡ filled left_of (n + m) (filled (walked_to lefts1.now (anchor_of first.anchor).right) n lefts.old) }
    ensures rights_after { rights.new
        ≡ filled (right_to (n + m)) (n + m) (filled (walked_to lefts2.now (anchor_of second.anchor).right) m rights.old) }
    ensures labels_after { labels.new
        ≡ filled (label_of (merge
        (rows_down (label_via labels1.now (filled (walked_to lefts1.now (anchor_of first.anchor).right) n lefts.old)) n)
        (rows_down (label_via labels2.now (filled (walked_to lefts2.now (anchor_of second.anchor).right) m rights.old)) m)))
        (n + m) labels.old }
    ensures marks_after { marks.new ≡ marked_to (n + m) marks.old }
{
    let a = Anchor::unpack(first.anchor);
    let b = Anchor::unpack(second.anchor);
    gather(n, a.right, lefts1, lefts);
    gather(m, b.right, lefts2, rights);
    merge(n, m, labels1, labels2, lefts, rights, labels);
    link_up(n + m, lefts, rights, marks);
}
