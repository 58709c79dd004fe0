// What is asked before a task's record is looked at, in the document's order: the number of the first rule that
// applies, or 0. The tables are given by their lengths.
ghost use mathlib.Core.{Path.◌≡◌, Bool.◌&&◌};
ghost use Rattle.model.specs.{Tables.is_pooled, Refusals.{first, table_rules, admission, alone}};
ghost use Rattle.sound.specs.Lengths.{lengths_fit, tables_fit, among_many, next_rules};

use crate::Lengths;
use model::Control;

/// 34 for control and Anchor, and 12.
pub fn table_refusal(c: Control, t: Lengths) -> u32
    ensures { result ≡ first (table_rules c (tables_fit c t)) }
{
    if !crate::control_sound(c) {
        return 34;
    }
    if crate::tables_fit(c, t) { 0 } else { 12 }
}

/// Then 13: task `task` is one of those that the records are lent for.
pub fn admit(c: Control, task: usize, t: Lengths) -> u32
    ensures { result ≡ admission c (lengths_fit (is_pooled c) c.slots t) (among_many c t task) }
{
    let why = table_refusal(c, t);
    if why != 0 {
        return why;
    }
    if (task as u64) < c.tasks { 0 } else { 13 }
}

/// 34 for the word that says pooled, and then 12 for the next table, which counts in a pooled queue alone.
fn next_refusal(pooled: u64, slots: u64, next: usize) -> u32
    ensures { result ≡ first (next_rules pooled slots next) }
{
    if pooled == 0 {
        return 0;
    }
    if pooled != 1 {
        return 34;
    }
    if slots < next as u64 { 0 } else { 12 }
}

/// `table_refusal` as a step asks it, with branches where that one computes: a step is nearly always admitted. Of two
/// tests with the same number the compiler would compute both and join them, so the pairs stand apart; three and more
/// that the source joins are branched over one by one. (bench/README.md) A start, whose tests are a function that is
/// handed the words, takes more instructions this way.
fn step_refusal(c: Control, enough: bool, t: Lengths) -> u32
    ensures { result ≡ first (table_rules c (lengths_fit (is_pooled c) c.slots t && enough)) }
{
    if !crate::from1(16, c.tasks) {
        return 34;
    }
    if !crate::anchor_sound(c.slots, c.anchor) {
        return 34;
    }
    if !crate::from1(1023, c.slots) {
        return 34;
    }
    let why = next_refusal(c.pooled, c.slots, t.next);
    if why != 0 {
        return why;
    }
    if crate::rows_fit(false, c.slots, t) & enough {
        0
    } else {
        12
    }
}

/// `admit` for a step.
pub fn admit_step(c: Control, task: usize, t: Lengths) -> u32
    ensures { result ≡ admission c (lengths_fit (is_pooled c) c.slots t) (among_many c t task) }
{
    let enough = c.tasks <= t.records as u64;
    let why = step_refusal(c, enough, t);
    if why != 0 {
        return why;
    }
    if c.tasks <= task as u64 { 13 } else { 0 }
}

/// The same for a record lent alone: none is wanting, and the task is known by it.
pub fn admit_alone(c: Control, t: Lengths) -> u32
    ensures { result ≡ admission c (lengths_fit (is_pooled c) c.slots t) alone }
{
    step_refusal(c, true, t)
}
