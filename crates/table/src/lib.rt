//! Reads and stores on lent tables, defined for every index: past the end a read gives what the caller names, and a
//! store does nothing.
#![tactic(auto)]

ghost use Rattle.std.specs.Prelude.{◌≡◌, ◌<◌, ◌≤◌, length, get_or, set};
ghost use Rattle.model.specs.{Tables.{marked, with_mark}, Calls.stacked, Route.counted, Lists.zeroed};
ghost use Rattle.table.specs.{Filling.filling, Stacking.stacking};

/// A task's failed changes, with one more or not; the count stays at the ceiling.
pub fn counted(retries: u64, failed: bool) -> u64
    ensures { result ≡ counted retries failed }
{
    if failed {
        if retries < 4294967295 {
            return retries + 1;
        }
    }
    retries
}

/// Entry i, or `beyond` past the table's end.
pub fn get_or<T: Copy>(t: &[T], i: u64, beyond: T) -> T
    ensures { result ≡ get_or t.now i beyond }
{
    match t.get(i as usize) {
        Some(entry) => *entry,
        None => beyond,
    }
}

/// Stores v as entry i, where there is one.
pub fn set<T: Copy>(t: &mut [T], i: u64, v: T)
    ensures { t.new ≡ set t.old i v }
{
    let k = i as usize;
    if k < t.len() {
        t[k] = v;
    }
}

/// Whether slot n is taken.
pub fn marked(marks: &[u64], n: u64) -> bool
    ensures { result ≡ marked marks.now n }
{
    (get_or(marks, n / 64, 0) >> (n % 64)) & 1 == 1
}

pub fn set_mark(marks: &mut [u64], n: u64)
    ensures { marks.new ≡ with_mark marks.old n 1 }
{
    let k = (n / 64) as usize;
    if k < marks.len() {
        marks[k] = marks[k] | (1 << (n % 64));
    }
}

pub fn clear_mark(marks: &mut [u64], n: u64)
    ensures { marks.new ≡ with_mark marks.old n 0 }
{
    let k = (n / 64) as usize;
    if k < marks.len() {
        marks[k] = marks[k] & !(1 << (n % 64));
    }
}

/// Overwrites the first n entries of a table that has as many.
pub fn fill<T: Copy>(t: &mut [T], n: u64, v: T)
    ensures { t.new ≡ filling n v t.old }
{
    let k = n as usize;
    if k <= t.len() {
        for i in 0..k {
            t[i] = v;
        }
    }
}

/// Each slot leads to the one above, row 0 and the last one to none.
fn fill_stack(t: &mut [u64], slots: u64)
    requires { slots < length t.old }
    ensures { t.new ≡ stacked slots t.old }
{
    t[0] = 0;
    if slots == 0 {
        return;
    }
    let last = slots as usize;
    for i in 1..last {
        t[i] = i as u64 + 1;
    }
    t[last] = 0;
}

/// Stacks all slots in a next table that has a row for each, in a pooled queue.
pub fn stack_slots(pooled: bool, t: &mut [u64], slots: u64)
    ensures { t.new ≡ stacking pooled slots t.old }
{
    let last = slots as usize;
    if pooled & (last < t.len()) {
        fill_stack(t, slots);
    }
}
