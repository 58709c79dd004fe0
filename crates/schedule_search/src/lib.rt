//! The search for a schedule: a step, what comes after it, and back.
#![tactic(auto)]

ghost use mathlib.Core.{Path.◌≡◌, Bool.{cond, false}, List.{[], ◌∷◌}};
ghost use Rattle.std.specs.Prelude.{◌≤◌, ◌<◌, set, is_some};
ghost use Rattle.model.specs.Tables.{Tables};
ghost use Rattle.layout.specs.Rows.{records_of, queue_in};
ghost use Rattle.schedule_model.specs.{Endings.number_of, Schedules.{ends, both_answered}, Search.ended};
ghost use Rattle.schedule_search.specs.Sought.{seeking, branch, choice, found_of, Sought, sought, ends_here, under};

mod undo;

use schedule_model::Ending;
use undo::Rows;

/// A schedule's length, and how it ends, by the number that C reads.
// A number and no `Ending`, since a `Schedule` of `schedule_model/specs` ends with one, which `zc_next_schedule` tells.
#[derive(Clone, Copy)]
pub struct Found {
    pub length: u64,
    pub ending: u64,
}

/// A schedule that ends here, after so many steps, if any schedule will do.
fn ended(free: bool, made: u64, ending: Ending) -> Option<Found>
    ensures { result ≡ found_of made (ended free (ends (number_of ending))) }
{
    if free {
        Some(Found {
            length: made,
            ending: u64::from(ending),
        })
    } else {
        None
    }
}

/// How a schedule ends here, if it doesn't go on.
fn ending(stopped: bool, pair: &[[u64; layout::RECORD_WORDS]; 2], left: u64) -> Option<Ending>
    ensures { (q : Tables) → result ≡ ends_here stopped (both_answered (record { tables = q; records = records_of pair.now })) left }
{
    if stopped {
        return Some(Ending::Refused);
    }
    let a = layout::call_at(pair, 0);
    let b = layout::call_at(pair, 1);
    if (a.place == 0) & (b.place == 0) {
        return Some(Ending::Answered);
    }
    if left == 0 { Some(Ending::Cut) } else { None }
}

/// Whether task t may be next: not where it is idle or the given list forbids it. If so, whether any schedule that goes on with
/// it will do; else the rest of the list binds.
fn choose(
    t: u64,
    pair: &[[u64; layout::RECORD_WORDS]; 2],
    left: u64,
    free: bool,
    len: u64,
    given: &[u64],
) -> Option<bool>
    requires { left ≤ 48 }
    ensures { (q : Tables)
        → result ≡ choice given.now len left free (record { tables = q; records = records_of pair.now }) t }
{
    let r = layout::call_at(pair, t as usize);
    if r.place == 0 {
        return None;
    }
    if free || len <= 48 - left {
        return Some(true);
    }
    let least = table::get_or(given, 49 - left, 0);
    if t < least { None } else { Some(t != least) }
}

/// A step of what was found is stored on the way back.
fn note(f: Option<Found>, given: &mut [u64], at: u64, t: u64)
    ensures { given.new ≡ cond (is_some f) (set given.old at t) given.old }
{
    if f.is_some() {
        table::set(given, at, t);
    }
}

/// The first schedule of the calls in the rows a and b after the given list of length `len`. Its steps are stored in the list's place.
pub fn search(
    control: [u64; layout::CONTROL_WORDS],
    a: [u64; layout::RECORD_WORDS],
    b: [u64; layout::RECORD_WORDS],
    len: u64,
    given: &mut [u64],
    lefts: &mut [u64],
    rights: &mut [u64],
    labels: &mut [u32],
    marks: &mut [u64],
    next: &mut [u64],
) -> Option<Found>
    ensures { ◌≡◌ {A = Sought}
        (record {
          found = result;
          memory = given.new;
          queue = queue_in control (a ∷ b ∷ []) lefts.new rights.new labels.new marks.new next.new;
        })
        (let q = queue_in control (a ∷ b ∷ []) lefts.old rights.old labels.old marks.old next.old in
        let ws = given.old in
        sought 48 ws (seeking ws len 48 false q) q) }
{
    // The rows are stored one by one: written as `[a, b]`, both are made apart and copied in by a call of memcpy.
    let mut rows = Rows {
        control,
        pair: [[0; layout::RECORD_WORDS]; 2],
    };
    rows.pair[0] = a;
    rows.pair[1] = b;
    seek(
        false, &mut rows, 48, false, len, given, lefts, rights, labels, marks, next,
    )
}

/// The first schedule from here on, with `left` steps to go, after a step that was refused (stopped) or made. free: any will
/// do, else one after the given list of length `len`, which the steps so far follow.
// `len` stays while the words of `given` change, so both in one struct would ask of each call to promise that `len` is as before.
#[cycle(seek_through)]
fn seek(
    stopped: bool,
    rows: &mut Rows,
    left: u64,
    free: bool,
    len: u64,
    given: &mut [u64],
    lefts: &mut [u64],
    rights: &mut [u64],
    labels: &mut [u32],
    marks: &mut [u64],
    next: &mut [u64],
) -> Option<Found>
    requires { left ≤ 48 }
    ensures { ◌≡◌ {A = Sought}
        (record {
          found = result;
          memory = given.new;
          queue = queue_in rows.new.control rows.new.pair
              lefts.new rights.new labels.new marks.new next.new;
        })
        (let q = queue_in rows.old.control rows.old.pair
        lefts.old rights.old labels.old marks.old next.old in
        let ws = given.old in
        sought left ws (under stopped free (seeking ws len left free q)) q) }
{
    if let Some(e) = ending(stopped, &rows.pair, left) {
        return ended(free, 48 - left, e);
    }
    for t in 0..2 {
        let f = through(
            t, rows, left, free, len, given, lefts, rights, labels, marks, next,
        );
        if f.is_some() {
            return f;
        }
    }
    None
}

/// Those that begin with task t, if it is busy and the given list lets it: steps it, goes on, and puts back what the step
/// wrote. Called at one place, so that a level of the search is one frame.
#[cycle(seek_through)]
fn through(
    t: u64,
    rows: &mut Rows,
    left: u64,
    free: bool,
    len: u64,
    given: &mut [u64],
    lefts: &mut [u64],
    rights: &mut [u64],
    labels: &mut [u32],
    marks: &mut [u64],
    next: &mut [u64],
) -> Option<Found>
    requires { (t < 2) × ((0 < left) × (left ≤ 48)) }
    ensures { ◌≡◌ {A = Sought}
        (record {
          found = result;
          memory = given.new;
          queue = queue_in rows.new.control rows.new.pair
              lefts.new rights.new labels.new marks.new next.new;
        })
        (let q = queue_in rows.old.control rows.old.pair
        lefts.old rights.old labels.old marks.old next.old in
        let ws = given.old in
        sought left ws (branch ws len left free q t) q) }
{
    let Some(any) = choose(t, &rows.pair, left, free, len, given) else {
        return None;
    };
    let i = t as usize;
    let k = undo::step(i, rows, lefts, rights, labels, marks, next);
    let f = seek(
        k.stopped,
        rows,
        left - 1,
        any,
        len,
        given,
        lefts,
        rights,
        labels,
        marks,
        next,
    );
    undo::back(k, i, rows, lefts, rights, labels, marks, next);
    note(f, given, 49 - left, t);
    f
}
