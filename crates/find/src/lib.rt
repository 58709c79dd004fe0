//! Where labels wait, found in one walk of the queue that reads each waiting slot's row once.
#![tactic(auto)]

ghost use mathlib.Core.{Path.◌≡◌, Bool.{true, false, ◌||◌}, List.List};
ghost use Rattle.std.specs.Prelude.{ℕ, ◌+◌, ◌%◌, ◌<◌, ◌≤◌};
ghost use lib.{Dec.{leb, ltb}, ListN.{length, get_or, set, replicate}};
ghost use Rattle.model.specs.{Tables.{tables_of, marked}, Sound.{control_sound, from1, rows_fit}};
ghost use Rattle.layout.specs.Rows.{control_of};
ghost use Rattle.walk.specs.{Over.over, Ways.{ahead, beginning_of, walk_by}};
ghost use Rattle.find_model.specs.{Find.find, Noting.{pick, note, turned}};
ghost use Rattle.find.specs.Sieve.{Sifted, Ready};
ghost use Rattle.find.specs.Looked.{Looks, noted, note_on, turning, found_in, answered, refusal_before};

use find_model::FindReply;
use model::Control;
use sound::Lengths;
use walk::{Unsound, Way};

/// Marks the labels asked for, modulo 1,024: a label whose mark is clear is none of them.
fn sift(wanted: &[u32], sieve: &mut [u64])
    requires { length sieve.old ≡ 16 }
    ensures { Sifted wanted.now sieve.new }
{
    for x in wanted {
        table::set_mark(sieve, u64::from(*x) % 1024);
    }
}

/// Notes the k-th slot met, which holds y, for label x.
fn put(foremost: bool, x: u32, y: u32, k: u64, p: &mut u64)
    ensures { p.new ≡ pick foremost x y k p.old }
{
    if y == x && (!foremost || *p == 0) {
        *p = k;
    }
}

/// The same for each label asked for.
fn note(foremost: bool, y: u32, k: u64, wanted: &[u32], positions: &mut [u64])
    requires { length wanted.now ≤ length positions.old }
    ensures { positions.new ≡ note foremost y k wanted.now positions.old }
{
    for (i, x) in wanted.iter().enumerate() {
        put(foremost, *x, y, k, &mut positions[i]);
    }
}

// So many slots are compared with each label asked for; with more a sieve spares most comparisons.
const FEW: u64 = 4;

/// Sifts when n slots were met and more are to come.
fn ready(n: u64, wanted: &[u32], sieve: &mut [u64])
    requires { Ready n wanted.now sieve.old }
    ensures { Ready (n + 1) wanted.now sieve.new }
{
    if n == FEW {
        sift(wanted, sieve);
    }
}

/// Whether the k-th slot met may hold a label asked for.
fn passes(y: u32, k: u64, sieve: &[u64]) -> bool
    ensures { result ≡ leb k 4 || marked sieve.now (y % 1024) }
{
    k <= FEW || table::marked(sieve, u64::from(y) % 1024)
}

/// Notes the k-th slot met, beyond the first few at the cost of one mark for a label that was not asked for.
fn meet(foremost: bool, y: u32, k: u64, wanted: &[u32], sieve: &[u64], positions: &mut [u64])
    requires { Ready k wanted.now sieve.now × (length wanted.now ≤ length positions.old) }
    ensures { positions.new ≡ note foremost y k wanted.now positions.old }
{
    if passes(y, k, sieve) {
        note(foremost, y, k, wanted, positions);
    }
}

/// Along the way, noting each slot met.
fn look(
    w: Way,
    lefts: &[u64],
    rights: &[u64],
    labels: &[u32],
    wanted: &[u32],
    sieve: &mut [u64],
    positions: &mut [u64],
) -> Result<u64, Unsound>
    requires { Looks w wanted.now sieve.old positions.old }
    ensures { noted result positions.new ≡ over (note_on w.rightward wanted.now)
        (record { count = 0; positions = positions.old })
        (ahead w lefts.now rights.now labels.now) }
{
    let mut x = w.first;
    for n in 0..w.slots {
        ready(n, wanted, sieve);
        let label = table::get_or(labels, x, 0);
        meet(w.rightward, label, n + 1, wanted, sieve, positions);
        let Some(y) = walk::leads(w, lefts, rights, x)? else {
            return Ok(n + 1);
        };
        x = y;
    }
    Err(Unsound)
}

/// A position counted from the other end of so many rows.
fn turned(rows: u64, p: u64) -> u64
    requires { p ≤ rows }
    ensures { result ≡ turned rows p }
{
    if p == 0 { 0 } else { rows - p + 1 }
}

/// The first n positions, all of them within so many rows.
fn turn(rows: u64, n: usize, positions: &mut [u64])
    requires { (n ≤ length positions.old) × ((i : ℕ) → get_or positions.old i 0 ≤ rows) }
    ensures { positions.new ≡ turning (turned rows) n positions.old }
{
    for i in 0..n {
        positions[i] = turned(rows, positions[i]);
    }
}

/// 34 for control and Anchor, 45, 12. No next table is lent, so none counts.
fn refusal(
    c: Control,
    wanted: &[u32],
    lefts: &[u64],
    rights: &[u64],
    labels: &[u32],
    marks: &[u64],
) -> u32
    ensures { (next : List ℕ) → result ≡ refusal_before (control_sound c) (ltb 32 (length wanted.now)) (rows_fit false c.slots
        (tables_of c lefts.now rights.now labels.now marks.now next)) }
{
    let t = Lengths::of(0, lefts, rights, labels, marks, &[]);
    if !sound::control_sound(c) {
        return 34;
    }
    if 32 < wanted.len() {
        return 45;
    }
    if !sound::rows_fit(false, c.slots, t) {
        return 12;
    }
    0
}

/// Of the labels waiting: the rows, with the positions noted; no positions where a walk is unsound.
fn search(
    c: Control,
    lefts: &[u64],
    rights: &[u64],
    labels: &[u32],
    wanted: &[u32],
    positions: &mut [u64],
) -> Result<u64, Unsound>
    requires { (length wanted.now ≤ 32) × (positions.old ≡ replicate 32 0) }
    ensures { answered result positions.new
        ≡ found_in (walk_by (beginning_of c) lefts.now rights.now labels.now) wanted.now }
{
    let Some(w) = walk::begin(c)? else {
        return Ok(0);
    };
    let mut sieve: [u64; 16] = [0; 16];
    let Ok(rows) = look(w, lefts, rights, labels, wanted, &mut sieve, positions) else {
        table::fill(positions, 32, 0);
        return Err(Unsound);
    };
    if !w.rightward {
        turn(rows, wanted.len(), positions);
    }
    Ok(rows)
}

/// Where the labels asked for wait, whatever the next rows: for C and Rust, with control lent as its row of words.
#[unsafe(no_mangle)]
pub extern "C" fn zc_find(
    control: &[u64; layout::CONTROL_WORDS],
    wanted: &[u32],
    lefts: &[u64],
    rights: &[u64],
    labels: &[u32],
    marks: &[u64],
) -> FindReply
    ensures { (next : List ℕ) → result ≡ find
        (tables_of (control_of control.now) lefts.now rights.now labels.now marks.now next)
        wanted.now }
{
    let row = *control;
    let c = layout::control_of(row);
    let why = refusal(c, wanted, lefts, rights, labels, marks);
    if why != 0 {
        return FindReply {
            code: u64::from(why),
            rows: 0,
            positions: [0; 32],
        };
    }
    let mut positions: [u64; 32] = [0; 32];
    // One answer for both ends of the search: where each makes its own, the call takes 632 bytes of stack in place of 504.
    let (code, rows) = match search(c, lefts, rights, labels, wanted, &mut positions) {
        Ok(rows) => (0, rows),
        Err(Unsound) => (34, 0),
    };
    FindReply {
        code,
        rows,
        positions,
    }
}
