//! The labels waiting and their slots, written from left to right into lent tables.
#![tactic(auto)]

ghost use mathlib.Core.{Path.◌≡◌, Bool.false, List.List};
ghost use Rattle.std.specs.Prelude.{ℕ, ◌<◌};
ghost use Rattle.model.specs.{Tables.tables_of, Refusals.{first, table_rules}};
ghost use Rattle.sound.specs.Lengths.{lengths_fit};
ghost use Rattle.layout.specs.Rows.{control_of};
ghost use Rattle.walk.specs.Ways.{ahead, turned_back};
ghost use Rattle.waiting.specs.Waiting.{read_out, refused, slots_of, labels_of, written_out};
ghost use Rattle.waiting.specs.Laid.{Lays, Walks, trail, place, laid};

use model::Control;
use sound::Lengths;
use walk::{Unsound, Way};

/// The answer as C sees it.
#[repr(C)]
#[derive(Clone, Copy)]
pub struct WaitingReply {
    /// 0, or the number of a refusal.
    pub code: u64,
    /// The labels written, which are all that wait; 0 with a refusal.
    pub count: u64,
}

/// Where the i-th of n slots met goes: upwards from place 0, or downwards to it.
fn place(up: bool, n: u64, i: u64) -> usize
    requires { i < n }
    ensures { result ≡ place up n i }
{
    let k = if up { i } else { n - 1 - i };
    k as usize
}

/// n slots from the first one along the way, and their labels, so that they stand from left to right. The walk is
/// known to keep to the slots, so that no row is asked for.
fn lay(w: Way, n: u64, links: &[u64], labels: &[u32], slots: &mut [u64], copies: &mut [u32])
    requires { Lays w n links.now labels.now slots.old copies.old }
    ensures slots_after { slots.new
        ≡ laid w.rightward n 0 (slots_of (trail links.now labels.now n w.first)) slots.old }
    ensures copies_after { copies.new
        ≡ laid w.rightward n 0 (labels_of (trail links.now labels.now n w.first)) copies.old }
{
    let mut x = w.first;
    for i in 0..n {
        let k = place(w.rightward, n, i);
        slots[k] = x;
        copies[k] = labels[x as usize];
        x = walk::follow(links, x);
    }
}

/// 34 for control and Anchor, 12. No records and no next table are lent, so none count.
fn refusal(c: Control, t: Lengths) -> u32
    ensures { result ≡ first (table_rules c (lengths_fit false c.slots t)) }
{
    if !sound::control_sound(c) {
        return 34;
    }
    if !sound::rows_fit(false, c.slots, t) {
        return 12;
    }
    0
}

fn refused(number: u32) -> WaitingReply
    ensures { result ≡ refused number }
{
    WaitingReply {
        code: number as u64,
        count: 0,
    }
}

/// Counted and checked in one walk, then written in a second.
fn write_out(
    w: Way,
    slots: &mut [u64],
    copies: &mut [u32],
    lefts: &[u64],
    rights: &[u64],
    labels: &[u32],
) -> WaitingReply
    requires { Walks w lefts.now rights.now labels.now }
    ensures { record { reply = result; slots = slots.new; labels = copies.new } ≡ written_out
        (turned_back w (ahead w lefts.now rights.now labels.now)) slots.old copies.old }
{
    let Ok(n) = walk::count(w, lefts, rights) else {
        return refused(34);
    };
    if ((slots.len() as u64) < n) | ((copies.len() as u64) < n) {
        return refused(12);
    }
    if w.rightward {
        lay(w, n, rights, labels, slots, copies);
    } else {
        lay(w, n, lefts, labels, slots, copies);
    }
    WaitingReply { code: 0, count: n }
}

/// A refusal writes nothing.
fn read_out(
    c: Control,
    slots: &mut [u64],
    copies: &mut [u32],
    lefts: &[u64],
    rights: &[u64],
    labels: &[u32],
    marks: &[u64],
) -> WaitingReply
    ensures { (next : List ℕ) → record { reply = result; slots = slots.new; labels = copies.new } ≡ read_out
        (tables_of c lefts.now rights.now labels.now marks.now next)
        slots.old copies.old }
{
    let t = Lengths::of(0, lefts, rights, labels, marks, &[]);
    let why = refusal(c, t);
    if why != 0 {
        return refused(why);
    }
    match walk::begin(c) {
        Ok(None) => WaitingReply { code: 0, count: 0 },
        Ok(Some(w)) => write_out(w, slots, copies, lefts, rights, labels),
        Err(Unsound) => refused(34),
    }
}

/// The same for C and Rust, with control lent as its row of words.
#[unsafe(no_mangle)]
pub extern "C" fn zc_waiting(
    control: &[u64; layout::CONTROL_WORDS],
    slots: &mut [u64],
    copies: &mut [u32],
    lefts: &[u64],
    rights: &[u64],
    labels: &[u32],
    marks: &[u64],
) -> WaitingReply
    ensures { (next : List ℕ) → record { reply = result; slots = slots.new; labels = copies.new } ≡ read_out
        (tables_of (control_of control.now) lefts.now rights.now labels.now marks.now next)
        slots.old copies.old }
{
    let row = *control;
    let c = layout::control_of(row);
    read_out(c, slots, copies, lefts, rights, labels, marks)
}
