//! A line of the trace, a text or a number, written into a lent buffer where it has room.
#![tactic(auto, using(crate::proofs::Puts::puts), unfolding(crate::specs::Line::given_room))]

mod number;

ghost use Rattle.std.specs.Prelude.{◌≡◌, ◌+◌, ◌≤◌};
ghost use lib.{ListN.length, Dec.leb};
ghost use Rattle.lines.specs.Line.{call_word, call_of, entry_of, answer_of, moved, outcome_of, opening_of, told, room};
ghost use Rattle.lines.specs.Line.{anchor_text, line_of, header, decimal, Put, given_room};
ghost use Rattle.lines.specs.declared.Line;

use model::{Answer, Entry, Op, Opening, Outcome};

/// What a line tells besides its event number and Anchor.
#[derive(Clone, Copy)]
pub enum Line {
    Open(Opening),
    Act {
        task: usize,
        op: Op,
        outcome: Outcome,
    },
    /// A malformed place.
    File,
}

/// No line is longer.
pub const ROOM: usize = 128;

fn put_word(out: &mut [u8], at: usize, op: Op) -> usize
    requires { at + 6 ≤ length out.old }
    ensures put { Put out.old out.new at result (call_word op) }
    ensures upper_bound { result ≤ at + 6 }
{
    match op {
        Op::Push { .. } | Op::PushPooled { .. } => number::put_text(out, at, b" push "),
        Op::Pop { .. } => number::put_text(out, at, b" pop "),
        Op::Step => number::put_text(out, at, b" step "),
    }
}

fn put_call(out: &mut [u8], at: usize, task: usize, op: Op) -> usize
    requires { at + 27 ≤ length out.old }
    ensures put { Put out.old out.new at result (call_of task op) }
    ensures upper_bound { result ≤ at + 27 }
{
    let a = number::put_numbered(out, at, b" ", task as u64);
    put_word(out, a, op)
}

fn put_entry(out: &mut [u8], at: usize, e: Entry) -> usize
    requires { at + 45 ≤ length out.old }
    ensures put { Put out.old out.new at result (entry_of e) }
    ensures upper_bound { result ≤ at + 45 }
{
    let a = number::put_numbered(out, at, b"got:", e.slot);
    number::put_numbered(out, a, b":", e.label as u64)
}

fn put_answer(out: &mut [u8], at: usize, answer: Answer) -> usize
    requires { at + 45 ≤ length out.old }
    ensures put { Put out.old out.new at result (answer_of answer) }
    ensures upper_bound { result ≤ at + 45 }
{
    match answer {
        Answer::Running(p) => number::put_numbered(out, at, b"at", p),
        Answer::Pushed => number::put_text(out, at, b"pushed"),
        Answer::Empty => number::put_text(out, at, b"empty"),
        Answer::Popped(e) => put_entry(out, at, e),
        Answer::NoFreeSlot => number::put_text(out, at, b"noslot"),
    }
}

fn put_moved(out: &mut [u8], at: usize, op: Op, answer: Answer) -> usize
    requires { at + 45 ≤ length out.old }
    ensures put { Put out.old out.new at result (moved op answer) }
    ensures upper_bound { result ≤ at + 45 }
{
    match op {
        Op::Step => put_answer(out, at, answer),
        _ => number::put_text(out, at, b"ok"),
    }
}

fn put_outcome(out: &mut [u8], at: usize, op: Op, outcome: Outcome) -> usize
    requires { at + 45 ≤ length out.old }
    ensures put { Put out.old out.new at result (outcome_of op outcome) }
    ensures upper_bound { result ≤ at + 45 }
{
    match outcome {
        Err(refusal) => number::put_numbered(out, at, b"no", u64::from(refusal.number)),
        Ok(a) => put_moved(out, at, op, a),
    }
}

fn put_opening(out: &mut [u8], at: usize, opening: Opening) -> usize
    requires { at + 22 ≤ length out.old }
    ensures put { Put out.old out.new at result (opening_of opening) }
    ensures upper_bound { result ≤ at + 22 }
{
    match opening {
        Err(refusal) => number::put_numbered(out, at, b"no", u64::from(refusal.number)),
        Ok(()) => number::put_text(out, at, b"ok"),
    }
}

fn put_open(out: &mut [u8], at: usize, opening: Opening) -> usize
    requires { at + 72 ≤ length out.old }
    ensures put { Put out.old out.new at result (told (Line.Open opening)) }
    ensures upper_bound { result ≤ at + 72 }
{
    let a = number::put_text(out, at, b" - open ");
    put_opening(out, a, opening)
}

fn put_act(out: &mut [u8], at: usize, task: usize, op: Op, outcome: Outcome) -> usize
    requires { at + 72 ≤ length out.old }
    ensures put { Put out.old out.new at result (told (Line.Act task op outcome)) }
    ensures upper_bound { result ≤ at + 72 }
{
    let a = put_call(out, at, task, op);
    put_outcome(out, a, op, outcome)
}

fn put_told(out: &mut [u8], at: usize, line: Line) -> usize
    requires { at + 72 ≤ length out.old }
    ensures put { Put out.old out.new at result (told line) }
    ensures upper_bound { result ≤ at + 72 }
{
    match line {
        Line::Open(opening) => put_open(out, at, opening),
        Line::Act { task, op, outcome } => put_act(out, at, task, op, outcome),
        Line::File => number::put_text(out, at, b" - file no16"),
    }
}

// A space, the Anchor and the line's end.
fn put_anchor(out: &mut [u8], at: usize, w: u64) -> usize
    requires { at + 18 ≤ length out.old }
    ensures put { Put out.old out.new at result (anchor_text w) }
    ensures value { result ≡ at + 18 }
{
    let a = number::put(out, at, b' ');
    let b = number::put_hex(out, a, w);
    number::put(out, b, b'\n')
}

fn put_line(out: &mut [u8], at: usize, event: u64, line: Line, anchor: u64) -> usize
    requires { at + 128 ≤ length out.old }
    ensures put { Put out.old out.new at result (line_of event line anchor) }
    ensures upper_bound { result ≤ at + 128 }
{
    let a = number::put_decimal(out, at, event);
    let b = put_told(out, a, line);
    put_anchor(out, b, anchor)
}

fn put_header(out: &mut [u8], at: usize) -> usize
    requires { at + 128 ≤ length out.old }
    ensures put { Put out.old out.new at result header }
    ensures upper_bound { result ≤ at + 128 }
{
    number::put_text(out, at, b"event task call answer anchor\n")
}

// Whether a buffer of `len` bytes has room for n bytes at a position.
fn has_room(len: usize, at: usize, n: usize) -> bool
    ensures { result ≡ leb (at + n) len }
{
    n <= len && at <= len - n
}

/// Whether a buffer of `len` bytes has room for a line at a position.
pub fn fits(len: usize, at: usize) -> bool
    ensures { result ≡ leb (at + room) len }
{
    has_room(len, at, ROOM)
}

/// A line from position `at` on, where the buffer has `ROOM` bytes for it; otherwise nothing.
pub fn write_line(out: &mut [u8], at: usize, event: u64, line: Line, anchor: u64) -> usize
    ensures put { Put out.old out.new at result (given_room room (length out.old) at (line_of event line anchor)) }
    ensures upper_bound { result ≤ at + 128 }
{
    if fits(out.len(), at) {
        put_line(out, at, event, line, anchor)
    } else {
        at
    }
}

/// The trace's first line, under the same rule.
pub fn write_header(out: &mut [u8], at: usize) -> usize
    ensures put { Put out.old out.new at result (given_room room (length out.old) at header) }
    ensures upper_bound { result ≤ at + 128 }
{
    if fits(out.len(), at) {
        put_header(out, at)
    } else {
        at
    }
}

/// A text from position `at` on, where the buffer has room for it; otherwise nothing.
pub fn write_text(out: &mut [u8], at: usize, s: &[u8]) -> usize
    ensures put { Put out.old out.new at result (given_room (length s.now) (length out.old) at s.now) }
    ensures upper_bound { result ≤ at + length s.now }
{
    if has_room(out.len(), at, s.len()) {
        number::put_text(out, at, s)
    } else {
        at
    }
}

/// A number's decimal digits, where the buffer has room for 20, the most that there are; otherwise nothing.
pub fn write_decimal(out: &mut [u8], at: usize, n: u64) -> usize
    ensures put { Put out.old out.new at result (given_room 20 (length out.old) at (decimal n)) }
    ensures upper_bound { result ≤ at + 20 }
{
    if has_room(out.len(), at, 20) {
        number::put_decimal(out, at, n)
    } else {
        at
    }
}
