//! One word after the other: words into numbers, each in its column, kept in lent buffers.
ghost use mathlib.Core.{Path.◌≡◌, Bool.false};
ghost use Rattle.std.specs.Prelude.{◌+◌, ◌^◌, ◌<◌, ◌≤◌, length, take, Ok};
ghost use Rattle.historyfile.specs.Buffer.{BothWritten, Within, Written, ahead, held, reading, separated};
ghost use Rattle.historyfile.specs.Reading.{appended, at_start, ended_line, kept, next_column, next_line, numbered};
ghost use Rattle.historyfile.specs.{Reading.{read_word, stopped, turned, whole}, Words.says};
ghost use Rattle.historyfile.specs.declared.words.Meaning.TheVariants.{Number, Order};

use crate::words;
use crate::words::{Fault, Meaning};

/// Where the reading stands.
#[derive(Clone, Copy)]
pub struct Place {
    /// The line, from 1.
    pub line: u64,
    /// The column of the next word of a call, 0 to 6; 7 behind the last, 8 in the order.
    // A number and no enum, since `words::says` answers for every number, and may ask no more of its callers.
    pub column: u64,
    /// The label of the call is `-`.
    pub unlabelled: bool,
    /// Why the text cannot be read, if it cannot.
    pub fault: Option<Fault>,
}

/// Behind a word: where the reading stands, and the number that it gave, if any.
#[derive(Clone, Copy)]
pub struct Turn {
    pub place: Place,
    pub value: Option<u64>,
}

/// How far the reading is: the numbers kept of the calls and of the order, where the word under way begins, and whether a comment is read.
#[derive(Clone, Copy)]
pub struct State {
    pub place: Place,
    pub calls: usize,
    pub order: usize,
    pub from: usize,
    pub comment: bool,
}

fn stops(p: Place, why: Fault) -> Turn
    ensures { result ≡ stopped p why }
{
    let place = Place {
        fault: Some(why),
        ..p
    };
    Turn { place, value: None }
}

fn next_column(column: u64) -> u64
    ensures { result ≡ next_column column }
{
    if column < 8 { column + 1 } else { column }
}

fn gives(p: Place, dash: bool, value: u64) -> Turn
    ensures { result ≡ numbered p dash value }
{
    let place = Place {
        column: next_column(p.column),
        unlabelled: dash,
        fault: None,
        ..p
    };
    Turn {
        place,
        value: Some(value),
    }
}

// In the order.
fn begins_order(p: Place) -> Turn
    ensures { result ≡ turned p (Ok Order) }
{
    let place = Place {
        column: 8,
        unlabelled: false,
        fault: None,
        ..p
    };
    Turn { place, value: None }
}

fn take_number(p: Place, n: u64) -> Turn
    ensures { result ≡ turned p (Ok (Number n)) }
{
    if p.unlabelled & (p.column == 4) & (n != 3) {
        return stops(p, Fault::Unlabelled);
    }
    gives(p, p.unlabelled, n)
}

fn behind_word(p: Place, word: &[u8]) -> Turn
    ensures { result ≡ turned p (says p.column word.now) }
{
    match words::says(p.column, word) {
        Ok(Meaning::Number(n)) => take_number(p, n),
        Ok(Meaning::NoLabel) => gives(p, true, 0),
        Ok(Meaning::Order) => begins_order(p),
        Err(why) => stops(p, why),
    }
}

// The line after this one, in the first column or still in the order.
fn next_line(p: Place) -> Place
    ensures { result ≡ next_line p }
{
    Place {
        line: p.line.wrapping_add(1),
        column: if p.column == 7 { 0 } else { p.column },
        unlabelled: false,
        fault: None,
    }
}

fn end_line(p: Place) -> Place
    ensures { result ≡ ended_line p }
{
    if p.fault.is_some() {
        return p;
    }
    if (0 < p.column) & (p.column < 7) {
        return stops(p, Fault::Seven).place;
    }
    next_line(p)
}

// Keeps a number, if there is one and room for it, and answers how many are kept.
fn keep(value: Option<u64>, count: usize, values: &mut [u64]) -> usize
    requires { count ≤ length values.old }
    ensures values_after { take result values.new ≡ take (length values.old) (appended value (take count values.old)) }
    ensures upper_bound { result ≤ length values.old }
    ensures written { Written count result values.old values.new }
{
    match value {
        Some(n) if count < values.len() => {
            values[count] = n;
            count + 1
        }
        _ => count,
    }
}

// The numbers kept with one more, of a call or of the order.
fn keep_turn(s: State, t: Turn, calls: &mut [u64], order: &mut [u64]) -> State
    requires { Within s (length calls.old) (length order.old) }
    ensures order_after { reading result calls.new order.new
        ≡ held (length calls.old) (length order.old) (kept t (reading s calls.old order.old)) }
    ensures within { Within result (length calls.old) (length order.old) × (result.from ≡ s.from) × (result.comment ≡ s.comment) }
    ensures both_written { BothWritten s result calls.old order.old calls.new order.new }
{
    if s.place.column == 8 {
        let n = keep(t.value, s.order, order);
        return State {
            place: t.place,
            order: n,
            ..s
        };
    }
    let m = keep(t.value, s.calls, calls);
    State {
        place: t.place,
        calls: m,
        ..s
    }
}

// A word, if there is one.
fn take_word(s: State, word: &[u8], calls: &mut [u64], order: &mut [u64]) -> State
    requires { Within s (length calls.old) (length order.old) }
    ensures order_after { reading result calls.new order.new
        ≡ held (length calls.old) (length order.old)
        (read_word word.now (reading s calls.old order.old)) }
    ensures within { Within result (length calls.old) (length order.old) × (result.from ≡ s.from) × (result.comment ≡ s.comment) }
    ensures both_written { BothWritten s result calls.old order.old calls.new order.new }
{
    if word.is_empty() | s.place.fault.is_some() {
        return s;
    }
    let t = behind_word(s.place, word);
    keep_turn(s, t, calls, order)
}

// Behind byte i, which ended a word.
fn separate(s: State, b: u8, i: usize) -> State
    requires { i + 1 < 2 ^ 64 }
    ensures { result ≡ separated s b (i + 1) }
{
    if b == b'\n' {
        return State {
            place: end_line(s.place),
            from: i + 1,
            comment: false,
            ..s
        };
    }
    State {
        from: i + 1,
        comment: s.comment | (b == b'#'),
        ..s
    }
}

// The reading one byte on: what is ahead stays what it was.
fn take_byte(s: State, text: &[u8], i: usize, calls: &mut [u64], order: &mut [u64]) -> State
    requires { (i < length text.now) × (s.from ≤ i) × Within s (length calls.old) (length order.old) }
    ensures order_after { ahead (length calls.old) (length order.old) text.now (i + 1) result calls.new order.new
        ≡ ahead (length calls.old) (length order.old) text.now i s calls.old order.old }
    ensures from_bound { (result.from ≤ i + 1) × Within result (length calls.old) (length order.old) }
    ensures both_written { BothWritten s result calls.old order.old calls.new order.new }
{
    let b = text[i];
    if words::of_word(s.comment, b) {
        return s;
    }
    let t = take_word(s, &text[s.from..i], calls, order);
    separate(t, b, i)
}

fn begin() -> State
    ensures { result ≡ record { place = at_start; calls = 0; order = 0; from = 0; comment = false } }
{
    let place = Place {
        line: 1,
        column: 0,
        unlabelled: false,
        fault: None,
    };
    State {
        place,
        calls: 0,
        order: 0,
        from: 0,
        comment: false,
    }
}

/// The whole text, its last word and line ended: the first numbers of its calls and of its order, as many as there is room for.
pub fn read(text: &[u8], calls: &mut [u64], order: &mut [u64]) -> State
    ensures order_after { reading result calls.new order.new
        ≡ held (length calls.old) (length order.old) (whole text.now) }
    ensures within { Within result (length calls.old) (length order.old) }
    ensures written { Written 0 result.calls calls.old calls.new × Written 0 result.order order.old order.new }
{
    let mut s = begin();
    for i in 0..text.len() {
        s = take_byte(s, text, i, calls, order);
    }
    let t = take_word(s, &text[s.from..], calls, order);
    State {
        place: end_line(t.place),
        ..t
    }
}
