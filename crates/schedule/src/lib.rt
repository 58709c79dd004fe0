//! Every order for two tasks: the schedule after the one that the lent memory holds.
#![tactic(auto)]

ghost use mathlib.Core.{Path.◌≡◌, Bool.{◌&&◌, not, false}, List.{List, [], ◌∷◌}};
ghost use lib.{Dec.{eqb, leb}, ListN.get_or};
ghost use Rattle.model.specs.{declared.Record.Record, Tables.{tables_of, queue_of, unused}, Refusals.{first, table_rules}};
ghost use Rattle.sound.specs.Lengths.{tables_fit};
ghost use Rattle.layout.specs.Rows.{control_of, record_of, records_of, queue_in};
ghost use Rattle.schedule_model.specs.Next.{memory_length, schedule_refusal, handing};
ghost use Rattle.schedule_search.specs.Sought.{seeking};
ghost use Rattle.schedule.specs.Answered.{refusal_after, Begins, Answered, answered};

use model::{Call, Control};
use schedule_model::{Ending, ScheduleReply};
use sound::Lengths;
use walk::Unsound;

/// 34 for control and Anchor, and 12. The tables and the memory are given by their lengths.
fn unfit_tables(c: Control, memory: usize, t: Lengths) -> u32
    ensures { result ≡ first (table_rules c (tables_fit c t && leb 49 memory)) }
{
    if !sound::control_sound(c) {
        return 34;
    }
    let fits = sound::tables_fit(c, t) & (49 <= memory);
    if fits { 0 } else { 12 }
}

/// 34 for the walk, and 42.
fn unfit(c: Control, a: Call, b: Call, walked: Result<u64, Unsound>) -> u32
    ensures { result ≡ refusal_after (eqb c.tasks 2 && not (eqb a.place 0) && not (eqb b.place 0)) walked }
{
    let two = (c.tasks == 2) & !(a.place == 0) & !(b.place == 0);
    match walked {
        Err(Unsound) => 34,
        Ok(n) => { if two & (n <= 4) { 0 } else { 42 } }
    }
}

/// Why a call is refused; 0: it is not. a and b are the calls of the first two of so many records.
fn refusal(
    c: Control,
    a: Call,
    b: Call,
    records: usize,
    given: &[u64],
    lefts: &[u64],
    rights: &[u64],
    labels: &[u32],
    marks: &[u64],
    next: &[u64],
) -> u32
    ensures { (rs : List Record) → Begins rs records a b
        → result ≡ schedule_refusal (queue_of c rs lefts.now rights.now labels.now marks.now next.now)
        given.now }
{
    let t = Lengths::of(records, lefts, rights, labels, marks, next);
    let why = unfit_tables(c, given.len(), t);
    if why != 0 {
        return why;
    }
    let walked = walk::waiting(c, lefts, rights);
    unfit(c, a, b, walked)
}

fn refused(why: u32) -> ScheduleReply
    ensures { result ≡ record { code = why; ending = 0; length = 0 } }
{
    ScheduleReply {
        code: why as u64,
        ending: 0,
        length: 0,
    }
}

/// A task's row, or an idle one where there is no such task.
fn row_at(records: &[[u64; layout::RECORD_WORDS]], task: usize) -> [u64; layout::RECORD_WORDS]
    ensures { record_of result ≡ get_or (records_of records.now) task unused }
{
    match records.get(task) {
        Some(row) => *row,
        None => [0; layout::RECORD_WORDS],
    }
}

/// The length of the remembered list.
fn memory_length(given: &[u64]) -> u64
    ensures { result ≡ memory_length given.now }
{
    table::get_or(given, 0, 0).min(48)
}

/// The schedule after the remembered list, stored over it.
fn hand_out(
    control: [u64; layout::CONTROL_WORDS],
    a: [u64; layout::RECORD_WORDS],
    b: [u64; layout::RECORD_WORDS],
    given: &mut [u64],
    lefts: &mut [u64],
    rights: &mut [u64],
    labels: &mut [u32],
    marks: &mut [u64],
    next: &mut [u64],
) -> ScheduleReply
    ensures { ◌≡◌ {A = Answered}
        (record {
          handed = record { reply = result; memory = given.new };
          tables = tables_of (control_of control)
              lefts.new rights.new labels.new marks.new next.new;
        })
        (let q = queue_in control (a ∷ b ∷ []) lefts.old rights.old labels.old marks.old next.old in
        let ws = given.old in
        record { handed = handing ws (seeking ws (memory_length ws) 48 false q); tables = q.tables }) }
{
    let len = memory_length(given);
    let found = schedule_search::search(
        control, a, b, len, given, lefts, rights, labels, marks, next,
    );
    match found {
        Some(f) => {
            table::set(given, 0, f.length);
            ScheduleReply {
                code: 0,
                ending: f.ending,
                length: f.length,
            }
        }
        None => ScheduleReply {
            code: 0,
            ending: u64::from(Ending::NoMore),
            length: 0,
        },
    }
}

/// One call for C and Rust, with control and records lent as rows of words.
#[unsafe(no_mangle)]
pub extern "C" fn zc_next_schedule(
    control: &[u64; layout::CONTROL_WORDS],
    records: &[[u64; layout::RECORD_WORDS]],
    schedule: &mut [u64],
    lefts: &mut [u64],
    rights: &mut [u64],
    labels: &mut [u32],
    marks: &mut [u64],
    next: &mut [u64],
) -> ScheduleReply
    ensures { ◌≡◌ {A = Answered}
        (record {
          handed = record { reply = result; memory = schedule.new };
          tables = tables_of (control_of control.now)
              lefts.new rights.new labels.new marks.new next.new;
        })
        (answered
        (tables_of (control_of control.now) lefts.old rights.old labels.old marks.old next.old)
        (records_of records.now) schedule.old) }
{
    let words = *control;
    let c = layout::control_of(words);
    let x = layout::call_at(records, 0);
    let y = layout::call_at(records, 1);
    let n = records.len();
    let why = refusal(c, x, y, n, schedule, lefts, rights, labels, marks, next);
    if why != 0 {
        return refused(why);
    }
    let a = row_at(records, 0);
    let b = row_at(records, 1);
    hand_out(words, a, b, schedule, lefts, rights, labels, marks, next)
}
