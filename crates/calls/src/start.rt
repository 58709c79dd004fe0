// The starts of a push that names its slot, of one that names none, and of a pop. Each goes by the lengths told, whatever
// lengths the tables have.
ghost use mathlib.Core.{Path.◌≡◌, List.[]};
ghost use Rattle.model.specs.{Tables.{new_call, started, asking}, Refusals.{nothing_asked, pooled_push}};
ghost use Rattle.calls.specs.Starting.{decided, refused_by, touching, push_refused_by, stored_unless};

use crate::refusal;
use model::{Answer, Asked, Call, Control, Refusal, Transition};
use sound::{Lengths, admission};

/// The whole record of a call at its first place.
pub fn new_call(place: u64, kind: u64, side: u64, own: u64, label: u32) -> Call
    ensures { result ≡ new_call place kind side own label }
{
    Call {
        place,
        kind,
        side,
        own,
        label,
        seen: 0,
        neighbour: 0,
        link: 0,
        finishing: 0,
    }
}

/// A start that writes nothing but its record.
fn decided(c: Control, r: Call, why: u32, task: Call) -> Transition
    ensures { result ≡ decided c r why task }
{
    if why == 0 {
        let answer = Answer::Running(task.place);
        Transition {
            control: c,
            task,
            outcome: Ok(answer),
            failed: false,
        }
    } else {
        Transition {
            control: c,
            task: r,
            outcome: Err(Refusal { number: why }),
            failed: false,
        }
    }
}

pub fn pop_start(c: Control, r: Call, task: usize, side: u64, t: Lengths) -> Transition
    ensures { result ≡ decided c r (refused_by t c task r side nothing_asked) (started 1 side 0 0) }
{
    let asked = Asked {
        wrong: false,
        outside: false,
        taken: false,
    };
    let admitted = admission::admit(c, task, t);
    let why = refusal::start_refusal(admitted, c, r, side, asked);
    let pop = new_call(1, 1, side, 0, 0);
    decided(c, r, why, pop)
}

/// A push that names no slot: it draws one from the stack, at 12 to 14.
pub fn push_pooled_start(
    c: Control,
    r: Call,
    task: usize,
    side: u64,
    label: u32,
    t: Lengths,
) -> Transition
    ensures { result ≡ decided c r (refused_by t c task r side (pooled_push (touching c [] []))) (asking side label) }
{
    let asked = Asked {
        wrong: c.pooled != 1,
        outside: false,
        taken: false,
    };
    let admitted = admission::admit(c, task, t);
    let why = refusal::start_refusal(admitted, c, r, side, asked);
    let push = new_call(12, 0, side, 0, label);
    decided(c, r, why, push)
}

pub fn push_start(
    c: Control,
    r: Call,
    task: usize,
    side: u64,
    slot: u64,
    label: u32,
    t: Lengths,
    labels: &mut [u32],
    marks: &mut [u64],
) -> Transition
    ensures value { result ≡ decided c r (push_refused_by t c task r side slot marks.old) (started 0 side slot label) }
    ensures marks_after { touching c labels.new marks.new
        ≡ stored_unless (push_refused_by t c task r side slot marks.old)
        (touching c labels.old marks.old) slot label }
{
    let inside = sound::from1(c.slots, slot);
    let taken = table::marked(marks, slot);
    let asked = Asked {
        wrong: c.pooled == 1,
        outside: !inside,
        taken,
    };
    let admitted = admission::admit(c, task, t);
    let why = refusal::start_refusal(admitted, c, r, side, asked);
    let push = new_call(1, 0, side, slot, label);
    if why != 0 {
        return decided(c, r, why, push);
    }
    table::set(labels, slot, label);
    table::set_mark(marks, slot);
    decided(c, r, why, push)
}
