//! Document 01's worked example, run by an executive of two tasks over a queue of its own: task 0 steps with the records lent side by side,
//! task 1 with its record lent alone.
#![tactic(auto)]

mod held;
mod print;

use calls::opening;
use held::{Held, TASKS};
use lines::Line;
use model::{Control, Op, Record};
use std::io::Write;

/// A queue of 2 tasks and 3 slots, opened with tag 0.
fn open<W: Write, E: Write>(writer: &mut W, errors: &mut E) -> Held {
    let mut lefts = [0u64; 4];
    let mut rights = [0u64; 4];
    let mut labels = [0u32; 4];
    let mut marks = [0u64; 1];
    let mut next = [0u64; 4];
    let unopened = Control {
        tasks: 0,
        slots: 0,
        anchor: 0,
        pooled: 0,
        head: 0,
    };
    let parts = opening::open_tables(
        unopened,
        false,
        TASKS,
        2,
        3,
        0,
        &mut lefts,
        &mut rights,
        &mut labels,
        &mut marks,
        &mut next,
    );
    let control = parts.control;
    print::line(writer, errors, 1, Line::Open(parts.outcome), control.anchor);
    let call = calls::start::new_call(0, 0, 0, 0, 0);
    let idle = Record { call, retries: 0 };
    Held {
        control,
        records: [idle; TASKS],
        lefts,
        rights,
        labels,
        marks,
        next,
    }
}

/// A start or step of a task, with its line.
fn act<W: Write, E: Write>(
    writer: &mut W,
    errors: &mut E,
    held: &mut Held,
    event: u64,
    task: usize,
    op: Op,
) {
    let outcome = match (task, op) {
        (0, Op::Step) => held.step(task),
        (_, Op::Step) => held.step_alone(),
        _ => held.start(task, op),
    };
    let line = Line::Act { task, op, outcome };
    print::line(writer, errors, event, line, held.control.anchor);
}

fn main(rt: HostRuntime) {
    let writer = &mut rt.stdout();
    let errors = &mut rt.stderr();
    print::header(writer, errors);
    let mut held = open(writer, errors);
    let push = Op::Push {
        side: 1,
        slot: 1,
        label: 700,
    };
    let pop = Op::Pop { side: 0 };
    let acts = [
        (0, push),
        (0, Op::Step),
        (0, Op::Step),
        (1, pop),
        (1, Op::Step),
        (1, Op::Step),
        (1, Op::Step),
    ];
    // The opening was event 1.
    for (event, (task, op)) in (2u64..).zip(acts) {
        act(writer, errors, &mut held, event, task, op);
    }
}
