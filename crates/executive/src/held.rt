//! A queue that is held by value, and lent for each start and step: for a step in one of the two loans of document 01, the records as a
//! slice, or one record.
ghost use Rattle.std.specs.Prelude.{◌≡◌};
ghost use Rattle.model.specs.{declared.Op.TheVariants.Step, Calls.act, LentSteps.{take_turn, lent}};
ghost use Rattle.layout.specs.Rows.{record_of, records_of};
ghost use Rattle.executive.specs.Held.{queue_in, done_of};

use model::{Control, Op, Outcome, Record};
use rows::op;

/// The tasks of the executive.
pub const TASKS: usize = 2;

/// Control, records and tables of a queue of 3 slots.
#[derive(Clone, Copy)]
pub struct Held {
    pub control: Control,
    pub records: [Record; TASKS],
    pub lefts: [u64; 4],
    pub rights: [u64; 4],
    pub labels: [u32; 4],
    pub marks: [u64; 1],
    pub next: [u64; 4],
}

fn row_of(task: Record) -> [u64; layout::RECORD_WORDS]
    ensures { record_of result ≡ task }
{
    layout::record_row(task.call, task.retries)
}

fn record_of(row: [u64; layout::RECORD_WORDS]) -> Record
    ensures { result ≡ record_of row }
{
    Record {
        call: layout::call_of(row),
        retries: layout::retries_of(row),
    }
}

fn rows_of(records: [Record; TASKS]) -> [[u64; layout::RECORD_WORDS]; TASKS]
    ensures { records_of result ≡ records }
{
    records.map(row_of)
}

fn records_of(rows: [[u64; layout::RECORD_WORDS]; TASKS]) -> [Record; TASKS]
    ensures { result ≡ records_of rows }
{
    rows.map(record_of)
}

impl Held {
    /// A start. Its function has the records as rows of words.
    pub fn start(&mut self, task: usize, op: Op) -> Outcome
        ensures { done_of self.new result ≡ act (queue_in self.old) task op }
    {
        let mut words = layout::control_row(self.control);
        let mut rows = rows_of(self.records);
        let outcome = op::operate(
            &mut words,
            &mut rows,
            task,
            op,
            &mut self.lefts,
            &mut self.rights,
            &mut self.labels,
            &mut self.marks,
            &mut self.next,
        );
        self.control = layout::control_of(words);
        self.records = records_of(rows);
        outcome
    }

    /// A step of a task, the records lent side by side.
    pub fn step(&mut self, task: usize) -> Outcome
        ensures { done_of self.new result ≡ act (queue_in self.old) task Step }
    {
        deque::step(
            &mut self.control,
            &mut self.records,
            task,
            &mut self.lefts,
            &mut self.rights,
            &mut self.labels,
            &mut self.marks,
            &mut self.next,
        )
    }

    /// A step of task 1, its record lent alone.
    pub fn step_alone(&mut self) -> Outcome
        ensures { done_of self.new result ≡ take_turn (queue_in self.old) (lent 1) }
    {
        deque::step_record(
            &mut self.control,
            &mut self.records[1],
            &mut self.lefts,
            &mut self.rights,
            &mut self.labels,
            &mut self.marks,
            &mut self.next,
        )
    }
}
