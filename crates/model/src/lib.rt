//! The types of the label queue, by value. What every call means is in `specs/`.
#![tactic(auto)]

use word::Anchor;

/// What all tasks share besides the slot rows and the marks.
#[repr(C)]
#[derive(Clone, Copy)]
pub struct Control {
    pub tasks: u64,
    pub slots: u64,
    pub anchor: u64,
    /// 0 a named queue, where a push names its slot; 1 a pooled one, where it draws it from the stack. C lends any number.
    pub pooled: u64,
    /// The stack's head word; 0 in a named queue.
    pub head: u64,
}

/// Where a task stands in its call; all zero while it has none. Place, kind and side are numbers and no enums, since C
/// lends this struct with any numbers in it, and every call is proved for all of them.
#[repr(C)]
#[derive(Clone, Copy)]
pub struct Call {
    /// 0 idle, or the place of the next step, 1 to 17.
    pub place: u64,
    /// 0 push, 1 pop.
    pub kind: u64,
    /// 0 left, 1 right.
    pub side: u64,
    /// The slot of a push, or of a pop that gives it back.
    pub own: u64,
    /// The label of a push, or of a pop that gives its slot back.
    pub label: u32,
    /// The Anchor word as read.
    pub seen: u64,
    /// The neighbour slot as read.
    pub neighbour: u64,
    /// The link word as read.
    pub link: u64,
    /// 1 once a push has taken effect and only helps the queue to be STABLE.
    pub finishing: u64,
}

/// A task's record: its call, and what outlives it.
#[repr(C)]
#[derive(Clone, Copy)]
pub struct Record {
    pub call: Call,
    /// The task's failed changes since the opening.
    pub retries: u64,
}

/// A label in its slot.
#[derive(Clone, Copy)]
pub struct Entry {
    pub slot: u64,
    pub label: u32,
}

/// What a step answers when it is carried out.
#[derive(Clone, Copy)]
pub enum Answer {
    /// With the next place.
    Running(u64),
    Pushed,
    Empty,
    Popped(Entry),
    /// Every slot was in use.
    NoFreeSlot,
}

/// Why a call is refused: the document's number of the first rule that applies.
#[derive(Clone, Copy, Debug, PartialEq, Eq)]
pub struct Refusal {
    pub number: u32,
}

/// What a start or step answers. A start that is carried out is running, with its first place next: 1, or 12 where
/// it names no slot.
pub type Outcome = Result<Answer, Refusal>;

/// What a start or step leaves of control and its task's call, its outcome, and whether a change failed,
/// which the task's record counts.
#[derive(Clone, Copy)]
pub struct Transition {
    pub control: Control,
    pub task: Call,
    pub outcome: Outcome,
    pub failed: bool,
}

/// What an opening answers.
pub type Opening = Result<(), Refusal>;

/// What the report tells.
#[derive(Clone, Copy)]
pub struct Report {
    pub anchor: Anchor,
    pub busy: u64,
    /// The labels in the queue.
    pub waiting: u64,
    /// The slots marked, those of half-done calls included.
    pub taken: u64,
}

/// The report, or why there is none.
pub type Reported = Result<Report, Refusal>;

/// One operation of a task.
#[derive(Clone, Copy)]
pub enum Op {
    Push { side: u64, slot: u64, label: u32 },
    Pop { side: u64 },
    /// A push that names no slot.
    PushPooled { side: u64, label: u32 },
    Step,
}

/// An outcome in numbers, as C sees it.
#[repr(C)]
#[derive(Clone, Copy)]
pub struct Reply {
    /// 1 running, 2 pushed, 3 empty, 4 popped, 5 no slot, or the number of a refusal.
    pub code: u32,
    /// The label popped.
    pub label: u32,
    /// The next place, or the slot popped.
    pub value: u64,
}

/// What a push alone is asked before it starts. A start that is not asked passes.
#[derive(Clone, Copy)]
pub struct Asked {
    /// It names a slot in a pooled queue, or none in a named one: 41.
    pub wrong: bool,
    /// The slot that it names is not 1 to slots: 15.
    pub outside: bool,
    /// That slot's mark is set: 32.
    pub taken: bool,
}
