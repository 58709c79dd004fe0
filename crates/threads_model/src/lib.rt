//! Threads over one queue, at the grain of single hardware instructions: what a step and a start do with
//! shared memory, by what instructions. Here are the two structs that these meanings share with the code
//! (`touch`); the meanings are in `specs`. What is promised of them is in `threads`.
#![tactic(auto)]

/// What the executive is asked to do with shared memory. `act` is a number, since C reads this struct.
#[repr(C)]
#[derive(Clone, Copy)]
pub struct PlannedTouch {
    /// What: 0 nothing, the call is refused by the number `word`. 1 read Anchor, 2 change it. 3 read a
    /// link word, 4 change it, 5 put a slot into it. 6 read a label and clear the mark. 7 read the head,
    /// 8 change it, 9 change it and store a label and a mark. 10 read a next, 11 store it. 12 set a mark
    /// and, if it was clear, store a label. 13 read a mark.
    pub act: u32,
    /// 9 and 12: the label to store.
    pub label: u32,
    /// 3 to 5: the link word that leads to this side.
    pub side: u64,
    /// The slot whose row, label or mark it is.
    pub slot: u64,
    /// 2, 4, 8 and 9: the word as read, which a change expects.
    pub expected: u64,
    /// The word to be stored; at 5 the slot to be put into the link word.
    pub word: u64,
}

/// A call to be started. `operation` is a number, since C lends the start as four words with any number in them.
#[derive(Clone, Copy)]
pub struct Start {
    /// 0 a push that names a slot, 1 a pop, any other number a push that names none.
    pub operation: u64,
    pub side: u64,
    /// Of a push that names a slot.
    pub slot: u64,
    /// Of a push.
    pub label: u32,
}
