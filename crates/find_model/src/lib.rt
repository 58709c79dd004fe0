//! Where labels wait: the answer by value. What it means is in `specs/`.
#![tactic(auto)]

/// The answer as C sees it.
#[repr(C)]
#[derive(Clone, Copy)]
pub struct FindReply {
    /// 0, or the number of a refusal; the rest is then 0.
    pub code: u64,
    /// The rows read, which are the labels waiting.
    pub rows: u64,
    /// Of each label asked for, from 1 at the left; 0: not waiting, or not asked for.
    pub positions: [u64; 32],
}
