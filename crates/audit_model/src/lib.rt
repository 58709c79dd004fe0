//! A history of finished calls and the verdict on it, by value. What the verdict is stands in `specs/Audit.antt`.
#![tactic(auto)]

ghost use Rattle.std.specs.Prelude.{◌≡◌};
ghost use Rattle.audit_model.specs.LentHistory.{verdict_reply};

/// A finished call, as a history tells it. The task is told, and decides nothing. Kind, side and answer are numbers and
/// no enums, since C lends any, and others than these are refused.
#[repr(C)]
#[derive(Clone, Copy)]
pub struct Finished {
    pub task: u64,
    /// 0 push, 1 pop.
    pub kind: u64,
    /// 0 left, 1 right.
    pub side: u64,
    /// The label pushed or popped; unused with empty.
    pub label: u64,
    /// 2 pushed, 3 empty, 4 popped.
    pub answer: u64,
    /// The event of its start.
    pub start: u64,
    /// The event of its answer.
    pub end: u64,
}

// Its numbers stay, since `zc_audit_words` has them in its reply, and `Meaning` of specs/Laws.antt speaks of them.
#[derive(Clone, Copy)]
pub enum Verdict {
    /// With the document's number, 40.
    Refused(u32),
    /// With the first position that is wrong, from 1; 0: the order is no rearrangement of the calls.
    Failed(u32),
    Passed,
}

/// A verdict in numbers, as C sees it.
#[repr(C)]
#[derive(Clone, Copy)]
pub struct VerdictReply {
    /// 0 it passes, 1 it fails, or the number of a refusal.
    pub code: u32,
    /// Where it fails.
    pub position: u32,
}

impl From<Verdict> for VerdictReply {
    ghost from_gives = { λ v reply. reply ≡ verdict_reply v };

    fn from(v: Verdict) -> Self {
        let (code, position) = match v {
            Verdict::Refused(why) => (why, 0),
            Verdict::Failed(position) => (1, position),
            Verdict::Passed => (0, 0),
        };
        VerdictReply { code, position }
    }
}
