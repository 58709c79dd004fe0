//! Every order for two tasks: the answer by value. What it means is in `specs/`.
#![tactic(auto)]

ghost use Rattle.std.specs.Prelude.{◌≡◌};
ghost use Rattle.schedule_model.specs.Endings.{number_of};

/// How a schedule ends, or that there is none.
#[derive(Clone, Copy)]
pub enum Ending {
    /// Both calls are answered.
    Answered,
    /// A call is unanswered, and no step is left.
    Cut,
    /// The last step was refused.
    Refused,
    NoMore,
}

/// As C reads it.
impl From<Ending> for u64 {
    ghost from_gives = { λ e n. n ≡ number_of e };

    fn from(e: Ending) -> u64 {
        match e {
            Ending::Answered => 0,
            Ending::Cut => 1,
            Ending::Refused => 2,
            Ending::NoMore => 3,
        }
    }
}

/// The answer as C sees it.
#[repr(C)]
#[derive(Clone, Copy)]
pub struct ScheduleReply {
    /// 0, or the number of a refusal; the rest is then 0.
    pub code: u64,
    /// 0 both calls answered, 1 cut, 2 the last step refused, 3 no more schedules.
    pub ending: u64,
    /// The steps of the schedule; 0 with no more.
    pub length: u64,
}

/// All that a step can write of control and of the lent tables: Anchor, the head, the words of one slot's row, and the
/// word of its mark.
#[derive(Clone, Copy)]
pub struct Saved {
    pub anchor: u64,
    pub head: u64,
    pub slot: u64,
    pub left: u64,
    pub right: u64,
    pub label: u32,
    pub mark: u64,
    pub next: u64,
}
