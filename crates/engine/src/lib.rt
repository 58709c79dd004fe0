//! Outcomes: whether a step was carried out, whether it ended its call, and its reply in numbers.
#![tactic(auto)]

ghost use Rattle.std.specs.Prelude.{◌≡◌};
ghost use Rattle.model.specs.{Outcomes.Refused, Calls.reply_of, Ends.{ends_call, is_moved, is_running}};

use model::{Answer, Outcome, Refusal, Reply};

/// Whether a step with this outcome ended its call: the record is then all zero. After any other
/// outcome it keeps its kind and side, and in a named queue its own slot and label.
pub fn ends(o: Outcome) -> bool
    ensures { result ≡ ends_call o }
{
    !matches!(o, Err(_) | Ok(Answer::Running(_)))
}

/// Whether a step with this outcome was carried out.
pub fn moves(o: Outcome) -> bool
    ensures { result ≡ is_moved o }
{
    o.is_ok()
}

/// Whether a step with this outcome was carried out and its call goes on.
pub fn runs(o: Outcome) -> bool
    ensures { result ≡ is_running o }
{
    matches!(o, Ok(Answer::Running(_)))
}

/// The outcome of a refusal.
pub fn refuse(why: u32) -> Outcome
    ensures { result ≡ Refused why }
{
    Err(Refusal { number: why })
}

/// An outcome in numbers.
// A function and no `From`: that would have to stand in `model`, whose types it turns, and which has no functions.
pub fn reply(o: Outcome) -> Reply
    ensures { result ≡ reply_of o }
{
    let (code, label, value) = match o {
        Err(refusal) => (refusal.number, 0, 0),
        Ok(Answer::Running(place)) => (1, 0, place),
        Ok(Answer::Pushed) => (2, 0, 0),
        Ok(Answer::Empty) => (3, 0, 0),
        Ok(Answer::Popped(entry)) => (4, entry.label, entry.slot),
        Ok(Answer::NoFreeSlot) => (5, 0, 0),
    };
    Reply { code, label, value }
}
