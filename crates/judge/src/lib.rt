//! The verdict on a history as text, and what is said of it (`say`). `historyfile` reads the text.
#![tactic(auto, using(lines::proofs::Puts::puts), unfolding(lines::specs::Line::numbered, lines::specs::Line::given_room))]

pub mod say;

ghost use Rattle.std.specs.Prelude.{◌≡◌, ◌≤◌, length};
ghost use Rattle.judge.specs.Judging.{judged};

use audit_model::Verdict;
use historyfile::reading;
use historyfile::reading::Place;

// With room for 65 calls, and an order of 65 numbers.
fn judge_in(text: &[u8], calls: &mut [u64], order: &mut [u64]) -> Result<Verdict, Place>
    requires { (455 ≤ length calls.old) × (65 ≤ length order.old) }
    ensures { result ≡ judged text.now }
{
    let s = reading::read(text, calls, order);
    if s.place.fault.is_none() & (s.place.column == 8) {
        return Ok(audit::audit_words(&calls[..s.calls], &order[..s.order]));
    }
    Err(s.place)
}

/// The verdict on a text, or where the reading stands if it cannot be read, and why. Without a fault the order is missing.
pub fn judge(text: &[u8]) -> Result<Verdict, Place>
    ensures { result ≡ judged text.now }
{
    // More than 64 calls are refused, and more than 64 numbers are no order of fewer: numbers beyond these change nothing.
    let mut calls = [0u64; 455];
    let mut order = [0u64; 65];
    judge_in(text, &mut calls, &mut order)
}
