//! Histories of finished calls, checked against their claimed order of effects.
//! What the verdict is stands in `audit_model/specs/Audit.antt`.
//!
//! A history is lent as words, seven a call (`Finished`), and read in place; the only memory besides is 128 bytes for the queue.
//! Sixty-four calls take some 2,000 comparisons of two calls, each held against every other for its events; the order is gone
//! through once for numbers listed twice, once for the first position that stands too early, and once to serve the calls.
#![tactic(auto)]

mod calls;
mod labels;
mod order;

ghost use mathlib.Core.{Bool.true, List.[], Path.◌≡◌};
ghost use Rattle.std.specs.Prelude.{◌/◌, ◌≤◌, length};
ghost use Rattle.model.specs.Sound.{from1};
ghost use Rattle.audit_model.specs.{Audit.{all_of, in_order, replay, verdict}, LentHistory.{calls_in, verdict_reply}};
ghost use Rattle.audit.specs.FirstMisplaced.{first_misplaced};

use audit_model::{Verdict, VerdictReply};
use labels::Labels;

// The calls up to the first position that stands too early, which fails whatever it answers.
fn served(words: &[u64], order: &[u64], misplaced: usize) -> Verdict
    requires { (length words.now / 7 ≤ 64) × (length order.now ≤ 64) × (all_of (from1 (length words.now / 7)) order.now ≡ true)
        × (misplaced ≡ first_misplaced (in_order (calls_in words.now) order.now)) }
    ensures { result ≡ replay 1 (in_order (calls_in words.now) order.now) [] }
{
    let mut places = [0; 128];
    let mut labels = Labels {
        places: &mut places,
        low: 64,
        high: 64,
    };
    for i in 0..misplaced {
        if !labels.serve(words, (order[i] - 1) as usize) {
            return Verdict::Failed(i as u32 + 1);
        }
    }
    if misplaced < order.len() {
        return Verdict::Failed(misplaced as u32 + 1);
    }
    Verdict::Passed
}

/// The verdict on a history lent as words, seven a call: task, kind, side, label, answer, start event, answer event.
/// The order is a list of the calls' numbers, from 1.
pub fn audit_words(words: &[u64], order: &[u64]) -> Verdict
    ensures { result ≡ verdict (calls_in words.now) order.now }
{
    if !calls::accepted(words) {
        return Verdict::Refused(40);
    }
    if !order::is_rearranged(order, words.len() / 7) {
        return Verdict::Failed(0);
    }
    let misplaced = order::first_misplaced(words, order);
    served(words, order, misplaced)
}

// The verdict on no call.
fn of_none(order: &[u64]) -> Verdict
    ensures { result ≡ verdict [] order.now }
{
    if order.is_empty() {
        return Verdict::Passed;
    }
    Verdict::Failed(0)
}

#[unsafe(no_mangle)]
pub extern "C" fn zc_audit_words(words: &[u64], order: &[u64]) -> VerdictReply
    ensures { result ≡ verdict_reply (verdict (calls_in words.now) order.now) }
{
    // Told before registers are saved and the queue is cleared.
    if words.len() < 7 {
        return VerdictReply::from(of_none(order));
    }
    VerdictReply::from(audit_words(words, order))
}
