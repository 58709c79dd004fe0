//! The verdict on a history for C and Rust: the call of crate `audit`, in an archive of its own.
#![tactic(auto)]

ghost use mathlib.Core.Path.{◌≡◌};
ghost use Rattle.audit_model.specs.{Audit.verdict, LentHistory.{calls_in, verdict_reply}};

use audit_model::VerdictReply;

#[unsafe(no_mangle)]
pub extern "C" fn zc_audit_words(words: &[u64], order: &[u64]) -> VerdictReply
    ensures { result ≡ verdict_reply (verdict (calls_in words.now) order.now) }
{
    audit::zc_audit_words(words, order)
}
