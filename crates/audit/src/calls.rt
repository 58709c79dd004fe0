//! The calls of a history lent as words, seven a call, and what of them is refused 40.
ghost use Rattle.std.specs.Prelude.{◌≡◌, ◌/◌, ◌≤◌, ◌<◌, length, get_or, drop};
ghost use Rattle.audit_model.specs.Audit as meaning;
ghost use Rattle.audit_model.specs.{Audit.{all_of, well_formed}, LentHistory.calls_in};

use audit_model::Finished;

pub fn call_at(words: &[u64], i: usize) -> Finished
    requires { i < length words.now / 7 }
    ensures { result ≡ get_or (calls_in words.now) i meaning.nobody }
{
    let at = 7 * i;
    Finished {
        task: words[at],
        kind: words[at + 1],
        side: words[at + 2],
        label: words[at + 3],
        answer: words[at + 4],
        start: words[at + 5],
        end: words[at + 6],
    }
}

#[tactic(auto, unfolding(audit_model::specs::Audit::well_formed))]
fn well_formed(c: Finished) -> bool
    ensures { result ≡ well_formed c }
{
    (c.kind <= 1) & (c.side <= 1) & (2..=4).contains(&c.answer) & (c.start < c.end)
}

// No event of one is an event of the other.
#[tactic(auto, unfolding(audit_model::specs::Audit::apart))]
fn apart(c: Finished, d: Finished) -> bool
    ensures { result ≡ meaning.apart c d }
{
    (c.start != d.start) & (c.start != d.end) & (c.end != d.start) & (c.end != d.end)
}

// A loop that is left at the first call that fails. By `all` over the indices `zc_audit_words` takes 32,710 instructions at
// 64 calls, where bench/facts.txt has 30,864.
fn apart_from(words: &[u64], at: usize, c: Finished) -> bool
    requires { at ≤ length words.now / 7 }
    ensures { result ≡ all_of (meaning.apart c) (drop at (calls_in words.now)) }
{
    for i in at..words.len() / 7 {
        let d = call_at(words, i);
        if !apart(c, d) {
            return false;
        }
    }
    true
}

// By `all` too `zc_audit_words` takes 869 bytes of code, where bench/facts.txt has 797.
pub fn accepted(words: &[u64]) -> bool
    ensures { result ≡ meaning.accepted (calls_in words.now) }
{
    let n = words.len() / 7;
    if 64 < n {
        return false;
    }
    for i in 0..n {
        let c = call_at(words, i);
        if !well_formed(c) || !apart_from(words, i + 1, c) {
            return false;
        }
    }
    true
}
