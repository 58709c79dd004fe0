//! The claimed order, looked at from its end: whether it names every call once, and its first position that stands too early.
ghost use mathlib.Core.{Bool.true, Path.◌≡◌};
ghost use Rattle.std.specs.Prelude.{◌/◌, ◌≤◌, length};
ghost use Rattle.model.specs.Sound.{from1};
ghost use Rattle.audit_model.specs.{Audit.{all_of, in_order, rearranges}, LentHistory.calls_in};
ghost use Rattle.audit.specs.FirstMisplaced.{first_misplaced};

use crate::calls;

/// A mark for each number listed behind the position.
pub fn is_rearranged(order: &[u64], n: usize) -> bool
    requires { n ≤ 64 }
    ensures { result ≡ rearranges n order.now }
{
    if order.len() != n {
        return false;
    }
    let mut listed = [0; 1];
    for &k in order.iter().rev() {
        if !(1..=n as u64).contains(&k) || table::marked(&listed, k - 1) {
            return false;
        }
        table::set_mark(&mut listed, k - 1);
    }
    true
}

/// By the least answer event behind the position.
// A count, as `specs/FirstMisplaced.antt` defines it, up to which `served` goes: it would take an `Option` apart again.
pub fn first_misplaced(words: &[u64], order: &[u64]) -> usize
    requires { all_of (from1 (length words.now / 7)) order.now ≡ true }
    ensures { result ≡ first_misplaced (in_order (calls_in words.now) order.now) }
{
    let mut least = u64::MAX;
    let mut first = order.len();
    for (i, &k) in order.iter().enumerate().rev() {
        let c = calls::call_at(words, (k - 1) as usize);
        if least < c.start {
            first = i;
        }
        least = least.min(c.end);
    }
    first
}
