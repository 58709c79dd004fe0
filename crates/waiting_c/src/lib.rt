//! The labels waiting for C and Rust: the call of crate `waiting`, in an archive of its own.
#![tactic(auto)]

ghost use mathlib.Core.{List.List, Path.◌≡◌};
ghost use Rattle.std.specs.Prelude.{ℕ};
ghost use Rattle.model.specs.Tables.{tables_of};
ghost use Rattle.layout.specs.Rows.{control_of};
ghost use Rattle.waiting.specs.Waiting.{read_out};

use waiting::WaitingReply;

/// The same for C and Rust, with control lent as its row of words.
#[unsafe(no_mangle)]
pub extern "C" fn zc_waiting(
    control: &[u64; layout::CONTROL_WORDS],
    slots: &mut [u64],
    copies: &mut [u32],
    lefts: &[u64],
    rights: &[u64],
    labels: &[u32],
    marks: &[u64],
) -> WaitingReply
    ensures { (next : List ℕ) → record { reply = result; slots = slots.new; labels = copies.new } ≡ read_out
        (tables_of (control_of control.now) lefts.now rights.now labels.now marks.now next)
        slots.old copies.old }
{
    waiting::zc_waiting(control, slots, copies, lefts, rights, labels, marks)
}
