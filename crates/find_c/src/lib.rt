//! Where labels wait for C and Rust: the call of crate `find`, in an archive of its own.
#![tactic(auto)]

ghost use mathlib.Core.{List.List, Path.◌≡◌};
ghost use Rattle.std.specs.Prelude.{ℕ};
ghost use Rattle.model.specs.Tables.{tables_of};
ghost use Rattle.find_model.specs.Find.{find};
ghost use Rattle.layout.specs.Rows.{control_of};

use find_model::FindReply;

/// Where the labels asked for wait, whatever the next rows: for C and Rust, with control lent as its row of words.
/// Each answer is made here, since one that a function below hands up is copied once more.
#[unsafe(no_mangle)]
pub extern "C" fn zc_find(
    control: &[u64; layout::CONTROL_WORDS],
    wanted: &[u32],
    lefts: &[u64],
    rights: &[u64],
    labels: &[u32],
    marks: &[u64],
) -> FindReply
    ensures { (next : List ℕ) → result ≡ find
        (tables_of (control_of control.now) lefts.now rights.now labels.now marks.now next)
        wanted.now }
{
    find::zc_find(control, wanted, lefts, rights, labels, marks)
}
