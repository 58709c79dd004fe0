// The order sheet for C and Rust, with control lent as C lends it.
ghost use mathlib.Core.{Path.◌≡◌, List.List};
ghost use Rattle.std.specs.Prelude.{ℕ};
ghost use Rattle.model.specs.Tables.{tables_of};
ghost use Rattle.layout.specs.Rows.{control_of};
ghost use Rattle.sheet_model.specs.Verdict.{sheet, Printed, sheet_words};

use sheet_model::SheetReply;

/// The order sheet, whatever the next rows.
#[unsafe(no_mangle)]
pub extern "C" fn zc_sheet(
    control: &[u64; layout::CONTROL_WORDS],
    listed: &[u32],
    rules: &[u32],
    lefts: &[u64],
    rights: &[u64],
    labels: &[u32],
    marks: &[u64],
) -> SheetReply
    ensures { (next : List ℕ) → result ≡ sheet
        (tables_of (control_of control.now) lefts.now rights.now labels.now marks.now next)
        (record { listed = listed.now; rules = rules.now }) }
{
    let row = *control;
    let c = layout::control_of(row);
    crate::sheet(c, listed, rules, lefts, rights, labels, marks)
}

/// The sheet on a smaller printer: the chained rules are kept in the 32 lent words.
#[unsafe(no_mangle)]
pub extern "C" fn zc_sheet_words(
    control: &[u64; layout::CONTROL_WORDS],
    listed: &[u32],
    rules: &[u32],
    words: &mut [u32],
    lefts: &[u64],
    rights: &[u64],
    labels: &[u32],
    marks: &[u64],
) -> SheetReply
    ensures { (next : List ℕ) → ◌≡◌ {A = Printed} (record { reply = result; words = words.new })
        (sheet_words
        (tables_of (control_of control.now) lefts.now rights.now labels.now marks.now next)
        (record { listed = listed.now; rules = rules.now })
        words.old) }
{
    let row = *control;
    let c = layout::control_of(row);
    crate::sheet_words(c, listed, rules, words, lefts, rights, labels, marks)
}
