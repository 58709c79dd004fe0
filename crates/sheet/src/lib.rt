//! The order sheet: whether the labels waiting keep its chained rules.
#![tactic(auto)]

ghost use mathlib.Core.{Path.◌≡◌, Bool.{false, ◌&&◌}, List.List};
ghost use Rattle.std.specs.Prelude.{ℕ};
ghost use Rattle.model.specs.{Tables.tables_of, Sound.{control_sound, rows_fit}};
ghost use Rattle.sheet_model.specs.{Sheet.malformed, Verdict.{refused, sheet, Printed, sheet_words}};
ghost use Rattle.walk.specs.Ways.{beginning_of};
ghost use Rattle.sheet.specs.{Refusals.{unfit, answered, asked}, Extents.extents};

use crate::extents::Extents;
use model::Control;
use sheet_model::SheetReply;
use sound::Lengths;
use walk::Unsound;

pub mod border;
mod extents;
mod form;
mod rows;
mod search;
mod square;
mod words;

/// A refusal is its number alone.
fn refused(number: u64) -> SheetReply
    ensures { result ≡ refused number }
{
    SheetReply {
        code: number,
        first: 0,
        second: 0,
    }
}

/// What stands before the walk: 34 for control and Anchor, 46, 12. No next table is lent, so none counts.
fn unfit(c: Control, listed: &[u32], rules: &[u32], fits: bool) -> u64
    ensures { result ≡ unfit
        (control_sound c)
        (malformed (record { listed = listed.now; rules = rules.now }))
        fits }
{
    if !sound::control_sound(c) {
        return 34;
    }
    if form::malformed(listed, rules) {
        return 46;
    }
    if fits { 0 } else { 12 }
}

/// Notes where the listed labels wait, or says the number of a refusal: those before the walk, then 34 for it.
/// `room`: there is room for the chained rules.
fn asked(
    c: Control,
    listed: &[u32],
    rules: &[u32],
    room: bool,
    lefts: &[u64],
    rights: &[u64],
    labels: &[u32],
    marks: &[u64],
    seen: &mut Extents,
) -> Result<(), u64>
    ensures { (next : List ℕ) → answered result seen.new ≡ asked
        (unfit
        (control_sound c)
        (malformed (record { listed = listed.now; rules = rules.now }))
        (rows_fit false c.slots (tables_of c lefts.now rights.now labels.now marks.now next) && room))
        (extents (beginning_of c) listed.now lefts.now rights.now labels.now seen.old) }
{
    let t = Lengths::of(0, lefts, rights, labels, marks, &[]);
    let fits = sound::rows_fit(false, c.slots, t);
    let why = unfit(c, listed, rules, fits & room);
    if why != 0 {
        return Err(why);
    }
    match extents::of_waiting(c, listed, lefts, rights, labels, seen) {
        Ok(()) => Ok(()),
        Err(Unsound) => Err(34),
    }
}

/// Kept, or the first broken pair, by first then second place in the sheet; whatever the next rows.
pub fn sheet(
    c: Control,
    listed: &[u32],
    rules: &[u32],
    lefts: &[u64],
    rights: &[u64],
    labels: &[u32],
    marks: &[u64],
) -> SheetReply
    ensures { (next : List ℕ) → result ≡ sheet
        (tables_of c lefts.now rights.now labels.now marks.now next)
        (record { listed = listed.now; rules = rules.now }) }
{
    let mut seen = Extents::unseen();
    match asked(
        c, listed, rules, true, lefts, rights, labels, marks, &mut seen,
    ) {
        Ok(()) => square::first_broken(rules, listed.len(), &seen),
        Err(why) => refused(why),
    }
}

/// The sheet on a smaller printer: the same answer, with 32 lent words for the chained rules in the
/// square's place.
pub fn sheet_words(
    c: Control,
    listed: &[u32],
    rules: &[u32],
    lent: &mut [u32],
    lefts: &[u64],
    rights: &[u64],
    labels: &[u32],
    marks: &[u64],
) -> SheetReply
    ensures { (next : List ℕ) → ◌≡◌ {A = Printed} (record { reply = result; words = lent.new })
        (sheet_words
        (tables_of c lefts.now rights.now labels.now marks.now next)
        (record { listed = listed.now; rules = rules.now })
        lent.old) }
{
    let room = 32 <= lent.len();
    let mut seen = Extents::unseen();
    match asked(
        c, listed, rules, room, lefts, rights, labels, marks, &mut seen,
    ) {
        Ok(()) => {
            words::closure(lent, rules, listed.len());
            search::first_broken(lent, listed.len(), &seen)
        }
        Err(why) => refused(why),
    }
}
