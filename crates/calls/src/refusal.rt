// Why a start is refused: the number of the first rule that applies, or 0.
ghost use mathlib.Core.{Path.◌≡◌, Bool.{Bool, cond}};
ghost use Rattle.std.specs.Prelude.{ltb};
ghost use Rattle.word.specs.Anchor.{anchor_of};
ghost use Rattle.model.specs.{Sound.record_sound, Refusals.{Lent, admission, start_refusal}};

use model::{Asked, Call, Control};
use word::Anchor;

/// The Anchor tag is too high for a start.
pub fn late(anchor: u64) -> bool
    ensures { result ≡ ltb 4294967262 (anchor_of anchor).tag }
{
    let a = Anchor::unpack(anchor);
    4294967262 < a.tag
}

/// Why a busy record is refused.
fn busy_refusal(pooled: bool, slots: u64, r: Call) -> u32
    ensures { result ≡ cond (record_sound pooled slots r) 30 34 }
{
    if sound::record_sound(pooled, slots, r) {
        30
    } else {
        34
    }
}

/// All that a start is asked, where `admitted` is the number that it is admitted with. Nearly every start passes, and is
/// told so before a busy record is looked at: with that behind five tests, and the record copied for it there, the rest is
/// compiled into each of the three starts.
pub(crate) fn start_refusal(admitted: u32, c: Control, r: Call, side: u64, asked: Asked) -> u32
    ensures { (fit : Bool) (p : Lent) → admitted ≡ admission c fit p → result ≡ start_refusal c fit p r side asked }
{
    if admitted != 0 {
        return admitted;
    }
    if 1 < side {
        return 14;
    }
    if asked.wrong {
        return 41;
    }
    if asked.outside {
        return 15;
    }
    let high = late(c.anchor);
    if (r.place == 0) & !asked.taken & !high {
        return 0;
    }
    if r.place != 0 {
        let busy = r;
        return busy_refusal(c.pooled == 1, c.slots, busy);
    }
    if asked.taken { 32 } else { 33 }
}
