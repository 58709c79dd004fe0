// Why a saving or a return is refused, by the lengths of the tables.
ghost use Rattle.std.specs.Prelude.{◌≡◌};
ghost use Rattle.shelf.specs.Lengths.{eighth, both_fit, save_number, return_number};

use model::Control;
use sound::Lengths;

/// A shelf's part of each table.
fn eighth(t: Lengths) -> Lengths
    ensures { result ≡ eighth t }
{
    Lengths {
        records: t.records / 8,
        lefts: t.lefts / 8,
        rights: t.rights / 8,
        labels: t.labels / 8,
        marks: t.marks / 8,
        next: t.next / 8,
    }
}

#[tactic(auto, unfolding(crate::specs::Lengths::both_fit))]
fn both_hold(c: Control, queue: Lengths, shelves: Lengths, controls: usize) -> bool
    ensures { result ≡ both_fit c queue shelves controls }
{
    let here = sound::tables_fit(c, queue);
    let part = eighth(shelves);
    let there = sound::tables_fit(c, part);
    here & there & (8 <= controls)
}

/// 34, 43, 12.
#[tactic(auto, unfolding(crate::specs::Lengths::save_number))]
pub fn save_refusal(
    c: Control,
    shelf: u64,
    queue: Lengths,
    shelves: Lengths,
    controls: usize,
) -> u32
    ensures { result ≡ save_number c shelf queue shelves controls }
{
    let queue_sound = sound::control_sound(c);
    let fit = both_hold(c, queue, shelves, controls);
    if !queue_sound {
        return 34;
    }
    if 7 < shelf {
        return 43;
    }
    if !fit {
        return 12;
    }
    0
}

/// 43, 44, 34, 12.
#[tactic(auto, unfolding(crate::specs::Lengths::return_number))]
pub fn return_refusal(
    c: Control,
    shelf: u64,
    queue: Lengths,
    shelves: Lengths,
    controls: usize,
) -> u32
    ensures { result ≡ return_number c shelf queue shelves controls }
{
    let shelf_sound = sound::control_sound(c);
    let fit = both_hold(c, queue, shelves, controls);
    if 7 < shelf {
        return 43;
    }
    if c.tasks == 0 {
        return 44;
    }
    if !shelf_sound {
        return 34;
    }
    if !fit {
        return 12;
    }
    0
}
