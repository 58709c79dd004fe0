//! Two queues at rest joined in a third that is fresh.
#![tactic(auto)]

ghost use mathlib.Core.{Path.◌≡◌, Bool.cond, List.List};
ghost use Rattle.std.specs.Prelude.{ℕ, ◌≤◌, set};
ghost use Rattle.word.specs.Anchor.{anchor_of};
ghost use Rattle.model.specs.Tables.{queue_of};
ghost use Rattle.layout.specs.Rows.{records_of, uppers_of, queue_in};
ghost use Rattle.join_model.specs.Join.{Joined, join, laid};
ghost use Rattle.join.specs.Anchored.{anchored, Joins};

use model::{Control, Refusal};
use word::Anchor;

mod admit;
mod fill;
mod rest;

/// Control after n pushes.
#[tactic(auto, unfolding(crate::specs::Anchored::anchored))]
fn anchored(c: Control, n: u64) -> Control
    requires { (1 ≤ n) × ((n ≤ 1023) × ((anchor_of c.anchor).tag ≤ 4294967264)) }
    ensures { result ≡ anchored c n }
{
    let a = Anchor::unpack(c.anchor);
    let b = Anchor {
        tag: a.tag + 2 * n - 1,
        status: 0,
        left: 1,
        right: n,
    };
    let mut after = c;
    after.anchor = b.pack();
    after
}

/// Joins the first queue and the second in the third; all of it but the third's records. It gives control as it is then, where some labels
/// were laid into the third, whose record 0 then has no call and its own count; or the number of a refusal. Marks of the sources and
/// next tables are not lent.
fn join(
    first: Control,
    second: Control,
    third: Control,
    records1: &[[u64; layout::RECORD_WORDS]],
    records2: &[[u64; layout::RECORD_WORDS]],
    records: &[[u64; layout::RECORD_WORDS]],
    lefts1: &[u64],
    rights1: &[u64],
    labels1: &[u32],
    lefts2: &[u64],
    rights2: &[u64],
    labels2: &[u32],
    lefts: &mut [u64],
    rights: &mut [u64],
    labels: &mut [u32],
    marks: &mut [u64],
) -> Result<Option<Control>, Refusal>
    ensures { (marks1 next1 marks2 next2 next : List ℕ) → Joins
        (queue_of first (records_of records1.now) lefts1.now rights1.now labels1.now marks1 next1)
        (queue_of second (records_of records2.now) lefts2.now rights2.now labels2.now marks2 next2)
        (queue_of third (records_of records.now) lefts.old rights.old labels.old marks.old next)
        result lefts.new rights.new labels.new marks.new }
{
    let waiting = admit::admit(
        first, second, third, records1, records2, records, lefts1, rights1, labels1, lefts2,
        rights2, labels2, lefts, rights, labels, marks,
    )?;
    if (waiting.first == 0) & (waiting.second == 0) {
        return Ok(None);
    }
    fill::fill(
        first,
        second,
        waiting.first,
        waiting.second,
        lefts1,
        labels1,
        lefts2,
        labels2,
        lefts,
        rights,
        labels,
        marks,
    );
    Ok(Some(anchored(third, waiting.first + waiting.second)))
}

/// The same for C and Rust, with controls and records lent as rows of words; whatever the sources' marks and any next table, which are not lent.
#[unsafe(no_mangle)]
pub extern "C" fn zc_join(
    first: &[u64; layout::CONTROL_WORDS],
    records1: &[[u64; layout::RECORD_WORDS]],
    second: &[u64; layout::CONTROL_WORDS],
    records2: &[[u64; layout::RECORD_WORDS]],
    third: &mut [u64; layout::CONTROL_WORDS],
    records: &mut [[u64; layout::RECORD_WORDS]],
    lefts1: &[u64],
    rights1: &[u64],
    labels1: &[u32],
    lefts2: &[u64],
    rights2: &[u64],
    labels2: &[u32],
    lefts: &mut [u64],
    rights: &mut [u64],
    labels: &mut [u32],
    marks: &mut [u64],
) -> u32
    ensures fact { (marks1 next1 marks2 next2 next : List ℕ) → ◌≡◌ {A = Joined}
        (record {
          code = result;
          third = queue_in third.new records.new lefts.new rights.new labels.new marks.new next;
        })
        (join
        (queue_in first.now records1.now lefts1.now rights1.now labels1.now marks1 next1)
        (queue_in second.now records2.now lefts2.now rights2.now labels2.now marks2 next2)
        (queue_in third.old records.old lefts.old rights.old labels.old marks.old next)) }
    ensures records_after { (marks1 next1 marks2 next2 next : List ℕ) → uppers_of records.new ≡ cond (laid
        (queue_in first.now records1.now lefts1.now rights1.now labels1.now marks1 next1)
        (queue_in second.now records2.now lefts2.now rights2.now labels2.now marks2 next2)
        (queue_in third.old records.old lefts.old rights.old labels.old marks.old next))
        (set (uppers_of records.old) 0 0) (uppers_of records.old) }
{
    let a = layout::control_of(*first);
    let b = layout::control_of(*second);
    let c = layout::control_of(*third);
    match join(
        a, b, c, records1, records2, records, lefts1, rights1, labels1, lefts2, rights2, labels2,
        lefts, rights, labels, marks,
    ) {
        Ok(Some(control)) => {
            *third = layout::control_row(control);
            layout::put_call(records, 0, layout::call_of([0; layout::RECORD_WORDS]));
            0
        }
        Ok(None) => 0,
        Err(refusal) => refusal.number,
    }
}
