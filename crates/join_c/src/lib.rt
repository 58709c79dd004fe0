//! Two lanes into one for C and Rust: the call of crate `join`, in an archive of its own.
#![tactic(auto)]

ghost use mathlib.Core.{Bool.cond, List.List, Path.◌≡◌};
ghost use Rattle.std.specs.Prelude.{set, ℕ};
ghost use Rattle.join_model.specs.Join.{Joined, join, laid};
ghost use Rattle.layout.specs.Rows.{queue_in, uppers_of};

/// The same for C and Rust, with controls and records lent as rows of words; whatever the sources' marks and any next table, which are not lent.
#[unsafe(no_mangle)]
pub extern "C" fn zc_join(
    first: &[u64; layout::CONTROL_WORDS],
    records1: &[[u64; layout::RECORD_WORDS]],
    second: &[u64; layout::CONTROL_WORDS],
    records2: &[[u64; layout::RECORD_WORDS]],
    third: &mut [u64; layout::CONTROL_WORDS],
    records: &mut [[u64; layout::RECORD_WORDS]],
    lefts1: &[u64],
    rights1: &[u64],
    labels1: &[u32],
    lefts2: &[u64],
    rights2: &[u64],
    labels2: &[u32],
    lefts: &mut [u64],
    rights: &mut [u64],
    labels: &mut [u32],
    marks: &mut [u64],
) -> u32
    ensures fact { (marks1 next1 marks2 next2 next : List ℕ) → ◌≡◌ {A = Joined}
        (record {
          code = result;
          third = queue_in third.new records.new lefts.new rights.new labels.new marks.new next;
        })
        (join
        (queue_in first.now records1.now lefts1.now rights1.now labels1.now marks1 next1)
        (queue_in second.now records2.now lefts2.now rights2.now labels2.now marks2 next2)
        (queue_in third.old records.old lefts.old rights.old labels.old marks.old next)) }
    ensures records_after { (marks1 next1 marks2 next2 next : List ℕ) → uppers_of records.new ≡ cond (laid
        (queue_in first.now records1.now lefts1.now rights1.now labels1.now marks1 next1)
        (queue_in second.now records2.now lefts2.now rights2.now labels2.now marks2 next2)
        (queue_in third.old records.old lefts.old rights.old labels.old marks.old next))
        (set (uppers_of records.old) 0 0) (uppers_of records.old) }
{
    join::zc_join(
        first, records1, second, records2, third, records, lefts1, rights1, labels1, lefts2,
        rights2, labels2, lefts, rights, labels, marks,
    )
}
