// Whether two queues can be joined in a third: the tests, and the number of the first rule that applies.
ghost use mathlib.Core.{Path.◌≡◌, List.{List, [], ◌∷◌}};
ghost use Rattle.std.specs.Prelude.{ℕ, ◌+◌, ◌≤◌, ltb};
ghost use Rattle.word.specs.Anchor.{anchor_of};
ghost use Rattle.model.specs.{Tables.{tables_of, queue_of}, Sound.control_sound, Walk.contents, Lists.every};
ghost use Rattle.walk.specs.Counted.{counted};
ghost use Rattle.layout.specs.Rows.{records_of};
ghost use Rattle.join_model.specs.{Join.{at_rest, fresh}, Closed.late_for};
ghost use Rattle.join.specs.{Stages.{lengths_fit, tests_refusal, later_refusal}, Admits.{walked, Admits}};

use crate::rest;
use model::{Control, Refusal};
use sound::Lengths;
use word::Anchor;

// The highest Anchor tag that a start is accepted at.
const LAST_TAG: u64 = 4294967262;

/// Whether tables of these lengths have rows 0 to slots, and a record for each task.
#[tactic(auto, unfolding(crate::specs::Stages::lengths_fit))]
fn lengths_fit(c: Control, t: Lengths) -> bool
    ensures { result ≡ lengths_fit c t }
{
    let last = c.slots as usize;
    (last < t.lefts) & (last < t.rights) & (last < t.labels) & (c.tasks <= t.records as u64)
}

/// 34 for the three controls and Anchors, and 12.
#[tactic(auto, unfolding(crate::specs::Stages::tests_refusal))]
fn tests_refusal(first: bool, second: bool, third: bool, fits: bool) -> u32
    ensures { result ≡ tests_refusal first second third fits }
{
    if !(first & second & third) {
        return 34;
    }
    if !fits {
        return 12;
    }
    0
}

/// Whether one of n pushes would find the Anchor tag too high, the first of them finding this one.
#[tactic(auto, unfolding(join_model::specs::Closed::late_for))]
fn late(tag: u64, n: u64) -> bool
    requires { n ≤ 1023 }
    ensures { result ≡ late_for tag n }
{
    if n == 0 {
        return false;
    }
    if LAST_TAG < tag {
        return true;
    }
    if n == 1 {
        return false;
    }
    LAST_TAG - tag < 2 * (n - 1) - 1
}

/// 47, 48 and 33.
#[tactic(auto, unfolding(crate::specs::Stages::later_refusal))]
fn later_refusal(rest: bool, slots: u64, tag: u64, first: u64, second: u64) -> u32
    requires { slots ≤ 1023 }
    ensures { result ≡ later_refusal rest (ltb slots (first + second)) (late_for tag (first + second)) }
{
    if !rest {
        return 47;
    }
    if slots < first {
        return 48;
    }
    if slots - first < second {
        return 48;
    }
    if late(tag, first + second) {
        return 33;
    }
    0
}

/// The rules before the walks. The tables are given by their lengths.
fn table_rules(
    first: Control,
    second: Control,
    third: Control,
    fits1: bool,
    fits2: bool,
    fits3: bool,
) -> u32
    ensures { result ≡ tests_refusal (control_sound first) (control_sound second) (control_sound third)
        (every (fits1 ∷ fits2 ∷ fits3 ∷ [])) }
{
    let a = sound::control_sound(first);
    let b = sound::control_sound(second);
    let c = sound::control_sound(third);
    tests_refusal(a, b, c, fits1 & (fits2 & fits3))
}

/// The rules after the walks, which counted so many labels.
fn final_rules(
    first: Control,
    second: Control,
    third: Control,
    records1: &[[u64; layout::RECORD_WORDS]],
    records2: &[[u64; layout::RECORD_WORDS]],
    records: &[[u64; layout::RECORD_WORDS]],
    lefts: &[u64],
    rights: &[u64],
    labels: &[u32],
    marks: &[u64],
    n: u64,
    m: u64,
) -> u32
    requires { third.slots ≤ 1023 }
    ensures { (a b c d e f g h i j k : List ℕ) → result ≡ later_refusal
        (every (at_rest (queue_of first (records_of records1.now) a b c d e)
        ∷ at_rest (queue_of second (records_of records2.now) f g h i j)
        ∷ fresh (queue_of third (records_of records.now) lefts.now rights.now labels.now marks.now k)
        ∷ []))
        (ltb third.slots (n + m))
        (late_for (anchor_of third.anchor).tag (n + m)) }
{
    let a = rest::at_rest(first, records1);
    let b = rest::at_rest(second, records2);
    let c = rest::is_fresh(third, records, lefts, rights, labels, marks);
    let anchor = Anchor::unpack(third.anchor);
    later_refusal(a & (b & c), third.slots, anchor.tag, n, m)
}

/// How many labels wait in each of the two queues.
#[derive(Clone, Copy)]
pub struct Waiting {
    pub first: u64,
    pub second: u64,
}

/// The two walks: 34 where one of them is broken, else what they count.
fn walks(
    first: Control,
    second: Control,
    lefts1: &[u64],
    rights1: &[u64],
    lefts2: &[u64],
    rights2: &[u64],
) -> Result<Waiting, Refusal>
    ensures { (a b c d e f : List ℕ) → result ≡ walked
        (counted (contents (tables_of first lefts1.now rights1.now a b c)))
        (counted (contents (tables_of second lefts2.now rights2.now d e f))) }
{
    let Ok(n) = walk::waiting(first, lefts1, rights1) else {
        return Err(Refusal { number: 34 });
    };
    let Ok(m) = walk::waiting(second, lefts2, rights2) else {
        return Err(Refusal { number: 34 });
    };
    Ok(Waiting {
        first: n,
        second: m,
    })
}

/// All the rules, in order: the number of the first that applies, or what waits.
pub fn admit(
    first: Control,
    second: Control,
    third: Control,
    records1: &[[u64; layout::RECORD_WORDS]],
    records2: &[[u64; layout::RECORD_WORDS]],
    records: &[[u64; layout::RECORD_WORDS]],
    lefts1: &[u64],
    rights1: &[u64],
    labels1: &[u32],
    lefts2: &[u64],
    rights2: &[u64],
    labels2: &[u32],
    lefts: &[u64],
    rights: &[u64],
    labels: &[u32],
    marks: &[u64],
) -> Result<Waiting, Refusal>
    ensures { (marks1 next1 marks2 next2 next : List ℕ) → Admits
        (queue_of first (records_of records1.now) lefts1.now rights1.now labels1.now marks1 next1)
        (queue_of second (records_of records2.now) lefts2.now rights2.now labels2.now marks2 next2)
        (queue_of third (records_of records.now) lefts.now rights.now labels.now marks.now next)
        result }
{
    let one = Lengths {
        records: records1.len(),
        lefts: lefts1.len(),
        rights: rights1.len(),
        labels: labels1.len(),
        marks: 0,
        next: 0,
    };
    let two = Lengths {
        records: records2.len(),
        lefts: lefts2.len(),
        rights: rights2.len(),
        labels: labels2.len(),
        marks: 0,
        next: 0,
    };
    let into = Lengths {
        records: records.len(),
        lefts: lefts.len(),
        rights: rights.len(),
        labels: labels.len(),
        marks: marks.len(),
        next: 0,
    };
    let a = lengths_fit(first, one);
    let b = lengths_fit(second, two);
    let c = lengths_fit(third, into);
    let enough = c & (third.slots / 64 < into.marks as u64);
    let why = table_rules(first, second, third, a, b, enough);
    if why != 0 {
        return Err(Refusal { number: why });
    }
    let waiting = walks(first, second, lefts1, rights1, lefts2, rights2)?;
    let code = final_rules(
        first,
        second,
        third,
        records1,
        records2,
        records,
        lefts,
        rights,
        labels,
        marks,
        waiting.first,
        waiting.second,
    );
    if code != 0 {
        return Err(Refusal { number: code });
    }
    Ok(waiting)
}
