// The report: all of it but the look at each record.
ghost use Rattle.std.specs.Prelude.{◌≡◌, leb};
ghost use Rattle.model.specs.{Tables.tables_of, Report.tell};
ghost use Rattle.calls.specs.Telling.{countable};

use model::{Control, Refusal, Report, Reported};
use sound::{Lengths, admission};
use walk::Unsound;
use word::Anchor;

/// How many records the report looks at: one for each task, or none where it will be refused.
pub fn to_count(c: Control, records: usize) -> usize
    ensures { result ≡ countable c records }
{
    let tasks = c.tasks as usize;
    let few = (tasks <= 16) & (tasks <= records);
    if few { tasks } else { 0 }
}

/// The report, when busy is how many tasks are.
pub fn told(
    c: Control,
    records: usize,
    busy: u64,
    lefts: &[u64],
    rights: &[u64],
    labels: &[u32],
    marks: &[u64],
    next: &[u64],
) -> Reported
    ensures { result ≡ tell
        (tables_of c lefts.now rights.now labels.now marks.now next.now)
        (leb c.tasks records)
        busy }
{
    let t = Lengths::of(records, lefts, rights, labels, marks, next);
    let why = admission::table_refusal(c, t);
    if why != 0 {
        return Err(Refusal { number: why });
    }
    match walk::waiting(c, lefts, rights) {
        Err(Unsound) => Err(Refusal { number: 34 }),
        Ok(waiting) => {
            let anchor = Anchor::unpack(c.anchor);
            let taken = marks::taken(c.slots, marks);
            Ok(Report {
                anchor,
                busy,
                waiting,
                taken,
            })
        }
    }
}
