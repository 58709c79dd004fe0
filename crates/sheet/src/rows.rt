// A square of marks, row by row: rows of bytes, or of the bits of a word.
ghost use mathlib.Core.{Path.◌≡◌, Bool.false};
ghost use Rattle.std.specs.Prelude.{◌<◌, ◌≤◌, length};
ghost use Rattle.sheet_model.specs.Sheet.{any, outside};
ghost use Rattle.sheet.specs.Squares.{Row, byte_row, bit_row, rules_marked, rounds};

use crate::form::{after, before};

/// A row of 32 marks.
pub trait Marks: Copy {
    ghost kind: { Row Self };

    fn has(&self, b: usize) -> bool
        requires { b < 32 }
        ensures { result ≡ kind.has self.now b };

    fn put(&mut self, b: usize)
        requires { b < 32 }
        ensures { self.new ≡ kind.put self.old b };

    /// Sets the marks of another row too.
    fn join(&mut self, via: Self)
        ensures { self.new ≡ kind.join via self.old };
}

impl Marks for [u8; 32] {
    ghost kind = { byte_row };

    fn has(&self, b: usize) -> bool {
        self[b] != 0
    }

    fn put(&mut self, b: usize) {
        self[b] = 1;
    }

    fn join(&mut self, via: [u8; 32]) {
        for j in 0..32 {
            self[j] |= via[j];
        }
    }
}

impl Marks for u32 {
    ghost kind = { bit_row };

    fn has(&self, b: usize) -> bool {
        (*self >> b) % 2 == 1
    }

    fn put(&mut self, b: usize) {
        *self |= 1 << b;
    }

    fn join(&mut self, via: u32) {
        *self |= via;
    }
}

/// Sets the marks of the rules themselves, for a list of n labels.
pub fn mark<R: Marks>(rows: &mut [R], rules: &[u32], n: usize)
    requires { (32 ≤ length rows.old) × (n ≤ 32) × (any (outside n) rules.now ≡ false) }
    ensures { rows.new ≡ rules_marked R.kind rules.now rows.old }
{
    for w in rules {
        rows[before(*w) - 1].put(after(*w) - 1);
    }
}

/// Each row that has place k marked gets that place's row.
pub fn join<R: Marks>(rows: &mut [R], n: usize)
    requires { (32 ≤ length rows.old) × (n ≤ 32) }
    ensures { rows.new ≡ rounds R.kind n 0 n rows.old }
{
    for k in 0..n {
        let via = rows[k];
        for i in 0..n {
            if rows[i].has(k) {
                rows[i].join(via);
            }
        }
    }
}
