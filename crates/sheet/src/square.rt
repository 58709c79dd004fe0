// The chained rules in a square of 32 by 32 marks, one byte each.
ghost use mathlib.Core.{Path.◌≡◌, Bool.false};
ghost use Rattle.std.specs.Prelude.{◌≤◌};
ghost use Rattle.sheet_model.specs.{Sheet.{any, outside}, Words.linked};
ghost use Rattle.sheet.specs.{Squares.{square_of, byte_row, crossed}, Search.in_rows};

use crate::extents::Extents;
use crate::{rows, search};
use sheet_model::SheetReply;

/// Kept, or the first broken pair of n labels with these positions.
pub fn first_broken(rules: &[u32], n: usize, seen: &Extents) -> SheetReply
    requires { (n ≤ 32) × (any (outside n) rules.now ≡ false) }
    ensures { result ≡ in_rows (crossed byte_row (square_of (linked rules.now n)) seen.now.low seen.now.high) n 1 n }
{
    let mut square = [[0u8; 32]; 32];
    rows::mark(&mut square, rules, n);
    rows::join(&mut square, n);
    search::first_broken(&square, n, seen)
}
