// The chained rules as one lent word a row: bit b of word a.
ghost use mathlib.Core.{Path.◌≡◌, Bool.false, List.◌++◌};
ghost use Rattle.std.specs.Prelude.{◌≤◌, length, drop};
ghost use Rattle.sheet_model.specs.{Sheet.{any, outside}, Words.{linked, words_of}};

use crate::rows;

/// The chained rules of a list of n labels.
pub fn closure(words: &mut [u32], rules: &[u32], n: usize)
    requires { (32 ≤ length words.old) × (n ≤ 32) × (any (outside n) rules.now ≡ false) }
    ensures { words.new ≡ words_of (linked rules.now n) ++ drop 32 words.old }
{
    table::fill(words, 32, 0);
    rows::mark(words, rules, n);
    rows::join(words, n);
}
