// The first broken pair.
ghost use Rattle.std.specs.Prelude.{◌≡◌, ◌≤◌, length};
ghost use Rattle.sheet.specs.{Search.in_rows, Squares.crossed};

use crate::extents::Extents;
use crate::rows::Marks;
use sheet_model::SheetReply;

/// The first broken pair of n places, by first then second place: marked in the square, with the
/// second's lowest position at or below the first's highest.
pub fn first_broken<R: Marks>(square: &[R], n: usize, seen: &Extents) -> SheetReply
    requires { (32 ≤ length square.now) × (n ≤ 32) }
    ensures { result ≡ in_rows (crossed R.kind square.now seen.now.low seen.now.high) n 1 n }
{
    let mut first = 0;
    let mut second = 0;
    // The document asks for loops that are left from inside by a label.
    'pairs: for a in 0..n {
        for b in 0..n {
            if square[a].has(b) & (seen.low[b] <= seen.high[a]) {
                first = a as u64 + 1;
                second = b as u64 + 1;
                break 'pairs;
            }
        }
    }
    SheetReply {
        code: 0,
        first,
        second,
    }
}
