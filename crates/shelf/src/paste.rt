// Stretches of one table copied into another: words, labels, records.
ghost use Rattle.std.specs.Prelude.{◌≡◌, ◌+◌, ◌≤◌, IfSome, length};
ghost use Rattle.shelf.specs.Pasting.{on_shelf, put_on, put_back};

/// Rows of the longest queue: 0 to 1,023.
pub const MOST_ROWS: usize = 1024;

/// The most tasks of a queue.
pub const MOST_TASKS: usize = 16;

/// Where the first k entries of a table begin on a shelf, if they fit there and in the table; the shelves and the table are
/// given by their lengths.
#[tactic(auto, unfolding(crate::specs::Pasting::on_shelf))]
fn on_shelf(shelf: u64, k: u64, shelves: usize, table: usize) -> Option<usize>
    ensures value { result ≡ on_shelf shelf k shelves table }
    ensures lies { IfSome result (λ start. (start + k ≤ shelves) × (k ≤ table)) }
{
    let n = k as usize;
    let share = shelves / 8;
    if (shelf <= 7) & (n <= share) & (n <= table) {
        Some(shelf as usize * share)
    } else {
        None
    }
}

/// More entries than there is room for on the way, which no queue has.
#[cold]
#[inline(never)]
fn copy_many<T: Copy>(from: &[T], to: &mut [T])
    requires { length to.old ≡ length from.now }
    ensures { to.new ≡ from.now }
{
    to.copy_from_slice(from);
}

/// Copies by way of entries lent for it: these lie apart from both, so that a copy is one memmove.
// Tried without them, a loop for each way in which both may lie: 7,886 bytes of code in place of the 4,341 of bench/facts.txt.
fn copy<T: Copy>(from: &[T], to: &mut [T], held: &mut [T])
    requires { length to.old ≡ length from.now }
    ensures { to.new ≡ from.now }
{
    let k = from.len();
    if k == 0 {
        return;
    }
    if held.len() < k {
        copy_many(from, to);
        return;
    }
    held[..k].copy_from_slice(from);
    to.copy_from_slice(&held[..k]);
}

/// The first k entries put on a shelf.
pub fn put<T: Copy>(from: &[T], to: &mut [T], held: &mut [T], shelf: u64, k: u64)
    ensures { to.new ≡ put_on shelf k from.now to.old }
{
    if let Some(at) = on_shelf(shelf, k, to.len(), from.len()) {
        let n = k as usize;
        copy(&from[..n], &mut to[at..at + n], held);
    }
}

/// The first k entries on a shelf put back.
pub fn take<T: Copy>(from: &[T], to: &mut [T], held: &mut [T], shelf: u64, k: u64)
    ensures { to.new ≡ put_back shelf k from.now to.old }
{
    if let Some(start) = on_shelf(shelf, k, from.len(), to.len()) {
        let n = k as usize;
        copy(&from[start..start + n], &mut to[..n], held);
    }
}
