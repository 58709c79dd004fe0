//! Left as the mirror of right: ends and statuses as seen from a side.
ghost use mathlib.Core.{Path.◌≡◌, Bool.cond};
ghost use Rattle.word.specs.Anchor.{pack_anchor};

use word::Anchor;

/// The end of Anchor at the side.
pub fn near(right: bool, a: Anchor) -> u64
    ensures { result ≡ cond right a.right a.left }
{
    if right { a.right } else { a.left }
}

/// The word of an Anchor with n for its end at the side and f for its other end.
pub fn facing(right: bool, tag: u64, status: u64, n: u64, f: u64) -> u64
    ensures { result ≡ pack_anchor (record { tag = tag; status = status; left = cond right f n; right = cond right n f }) }
{
    let (left, right) = if right { (f, n) } else { (n, f) };
    Anchor {
        tag,
        status,
        left,
        right,
    }
    .pack()
}

/// The status of a push at the side: RPUSH or LPUSH.
pub fn pushing(right: bool) -> u64
    ensures { result ≡ cond right 1 2 }
{
    if right { 1 } else { 2 }
}
