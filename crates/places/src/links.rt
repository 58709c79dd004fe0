//! The link tables as seen from a side: Left is the mirror of Right.
ghost use mathlib.Core.{Path.◌≡◌, Bool.cond};
ghost use Rattle.std.specs.Prelude.{get_or, set};

use decide::touched::LinkWord;

/// A slot's link word.
pub fn link_at(link: LinkWord, lefts: &[u64], rights: &[u64]) -> u64
    ensures { result ≡ get_or (cond link.right rights.now lefts.now) link.slot 0 }
{
    if link.right {
        table::get_or(rights, link.slot, 0)
    } else {
        table::get_or(lefts, link.slot, 0)
    }
}

/// Stores w there.
pub fn put_link(link: LinkWord, w: u64, lefts: &mut [u64], rights: &mut [u64])
    ensures { (lefts.new ≡ cond link.right lefts.old (set lefts.old link.slot w))
        × (rights.new ≡ cond link.right (set rights.old link.slot w) rights.old) }
{
    if link.right {
        table::set(rights, link.slot, w);
    } else {
        table::set(lefts, link.slot, w);
    }
}
