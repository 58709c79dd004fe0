//! The two packed words of the queue: Anchor and link.
//!
//! Fields are cut to their widths by masks and joined by shifts; the contracts
//! say the same as sums of powers of two, for every argument.
#![tactic(auto)]

ghost use Rattle.std.specs.Prelude.{◌≡◌};
ghost use Rattle.word.specs.{Anchor.{pack_anchor, anchor_of, empty_anchor}, Link.{pack_link, link_of}};

/// The queue's two ends, with a status and a tag that every change raises. The status is a number, since a word that C
/// lends may hold 3, which is no status.
#[derive(Clone, Copy)]
pub struct Anchor {
    pub tag: u64,
    pub status: u64,
    pub left: u64,
    pub right: u64,
}

// Sizes from source 003, footnote 3.
impl Anchor {
    pub const END_BITS: u64 = 15;

    pub const STATUS_BITS: u64 = 2;

    pub const TAG_BITS: u64 = 32;

    pub const LEFT_AT: u64 = Self::END_BITS;

    pub const STATUS_AT: u64 = Self::LEFT_AT + Self::END_BITS;

    pub const TAG_AT: u64 = Self::STATUS_AT + Self::STATUS_BITS;

    pub const END_MASK: u64 = (1 << Self::END_BITS) - 1;

    pub const STATUS_MASK: u64 = (1 << Self::STATUS_BITS) - 1;

    pub const TAG_MASK: u64 = (1 << Self::TAG_BITS) - 1;

    /// The word of the fields, each cut to its width: what does not fit is lost, so it is no `From`.
    pub fn pack(self) -> u64
        ensures { result ≡ pack_anchor self }
    {
        ((self.tag & Self::TAG_MASK) << Self::TAG_AT)
            | (((self.status & Self::STATUS_MASK) << Self::STATUS_AT)
                | (((self.left & Self::END_MASK) << Self::LEFT_AT) | (self.right & Self::END_MASK)))
    }

    pub fn unpack(w: u64) -> Anchor
        ensures { result ≡ anchor_of w }
    {
        Anchor {
            tag: w >> Self::TAG_AT,
            status: (w >> Self::STATUS_AT) & Self::STATUS_MASK,
            left: (w >> Self::LEFT_AT) & Self::END_MASK,
            right: w & Self::END_MASK,
        }
    }

    /// The Anchor of an empty, STABLE queue.
    pub fn empty(tag: u64) -> Anchor
        ensures { result ≡ empty_anchor tag }
    {
        Anchor {
            tag,
            status: 0,
            left: 0,
            right: 0,
        }
    }
}

/// A slot's neighbour, with a tag that every change raises.
#[derive(Clone, Copy)]
pub struct Link {
    pub tag: u64,
    pub slot: u64,
}

impl Link {
    pub const SLOT_BITS: u64 = 15;

    pub const SPARE_BITS: u64 = 17;

    pub const TAG_BITS: u64 = 32;

    pub const SPARE_AT: u64 = Self::SLOT_BITS;

    pub const TAG_AT: u64 = Self::SPARE_AT + Self::SPARE_BITS;

    pub const SLOT_MASK: u64 = (1 << Self::SLOT_BITS) - 1;

    pub const TAG_MASK: u64 = (1 << Self::TAG_BITS) - 1;

    /// The word of the fields, each cut to its width.
    pub fn pack(self) -> u64
        ensures { result ≡ pack_link self }
    {
        ((self.tag & Self::TAG_MASK) << Self::TAG_AT) | (self.slot & Self::SLOT_MASK)
    }

    pub fn unpack(w: u64) -> Link
        ensures { result ≡ link_of w }
    {
        Link {
            tag: w >> Self::TAG_AT,
            slot: w & Self::SLOT_MASK,
        }
    }
}
