//! The touches of shared memory, and what C is told of each.
ghost use Rattle.std.specs.Prelude.{◌≡◌};
ghost use Rattle.threads_model.specs.Split.{plan_of};
ghost use Rattle.touch.specs.Planned.{planned_of, toward};

use decide::touched::LinkWord;
use threads_model::PlannedTouch;

/// What a step or a start does with shared memory.
#[derive(Clone, Copy)]
pub enum Touch {
    /// Nothing: it is refused by this number.
    Refused(u32),
    LoadAnchor,
    SwapAnchor {
        expected: u64,
        word: u64,
    },
    LoadLink(LinkWord),
    SwapLink {
        link: LinkWord,
        expected: u64,
        word: u64,
    },
    /// The slot `end` goes into a link word, whose tag stays.
    PutLink {
        link: LinkWord,
        end: u64,
    },
    /// The slot's label is read, and its mark cleared.
    TakeLabel(u64),
    LoadHead,
    SwapHead {
        expected: u64,
        word: u64,
    },
    /// Where the head is changed, the slot drawn gets the label and its mark.
    DrawSlot {
        expected: u64,
        word: u64,
        slot: u64,
        label: u32,
    },
    LoadNext(u64),
    StoreNext {
        slot: u64,
        next: u64,
    },
    /// The slot's mark is set; if it was clear, the label is stored.
    TakeSlot {
        slot: u64,
        label: u32,
    },
    LoadMark(u64),
}

/// One of C's touches by its number, with no slot and no words.
fn act(act: u32) -> PlannedTouch
    ensures { result ≡ plan_of act 0 0 0 0 0 }
{
    PlannedTouch {
        act,
        label: 0,
        side: 0,
        slot: 0,
        expected: 0,
        word: 0,
    }
}

/// The same of a link word; the side is the one to which it leads.
fn act_on(number: u32, link: LinkWord) -> PlannedTouch
    ensures { result ≡ plan_of number (toward link) link.slot 0 0 0 }
{
    PlannedTouch {
        side: u64::from(link.right),
        slot: link.slot,
        ..act(number)
    }
}

impl From<Touch> for PlannedTouch {
    ghost from_gives = { λ touch planned. planned ≡ planned_of touch };

    #[inline(always)]
    fn from(touch: Touch) -> PlannedTouch {
        match touch {
            Touch::Refused(why) => PlannedTouch {
                word: u64::from(why),
                ..act(0)
            },
            Touch::LoadAnchor => act(1),
            Touch::SwapAnchor { expected, word } => PlannedTouch {
                expected,
                word,
                ..act(2)
            },
            Touch::LoadLink(link) => act_on(3, link),
            Touch::SwapLink {
                link,
                expected,
                word,
            } => PlannedTouch {
                expected,
                word,
                ..act_on(4, link)
            },
            Touch::PutLink { link, end } => PlannedTouch {
                word: end,
                ..act_on(5, link)
            },
            Touch::TakeLabel(slot) => PlannedTouch { slot, ..act(6) },
            Touch::LoadHead => act(7),
            Touch::SwapHead { expected, word } => PlannedTouch {
                expected,
                word,
                ..act(8)
            },
            Touch::DrawSlot {
                expected,
                word,
                slot,
                label,
            } => PlannedTouch {
                label,
                slot,
                expected,
                word,
                ..act(9)
            },
            Touch::LoadNext(slot) => PlannedTouch { slot, ..act(10) },
            Touch::StoreNext { slot, next } => PlannedTouch {
                slot,
                word: next,
                ..act(11)
            },
            Touch::TakeSlot { slot, label } => PlannedTouch {
                label,
                slot,
                ..act(12)
            },
            Touch::LoadMark(slot) => PlannedTouch { slot, ..act(13) },
        }
    }
}
