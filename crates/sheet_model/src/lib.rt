//! The order sheet's answer, by value. What it means is in `specs/`.
#![tactic(auto)]

/// What a sheet is answered, as C sees it.
#[repr(C)]
#[derive(Clone, Copy)]
pub struct SheetReply {
    /// 0, or the number of a refusal; the rest is then 0.
    pub code: u64,
    /// The first broken pair's places in the list, from 1; both 0 where the sheet is kept.
    pub first: u64,
    pub second: u64,
}
