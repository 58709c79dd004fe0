//! The covered part of every call but the step: refusals, starts, opening, report.
#![tactic(auto)]

pub mod opening;
pub mod refusal;
pub mod report;
pub mod start;
