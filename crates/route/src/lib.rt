//! Where a step leads: the figures' column *next* as one constant table.
#![tactic(auto)]

pub mod next;
