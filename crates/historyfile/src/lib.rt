//! A history as text, its words read into numbers. `specs/Text.antt` has the form of the text.
#![tactic(auto)]

pub mod reading;
pub mod words;
