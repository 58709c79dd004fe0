//! The command line of a program that takes no arguments but `--help`.
use std::env::{Env, FillError};

/// The arguments that the program was started with.
#[derive(Clone, Copy, Debug, PartialEq, Eq)]
pub enum Arguments {
    None,
    Help,
    /// Others, or more than that.
    Unknown,
}

// Whether there is an argument of this number.
fn is_there(rt: &impl Env, i: usize) -> bool {
    !matches!(rt.arg(i, &mut []), Err(FillError::NotPresent))
}

// Whether the first argument is `--help`.
fn is_help(rt: &impl Env) -> bool {
    let mut word = [0u8; 8];
    match rt.arg(1, &mut word) {
        Ok(n) => &word[..n] == b"--help".as_slice(),
        Err(_) => false,
    }
}

pub fn asked(rt: &impl Env) -> Arguments {
    if !is_there(rt, 1) {
        Arguments::None
    } else if !is_there(rt, 2) && is_help(rt) {
        Arguments::Help
    } else {
        Arguments::Unknown
    }
}
