//! Tells the verdict on the history on standard input, a text. `judge` judges it and has the words.
#![tactic(auto)]

mod help;

ghost use Rattle.std.specs.Prelude.{◌≤◌, length, IfOk};

use judge::say;
use std::env::{Env, FillError};
use std::io;
use std::io::{Read, Write};

// How many bytes the input has up to its end, or up to where there is room for no more.
fn read_all<R: Read>(from: &mut R, input: &mut [u8]) -> io::Result<usize>
    ensures { IfOk result (λ n. n ≤ length input.old) }
{
    let mut have = 0;
    // Each turn leaves less room, or is the last.
    while have < input.len() {
        let n = from.read(&mut input[have..])?;
        if n == 0 {
            break;
        }
        have += n;
    }
    Ok(have)
}

// A buffer that is full may not hold all of the input.
fn judge_input<R: Read, W: Write, E: Write>(
    from: &mut R,
    to: &mut W,
    errors: &mut E,
    input: &mut [u8],
    out: &mut [u8],
) -> io::Result<()> {
    let Ok(n) = read_all(from, input) else {
        return errors.write_all(b"verdict: cannot read\n");
    };
    if n == input.len() {
        return errors.write_all(b"verdict: longer than 65535 bytes\n");
    }
    match say::say(&input[..n], out) {
        Ok(length) => to.write_all(&out[..length]),
        Err(length) => errors.write_all(&out[..length]),
    }
}

// Whether the program was started with an argument.
fn has_arguments(rt: &impl Env) -> bool {
    !matches!(rt.arg(1, &mut []), Err(FillError::NotPresent))
}

fn main(rt: HostRuntime) {
    let mut to = rt.stdout();
    if has_arguments(&rt) {
        let _ = help::help(&mut to);
        return;
    }
    let mut from = rt.stdin();
    let mut errors = rt.stderr();
    let mut input = [0u8; 65536];
    let mut out = [0u8; lines::ROOM];
    if judge_input(&mut from, &mut to, &mut errors, &mut input, &mut out).is_err() {
        let _ = errors.write_all(b"verdict: cannot write\n");
    }
}
