//! A buffer filled again from a reader: the bytes that are left go to its front, and one read puts what comes behind them.
//!
//! No contract says what the system reads. A read of no bytes is the end of the input only where the buffer has room; so it must.
ghost use Rattle.std.specs.Prelude.{◌≤◌, ◌<◌, ◌-◌, ◌≡◌, IfOk};
ghost use lib.{ListN.{length, take}, Seq.slice};

use crate::Fault;
use std::io::Read;

// Moves the bytes from `from` to `have` to the front, and answers how many there are.
fn slide(input: &mut [u8], from: usize, have: usize) -> usize
    requires { have ≤ length input.old }
    ensures value { result ≡ have - from }
    ensures input_after { take result input.new ≡ slice from have input.old }
{
    let from = from.min(have);
    input.copy_within(from..have, 0);
    have - from
}

/// Keeps the bytes from `from` to `have`, reads once behind them, and answers how many there are then: no more at the end of the input.
pub fn refill<R: Read>(
    reader: &mut R,
    input: &mut [u8],
    from: usize,
    have: usize,
) -> Result<usize, Fault>
    requires { (have ≤ length input.old) × (have - from < length input.old) }
    ensures full { IfOk result (λ full. (have - from ≤ full) × (full ≤ length input.old)) }
    ensures input_after { take (have - from) input.new ≡ slice from have input.old }
{
    let left = slide(input, from, have);
    let read = reader.read(&mut input[left..]).map_err(|_| Fault::Read)?;
    Ok(left + read)
}
