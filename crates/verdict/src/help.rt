//! What `--help` says.
use std::io;
use std::io::Write;

/// Writes all of it.
pub fn help<W: Write>(to: &mut W) -> io::Result<()> {
    to.write_all(
        b"usage: verdict < HISTORY

Tells on one line whether a history of finished calls can be true:
  passes            its claimed order of effects explains every answer
  fails at N        position N of the order, from 1, is the first wrong one
  no rearrangement  the order does not name every call once
  refused 40        over 64 calls, an answer event not after its start,
                    two events equal, or a kind, side or answer unknown

A history is text, a call a line, then the order; # begins a comment:
  # task kind side label answer start end
  0 push right 700 pushed 1 3
  1 pop left 700 popped 4 7
  2 pop left - empty 5 8
  order 1 2 3

Calls are numbered from 1 in the order of their lines. Events are any numbers,
later ones larger. With empty the label may be -; kind, side and answer may be
numbers. What cannot be read is told on standard error, with its line.

A run of trace as a history:
  tools/runfile RUN.txt | trace | tools/history RUN.txt | verdict
",
    )
}
