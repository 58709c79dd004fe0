//! Prints the trace of the run file on standard input.
#![tactic(auto)]

mod command;

use command::Arguments;
use std::io::Write;

const USAGE: &[u8] =
    b"usage: trace < RUNFILE > TRACE\nprints the trace of a run file; tools/runfile makes one\n";

fn main(rt: HostRuntime) {
    let mut reader = rt.stdin();
    let mut writer = rt.stdout();
    let mut errors = rt.stderr();
    match command::asked(&rt) {
        Arguments::None => trace_stream::trace(&mut reader, &mut writer, &mut errors),
        // Where the usage cannot be written, nothing is left to tell.
        Arguments::Help => {
            let _ = writer.write_all(USAGE);
        }
        Arguments::Unknown => {
            let _ = errors.write_all(USAGE);
        }
    }
}
