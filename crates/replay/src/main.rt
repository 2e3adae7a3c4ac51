// The program of SPECIFICATION 10.5. Public: a program for users.
#![tactic(auto)]

use std::io;
use std::io::Write;

/// One byte more than the longest schedule is enough to know that a file is too long.
const READ: usize = 16385;

/// 2,048 lines of at most 24 bytes, so that the report space never ends a run.
const SPACE: usize = 49152;

fn main(rt: HostRuntime) -> io::Result<()> {
    let mut schedule = [0u8; READ];
    let read = input::read_full(&mut rt.stdin(), &mut schedule)?;
    let mut report = [0u8; SPACE];
    let ended = schedule::run(&schedule[..read], &mut report);
    rt.stdout().write_all(&report[..ended.bytes])
}
