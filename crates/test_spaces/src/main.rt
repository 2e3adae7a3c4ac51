// Plays the schedule on standard input into one report space after the other: one that holds any report, every one of up to 48 bytes, and those of 0
// to 24 bytes more than the whole report takes. So refusal 2 ends runs before each of the first lines and before the last, and does not where the
// space has one byte more. A test program.
//
// It prints a line for each: the space's bytes, then the records, the bytes and the refusal that the run returned, then the space's check sum.
#![tactic(auto)]

ghost use Rattle.std.specs.Prelude.{◌≡◌, ◌≤◌, IfOk, length};
ghost use Rattle.pool.specs.Schedule.{report_of};

use std::io;
use storeless::Ended;

/// The largest prime below 2^32.
const PRIME: u64 = 4294967291;

/// The space read as one number, its first byte highest, modulo a prime: so any one byte that is not as it should be is seen.
fn check_sum(space: &[u8]) -> u32 {
    space.iter().fold(0, |sum, byte| {
        ((u64::from(sum) * 256 + u64::from(*byte)) % PRIME) as u32
    })
}

/// How many bytes of the space the report takes; where it cannot be printed, the space has it all the same.
#[tactic(auto, using(schedule::specs::Written::within_report))]
fn play_in(rt: &impl Print, schedule: &[u8], space: &mut [u8]) -> io::Result<usize>
    ensures count { IfOk result (λ n. n ≤ length space.new) }
    ensures report { space.new ≡ report_of schedule.now space.old }
{
    let Ended {
        records,
        bytes,
        refusal,
    } = storeless::run(schedule, space);
    println!(rt;
        "{} {records} {bytes} {refusal} {}",
        space.len(),
        check_sum(space)
    )?;
    Ok(bytes)
}

/// Into a new space of so many bytes, each of them 255, which no report has. 24 bytes more than 2,048 lines can take are enough for all.
fn play(rt: &impl Print, schedule: &[u8], size: usize) -> io::Result<usize>
    requires { size ≤ 49176 }
    ensures { IfOk result (λ n. n ≤ size) }
{
    let mut space = [255; 49176];
    play_in(rt, schedule, &mut space[..size])
}

fn main(rt: HostRuntime) -> io::Result<()> {
    let mut schedule = [0u8; 16385];
    let read = input::read_full(&mut rt.stdin(), &mut schedule)?;
    let schedule = &schedule[..read];
    let bytes = play(&rt, schedule, 49152)?;
    for size in 0..49 {
        play(&rt, schedule, size)?;
    }
    for size in bytes..bytes + 25 {
        play(&rt, schedule, size)?;
    }
    Ok(())
}
