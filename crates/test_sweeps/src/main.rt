// The largest pool, every slot of it held, and a request whose sweep can evict nothing: through the public calls, check 8 before and after each. A
// test program, and what `bench/run` times.
//
// Each byte on standard input is one such request: a begin and 132 steps, the last of which is refusal 15. It prints the tally's refusals, so the
// number of bytes. `bench/run` takes the time of a step from it.
#![tactic(auto)]

use std::io;
use test_support::State;

fn main(rt: HostRuntime) -> io::Result<()> {
    let mut input = [0u8; 4096];
    let n = input::read_full(&mut rt.stdin(), &mut input)?;

    // S 64, T 16, C 100. Each page goes into an empty slot, by stages 1, 4 to 9 and 18.
    let mut state = State::set_up(64, 16, 100, 0);
    test_support::fill(|client, page| state.request(client, page, 8));

    // Client 0 wants page 64: stages 1, 4, 5, 10, then 11 and 12 at each of 64 slots.
    for _ in 0..n {
        state.request(0, 64, 132);
    }
    println!(rt; "{}", state.tally.refused)
}
