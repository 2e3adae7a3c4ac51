// The largest pool, S 64 and T 16, goes round its frames 0 to 95 (SPECIFICATION 2.8), three times. A test program.
//
// Pages 0 to 285 are requested one after the other, by the clients in turn, and each is released before the next one is requested; pages 94 and 190
// are kept. A line is a page and the frame that stage 4 took for it; the last line is how many pages were admitted. Why `stdout` says what it says is
// in the comments of `main`.
#![tactic(auto)]

use std::io;
use std::ops::Range;
use test_support::State;

fn client_of(page: u32) -> u8 {
    (page % 16) as u8
}

/// Into an empty slot by stages 1, 4 to 9, 18, later by a sweep, 1, 4, 5, 10 to 18, which has 11 and 12 once more where it meets a page that is kept.
/// The rest of 14 steps are turned down by 11.
fn request(state: &mut State, page: u32) {
    state.request(client_of(page), page, 14);
}

/// Each page is released again.
fn visit(state: &mut State, pages: Range<u32>) {
    for page in pages {
        request(state, page);
        state.release(client_of(page), page);
    }
}

fn print_taken(rt: &impl Print, state: &State, page: u32) -> io::Result<()> {
    println!(rt; "{page} {}", state.pool.last)
}

fn main(rt: HostRuntime) -> io::Result<()> {
    // With C 1 every count is 1 or 0, an index page's too: a sweep evicts the first frame that it meets and that is not held.
    let mut state = State::set_up(64, 16, 1, 0);

    // Each page takes the frame of its own number: the one after the last, and never taken before. Page 94 is kept.
    visit(&mut state, 0..94);
    request(&mut state, 94);
    print_taken(&rt, &state, 94)?;
    visit(&mut state, 95..96);
    print_taken(&rt, &state, 95)?;

    // The search starts with frame 0, whose page was evicted for page 64.
    visit(&mut state, 96..97);
    print_taken(&rt, &state, 96)?;

    // Frames 1 to 93 once more. Then the search starts with frame 94, which is held, and goes on with frame 95. Page 190 is kept.
    visit(&mut state, 97..190);
    print_taken(&rt, &state, 189)?;
    request(&mut state, 190);
    print_taken(&rt, &state, 190)?;

    // Frames 0 to 93. Then the search starts with frame 94, and both this and frame 95 are held: it goes on with frame 0.
    visit(&mut state, 191..285);
    print_taken(&rt, &state, 284)?;
    visit(&mut state, 285..286);
    print_taken(&rt, &state, 285)?;
    println!(rt; "{}", state.tally.admitted)
}
