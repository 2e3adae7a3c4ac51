// As `test_sweeps`, of a pool that has bytes: the largest pool with the largest store, every slot of it held, each page's first byte written, and a
// request whose sweep can evict nothing. A test program, and what `bench/run` times.
//
// Each byte on standard input is one such request: a begin and 132 steps, the last of which is refusal 15. It prints the tally's refusals, so the
// number of bytes.
#![tactic(auto)]

use memory::BufferPool;
use pool::Tally;
use std::io;

/// The pool, and what is lent to its calls: the one tally, and the store.
#[derive(Drop)]
struct State<'a> {
    pool: BufferPool,
    tally: Tally,
    store: &'a mut [u8],
}

impl State<'_> {
    /// A begin, and so many steps.
    fn request(&mut self, client: u8, page: u32, n: u8) {
        self.pool = buffered::begin(self.pool, client, page).pool;
        for _ in 0..n {
            let stepped = byte_step::step_tallied(self.pool, client, self.tally, self.store);
            self.pool = stepped.pool;
            self.tally = stepped.tally;
        }
    }

    /// Writes a page's first byte.
    fn write(&mut self, client: u8, page: u32) {
        self.pool = byte_calls::write(self.pool, client, page, 0, 7, self.store).pool;
    }
}

fn main(rt: HostRuntime) -> io::Result<()> {
    let mut input = [0u8; 4096];
    let n = input::read_full(&mut rt.stdin(), &mut input)?;
    let mut store = [0u8; 16384];
    let mut state = State {
        pool: buffered::setup(64, 16, 100, 0, &store).pool,
        tally: Tally::default(),
        store: &mut store,
    };
    test_support::fill(|client, page| {
        state.request(client, page, 8);
        state.write(client, page);
    });
    for _ in 0..n {
        state.request(0, 64, 132);
    }
    println!(rt; "{}", state.tally.refused)
}
