// A caller of both lent forms: one tally is lent to every step, and lists of rows to holdings. A test program.
//
// It prints a list as its answer's code and value and then eight rows, on one line, and a tally as its six counts, hits, joins, admitted, revived,
// drops and refused, a line each. Why `stdout` says what it says is in the comments of `count` and `list`.
#![tactic(auto)]

ghost use Rattle.std.specs.Prelude.{◌≤◌};
ghost use Rattle.pool.specs.Limits.{max_held};

use std::io;
use storeless::Tally;
use test_support::{ShownList, State};

/// The client's holdings.
fn print_holdings(rt: &impl Print, state: &State, client: u8) -> io::Result<()> {
    println!(rt; "{}", ShownList(state.holdings(client)))
}

/// The client's holdings on the first `room` rows.
fn print_on_first(rt: &impl Print, state: &State, client: u8, room: usize) -> io::Result<()>
    requires { room ≤ max_held }
{
    println!(rt; "{}", ShownList(state.holdings_on_first(client, room)))
}

fn print_tally(rt: &impl Print, state: &State) -> io::Result<()> {
    let Tally {
        hits,
        joins,
        admitted,
        revived,
        drops,
        refused,
    } = state.tally;
    println!(rt; "{hits}\n{joins}\n{admitted}\n{revived}\n{drops}\n{refused}")
}

/// The tally, and with it lists of one page and of two.
fn count(rt: &impl Print) -> io::Result<()> {
    // S 2, T 2, C 3.
    let mut state = State::set_up(2, 2, 3, 0);

    // Case P5 (SPECIFICATION, section 12). Client 0 does stages 1, 4 to 9, 18; client 1 does 1, 4, 5, 6, 5 (free is no more what it read), 6 to 9, 18
    // to 21. The five steps more of client 0 are turned down by 11 and count nothing. Admitted 1, joins 1.
    state.begin(0, 9);
    state.begin(1, 9);
    for _ in 0..13 {
        state.step(0);
        state.step(1);
    }

    // Client 0 holds page 9: its begin is refused by 18, the steps after it by 11, and nothing is counted. It releases the page and has it again, by
    // stages 1 to 3, two times. Hits 2.
    state.request(0, 9, 3);
    state.release(0, 9);
    state.request(0, 9, 3);
    state.release(0, 9);
    state.request(0, 9, 3);

    // Slot 0 has the held frame 0, slot 1 the evicted frame 1: stages 1, 4, 5, 10, 11, 12 (busy), 11, 12, 15 to 18. Admitted 2.
    state.request(0, 5, 12);

    // Both slots have held frames: stages 1, 4, 5, 10, 11, 12 (busy), 11, 12 (busy, the second of two: refusal 15). Refused 1.
    state.request(1, 7, 8);

    // Client 0 holds 9 and 5, which was granted last; client 1 holds 9. There is no client 2: refusal 9, and no row.
    print_holdings(rt, &state, 0)?;
    print_holdings(rt, &state, 1)?;
    print_holdings(rt, &state, 2)?;
    print_tally(rt, &state)?;

    // Page 5 is not held any more, its count is 1: stages 1, 4, 5, 10, 11, 12 (busy), 11 to 18. At 17 page 5 goes: drops 1; admitted 3.
    state.release(0, 5);
    state.request(1, 7, 14);

    // Nothing is held any more. Page 9 has the count 3, page 7 the count 1.
    state.release(0, 9);
    state.release(1, 9);
    state.release(1, 7);

    // As case P6: client 0 swaps 7 out for 5 by stages 1, 4, 5, 10 to 13, 11 to 16, and stands at 17: page 7 is evicted, and no drop yet. Client 1
    // wants 7: stages 1, 2, 4, 5, 10 to 13 (page 9's count is 1 now), 11, 12 (busy), 11 to 17 (9 goes), 18, 19, 22. Drops 2, revived 1. Client 0's 17
    // then removes nothing, which is no drop, and it is granted at 18. Admitted 4.
    state.request(0, 5, 13);
    state.request(1, 7, 20);
    state.steps(0, 2);

    // Client 0 holds 5, client 1 holds 7: two pages are in the table, and by SPECIFICATION 7.4 there are 4 - 2.
    print_holdings(rt, &state, 0)?;
    print_holdings(rt, &state, 1)?;
    print_tally(rt, &state)
}

/// Rows by rising page number, in whichever order the pages were granted (SPECIFICATION 8.1).
fn list(rt: &impl Print) -> io::Result<()> {
    // S 8, T 2, C 3. Client 0 gets the largest of all page numbers first, then 0 and 7, each into an empty slot (stages 1, 4 to 9, 18); to begin 7 once
    // more is refused by 18. Client 1 gets the same three by hits, in another order.
    let mut state = State::set_up(8, 2, 3, 0);
    state.request(0, 4294967295, 8);
    state.request(0, 0, 8);
    state.request(0, 7, 8);
    state.request(0, 7, 3);
    state.request(1, 7, 3);
    state.request(1, 4294967295, 3);
    state.request(1, 0, 3);
    print_holdings(rt, &state, 0)?;
    print_holdings(rt, &state, 1)?;

    // Three rows are enough; two are not: refusal 14, and they stay as they were.
    print_on_first(rt, &state, 0, 3)?;
    print_on_first(rt, &state, 0, 2)?;

    // Without 7, which one release ends, two rows are enough. A client that works may be asked, too.
    state.release(0, 7);
    print_holdings(rt, &state, 0)?;
    state.begin(0, 5);
    print_on_first(rt, &state, 0, 2)?;

    // Five more pages for client 1, falling: eight rows, and not one fewer is enough.
    for page in (2..7).rev() {
        state.request(1, page, 8);
    }
    print_holdings(rt, &state, 1)?;
    print_on_first(rt, &state, 1, 7)?;

    // Client 0 once more, on rows that say nothing.
    println!(rt; "{}", ShownList(storeless::holdings_of(state.pool, 0)))
}

fn main(rt: HostRuntime) -> io::Result<()> {
    count(&rt)?;
    list(&rt)
}
