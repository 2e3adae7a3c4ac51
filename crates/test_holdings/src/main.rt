// Plays the schedule on standard input through the public calls, and after each call asks for the holdings of the client that made it: on no row, on
// one, and so on up to eight, and round again. A test program: `tests/compare.py` compares what it prints with the second program's lists.
//
// It prints a list for each call of the schedule, as its answer's code and value and then eight rows, on one line; and nothing for a schedule that
// is too long or has no setup that is done.
#![tactic(auto)]

use pool::{Answer, Call, HELD, Reading};
use std::io;
use test_support::{ShownList, State};

/// The longest schedule, in bytes; what a setup takes of them, and each call.
const LONGEST: usize = 16384;

const SETUP: usize = 10;

const CALL: usize = 8;

fn play_call(state: &mut State, call: Call) {
    match call {
        Call::Begin(client, page) => state.begin(client, page),
        Call::Step(client) => state.step(client),
        Call::Release(client, page) => state.release(client, page),
    }
}

/// The calls after the setup, up to a record that cannot be read.
fn play_calls(rt: &impl Print, calls: &[u8], mut state: State) -> io::Result<()> {
    for (i, record) in calls.chunks(CALL).enumerate() {
        let Reading::Asked(call) = schedule::records::read(record, false) else {
            break;
        };
        play_call(&mut state, call);
        let listed = state.holdings_on_first(answers::caller(call), i % (HELD + 1));
        println!(rt; "{}", ShownList(listed))?;
    }
    Ok(())
}

fn play(rt: &impl Print, schedule: &[u8]) -> io::Result<()> {
    let Reading::Setup(size, client_count, cap, hand) = schedule::records::read(schedule, true)
    else {
        return Ok(());
    };
    let done = storeless::setup(size, client_count, cap, hand);
    match (done.answer, schedule.get(SETUP..)) {
        (Answer::Done(_), Some(calls)) => play_calls(rt, calls, State::new(done.pool)),
        _ => Ok(()),
    }
}

fn main(rt: HostRuntime) -> io::Result<()> {
    let mut schedule = [0u8; LONGEST + 1];
    let read = input::read_full(&mut rt.stdin(), &mut schedule)?;
    if read <= LONGEST {
        play(&rt, &schedule[..read])?;
    }
    Ok(())
}
