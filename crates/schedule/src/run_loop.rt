// The run's loop: the calls of a schedule after its setup, each played on the pool where it lies.
//
// The pool lies in one place for the whole run, and every record changes it there. Check 8 is not made here: no pool of a run meets it (SPECIFICATION
// 3.8), so a record's turn is `call_of`, which makes check 8 before and after the action, without the test.
//
// `place` is the byte of the schedule at which the next record starts. It is counted here, and the schedule is not taken in `chunks(8)`: a record is read
// from all bytes that are left, as a setup that is misplaced is refused by 3 where less than its ten bytes are left, and else by 6 (SPECIFICATION 9.2).
// A slice that gets shorter by 8 would be no plainer: the definition `rest` and the loop's invariant go by the place. Each end of the run is a
// `return` inside the loop: after a loop the proof no longer has that `report` lends the space that the run was lent. (Tried: the proof did not close
// with `while` and the ordinary end after it.)

ghost use Rattle.std.specs.Prelude.{◌≡◌, ◌≢◌, ◌-◌, ◌≤◌, true, length};
ghost use Rattle.pool.specs.Apply.{apply};
ghost use Rattle.pool.specs.Valid.{valid};
ghost use Rattle.pool.specs.Calls.{SetUp, caller, turned_by, move_of};
ghost use Rattle.pool.specs.declared.Answer.TheVariants.{Refused};
ghost use Rattle.schedule.specs.Numbers.{SameNumbers};
ghost use Rattle.schedule.specs.Rest.{end_after, report_after, rest};

use crate::lines::{LINE, Report};
use crate::records;
use answers::Refusal;
use books::{Checked, Numbers};
use pool::{Answer, Call, Ended, Pool};

/// A call, played on the pool where it lies, with no check 8 after it.
#[tactic(auto, unfolding(pool::specs::Apply::apply))]
fn perform(pool: &mut Pool, numbers: Numbers, call: Call) -> Answer
    requires size { numbers.size ≡ pool.old.size }
    requires client_count { numbers.client_count ≡ pool.old.client_count }
    requires cap { numbers.cap ≡ pool.old.cap }
    requires valid { valid pool.old ≡ true }
    ensures moved { turned_by pool.old call ≡ 0 →
        (result ≡ (move_of pool.old call).answer) × (pool.new ≡ apply pool.old (caller call) (move_of pool.old call)) }
    ensures numbers { SameNumbers pool.old pool.new }
    ensures turned { turned_by pool.old call ≢ 0 → (result ≡ Refused (turned_by pool.old call)) × (pool.new ≡ pool.old) }
{
    let turn = play::turn(
        &Checked {
            pool: &*pool,
            numbers,
        },
        call,
    );
    match turn {
        Ok(turn) => {
            let c = answers::caller(call) as usize;
            play::put(pool, numbers.into(), c, &turn);
            turn.answer
        }
        Err(refusal) => refusal.into(),
    }
}

/// The calls after the setup, which left the pool `first` and whose line takes the first `start` bytes of the report space.
pub fn run_calls(schedule: &[u8], report: &mut [u8], first: Pool, start: usize) -> Ended
    requires set_up { SetUp first }
    requires in_bounds { (10 ≤ length schedule.now) × (length schedule.now ≤ 16384) × (start ≤ length report.old) }
    ensures { (result ≡ end_after start (rest schedule.now first 1 10 (length report.old - start)))
        × (report.new
        ≡ report_after start (rest schedule.now first 1 10 (length report.old - start)) report.old) }
{
    let mut pool = first;
    let numbers = Numbers {
        size: pool.size,
        client_count: pool.client_count,
        cap: pool.cap,
    };
    let mut place = 10;
    let mut report = Report {
        space: report,
        records: 1,
        bytes: start,
    };
    loop {
        if place >= schedule.len() {
            return report.end(Ok(()));
        }
        if report.left() < LINE {
            return report.end(Err(Refusal::ReportFull));
        }
        let call = match records::call(&schedule[place..]) {
            Ok(call) => call,
            Err(refusal) => return report.stop(refusal),
        };
        place += 8;
        let caller = answers::caller(call);
        let answer = perform(&mut pool, numbers, call);
        report.answer(caller, answer);
    }
}
