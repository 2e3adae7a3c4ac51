// The run of a schedule (SPECIFICATION, section 10): its first record sets the pool up, each later one is a call of it, and each writes one line of
// the report. Public, through crates `foqheran` and `storeless`; the modules are internal.
//
// Here are the two checks before the first record, and that record; the calls after it are `run_loop`'s. Check 8 is made of the setup alone.
#![tactic(auto)]

ghost use Rattle.std.specs.Prelude.{◌≡◌};
ghost use Rattle.pool.specs.Schedule.{end_of, report_of};

pub mod lines;
pub mod records;
pub mod run_loop;

use answers::Refusal;
use lines::{LINE, Report};
use pool::{Answer, Ended};

/// The bytes of the longest file that is played (refusal 1).
const LONGEST: usize = 16384;

/// The run of a whole schedule, its report written at the start of the space that is lent.
pub fn run(schedule: &[u8], report: &mut [u8]) -> Ended
    ensures { (result ≡ end_of schedule.now report.old)
        × (report.new ≡ report_of schedule.now report.old) }
{
    let mut report = Report {
        space: report,
        records: 0,
        bytes: 0,
    };
    if schedule.len() > LONGEST {
        return report.end(Err(Refusal::TooLong));
    }
    if report.left() < LINE {
        return report.end(Err(Refusal::ReportFull));
    }
    let (size, client_count, cap, hand) = match records::setup(schedule) {
        Ok(numbers) => numbers,
        Err(refusal) => return report.stop(refusal),
    };
    let made = calls::setup(size, client_count, cap, hand);
    let Answer::Done(_) = made.answer else {
        return report.stop(Refusal::OutOfRange);
    };
    report.answer(0, made.answer);
    let Report { space, bytes, .. } = report;
    run_loop::run_calls(schedule, space, made.pool, bytes)
}
