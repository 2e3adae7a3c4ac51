// The run for Rust and C to call: slices and numbers only. Public: for programs in other languages, to which crate `exported_c` exports it.
#![tactic(auto)]

ghost use Rattle.std.specs.Prelude.{◌≡◌};
ghost use Rattle.pool.specs.Schedule.{end_of, report_of};

/// The run of a schedule. Of the three numbers of SPECIFICATION 10.4 it returns the bytes, and stores the records and the refusal where they are lent.
pub fn replay_run(schedule: &[u8], report: &mut [u8], records: &mut u64, refusal: &mut u8) -> usize
    ensures { (result ≡ (end_of schedule.now report.old).bytes)
        × (records.new ≡ (end_of schedule.now report.old).records)
        × (refusal.new ≡ (end_of schedule.now report.old).refusal)
        × (report.new ≡ report_of schedule.now report.old) }
{
    let ended = schedule::run(schedule, report);
    *records = u64::from(ended.records);
    *refusal = ended.refusal;
    ended.bytes
}
