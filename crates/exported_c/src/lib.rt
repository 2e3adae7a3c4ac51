// The run of a schedule, exported for C and Rust: the function of its name in crate `exported`, with its promise. Public: for programs in other languages.
// A crate is a library or a static library, and theorems name the functions of a library: so it stands twice.
#![tactic(auto)]

ghost use Rattle.std.specs.Prelude.{◌≡◌};
ghost use Rattle.pool.specs.Schedule.{end_of, report_of};

#[unsafe(no_mangle)]
pub extern "C" fn replay_run(
    schedule: &[u8],
    report: &mut [u8],
    records: &mut u64,
    refusal: &mut u8,
) -> usize
    ensures { (result ≡ (end_of schedule.now report.old).bytes)
        × (records.new ≡ (end_of schedule.now report.old).records)
        × (refusal.new ≡ (end_of schedule.now report.old).refusal)
        × (report.new ≡ report_of schedule.now report.old) }
{
    exported::replay_run(schedule, report, records, refusal)
}
