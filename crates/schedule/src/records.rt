// Reading one record at the start of the schedule bytes that are left: SPECIFICATION 9.1 and 9.2.

ghost use Rattle.std.specs.Prelude.{◌≡◌, ◌+◌, ◌≤◌, Bool, true, false, length, IfOk, IfErr};
ghost use Rattle.pool.specs.Answers.{unread_of};
ghost use Rattle.answers.specs.Among.{Among};
ghost use Rattle.answers.specs.Numbers.{refusal_number};
ghost use Rattle.answers.specs.Refusals.{by_record};
ghost use Rattle.pool.specs.Schedule.{byte, number, cut, marked, read};
ghost use Rattle.pool.specs.declared.Reading.TheVariants.{Setup, Asked, Unreadable};
ghost use Rattle.schedule.specs.Reads.{kind_number, Numbered};

use answers::Refusal;
use pool::{Call, Reading};

/// SPECIFICATION 9.1: each record begins with it.
const MARK: [u8; 2] = *b"FC";

/// What a record stands for: SPECIFICATION 9.1, each with its byte there.
#[derive(Clone, Copy, Debug, PartialEq, Eq)]
enum Kind {
    Setup = 0,
    Begin = 1,
    Step = 2,
    Release = 3,
}

impl TryFrom<u8> for Kind {
    type Error = Refusal;

    ghost try_from_gives = { Numbered };

    fn try_from(byte: u8) -> Result<Kind, Refusal> {
        match byte {
            0 => Ok(Kind::Setup),
            1 => Ok(Kind::Begin),
            2 => Ok(Kind::Step),
            3 => Ok(Kind::Release),
            _ => Err(Refusal::NoSuchKind),
        }
    }
}

/// The number in the four bytes from i on, the lowest byte first.
#[tactic(auto, unfolding(pool::specs::Schedule::number))]
fn number(rest: &[u8], i: usize) -> u32
    requires { i + 4 ≤ length rest.now }
    ensures { result ≡ number rest.now i }
{
    u32::from_le_bytes([rest[i], rest[i + 1], rest[i + 2], rest[i + 3]])
}

/// Refusal 3. It comes before the mark, so the third byte need not be a kind.
#[tactic(auto, unfolding(pool::specs::Schedule::cut, pool::specs::Choose::both, pool::specs::Choose::either, pool::specs::Choose::choose))]
fn is_cut(rest: &[u8]) -> bool
    ensures { result ≡ cut rest.now }
{
    rest.len() < 8 || rest.len() < 10 && rest[2] == Kind::Setup as u8
}

/// Whether the record begins with the mark.
#[tactic(auto, unfolding(pool::specs::Schedule::marked, pool::specs::Choose::both, pool::specs::Choose::choose))]
fn is_marked(rest: &[u8]) -> bool
    requires { 2 ≤ length rest.now }
    ensures { result ≡ marked rest.now }
{
    rest.starts_with(&MARK)
}

/// The kind of the record: the checks 3, 4 and 5 in the order of SPECIFICATION 9.2.
#[tactic(auto, unfolding(pool::specs::Schedule::read, pool::specs::Schedule::cut, pool::specs::Choose::both, pool::specs::Choose::either, pool::specs::Choose::choose))]
fn kind_of(rest: &[u8]) -> Result<Kind, Refusal>
    ensures read { IfOk result (λ kind. (cut rest.now ≡ false) × (marked rest.now ≡ true) × (byte rest.now 2 ≡ kind_number kind)) }
    ensures whole { IfOk result (λ kind. 8 ≤ length rest.now) }
    ensures setup_whole { IfOk result (λ kind. kind_number kind ≡ 0 → 10 ≤ length rest.now) }
    ensures refused { IfErr result (λ refusal. (first : Bool) → read first rest.now ≡ Unreadable (refusal_number refusal)) }
    ensures among { IfErr result (λ refusal. Among by_record (refusal_number refusal)) }
{
    if is_cut(rest) {
        return Err(Refusal::Cut);
    }
    if !is_marked(rest) {
        return Err(Refusal::NoMark);
    }
    Kind::try_from(rest[2])
}

/// The first record, a setup's numbers, or why it cannot be read.
#[tactic(auto, unfolding(pool::specs::Schedule::read, pool::specs::Schedule::content, pool::specs::Choose::choose))]
pub(crate) fn setup(rest: &[u8]) -> Result<(u8, u8, u8, u32), Refusal>
    ensures value { IfOk result (λ s. read true rest.now ≡ Setup s.0 s.1 s.2 s.3) }
    ensures refused { IfErr result (λ refusal. read true rest.now ≡ Unreadable (refusal_number refusal)) }
    ensures among { IfErr result (λ refusal. Among by_record (refusal_number refusal)) }
{
    match kind_of(rest)? {
        Kind::Setup => Ok((rest[3], rest[4], rest[5], number(rest, 6))),
        Kind::Begin | Kind::Step | Kind::Release => Err(Refusal::SetupMisplaced),
    }
}

/// A later record, a call, or why it cannot be read.
#[tactic(auto, unfolding(pool::specs::Schedule::read, pool::specs::Schedule::content, pool::specs::Choose::choose))]
pub(crate) fn call(rest: &[u8]) -> Result<Call, Refusal>
    ensures value { IfOk result (λ call. read false rest.now ≡ Asked call) }
    ensures refused { IfErr result (λ refusal. read false rest.now ≡ Unreadable (refusal_number refusal)) }
    ensures among { IfErr result (λ refusal. Among by_record (refusal_number refusal)) }
{
    let kind = kind_of(rest)?;
    let client = rest[3];
    let page = number(rest, 4);
    match kind {
        Kind::Setup => Err(Refusal::SetupMisplaced),
        Kind::Begin => Ok(Call::Begin(client, page)),
        Kind::Release => Ok(Call::Release(client, page)),
        Kind::Step if page == 0 => Ok(Call::Step(client)),
        Kind::Step => Err(Refusal::StepNamesPage),
    }
}

/// The record at the start of `rest`, the schedule bytes that are left; `first` says whether it is the schedule's first. `Reading` has a refusal by
/// its number: the public type, and what crate `pool` defines as read. (What may not change: `Reading::Unreadable(u8)`, `read` of `pool`.)
#[tactic(auto, unfolding(pool::specs::Answers::unread_of))]
pub fn read(rest: &[u8], first: bool) -> Reading
    ensures value { result ≡ read first rest.now }
    ensures among { Among by_record (unread_of result) }
{
    if first {
        match setup(rest) {
            Ok((size, client_count, cap, hand)) => Reading::Setup(size, client_count, cap, hand),
            Err(refusal) => Reading::Unreadable(refusal.number()),
        }
    } else {
        match call(rest) {
            Ok(call) => Reading::Asked(call),
            Err(refusal) => Reading::Unreadable(refusal.number()),
        }
    }
}
