// Plays calls and prints for each the line that a report would have (SPECIFICATION 10.2). A test program.
//
// First come three setups, expected from what `setup` promises, without a line. Then three parts that print: a client that has eight grants and
// begins once more; the case P6 (SPECIFICATION, section 12), where a page is revived; and 600 mixed calls, where a fixed sequence of numbers says the
// kind, the client and the page of each. After a part come facts of its last pool.
#![tactic(auto)]

ghost use Rattle.std.specs.Prelude.{◌≡◌};
ghost use Rattle.pool.specs.Answers.{refusal_of};
ghost use Rattle.pool.specs.Calls.{setup_of};

use answers::{Refusal, Stage};
use pool::{Answer, Call, NONE, Pool, Tally};
use std::io;
use test_support::Shown;

/// A run so far.
#[derive(Clone, Copy, Debug, PartialEq, Eq)]
struct Run {
    pool: Pool,
    tally: Tally,
    /// The next record's number.
    at: u32,
    /// The last answer.
    answer: Answer,
    /// How many calls were turned down and changed the pool all the same.
    changed: u32,
}

/// Whether a refusal that leaves everything as it was (SPECIFICATION 3.10) changed the pool. Refusal 15 is none of these (3.9).
fn breaks(answer: Answer, before: &Pool, after: &Pool) -> bool {
    let turned_down = matches!(answer, Answer::Refused(n) if n != Refusal::AllBusy.number());
    turned_down && before != after
}

impl Run {
    /// A setup, whose line is printed.
    fn start(rt: &impl Print, size: u8, client_count: u8, cap: u8, hand: u32) -> io::Result<Run> {
        let done = calls::setup(size, client_count, cap, hand);
        println!(rt; "0 0 {}", Shown(done.answer))?;
        Ok(Run {
            pool: done.pool,
            tally: Tally::default(),
            at: 1,
            answer: done.answer,
            changed: 0,
        })
    }

    /// A call, whose line is printed.
    fn play(&mut self, rt: &impl Print, call: Call) -> io::Result<()> {
        let before = self.pool;
        (self.answer, self.pool) = match call {
            Call::Begin(client, page) => {
                let done = calls::begin(before, client, page);
                (done.answer, done.pool)
            }
            Call::Release(client, page) => {
                let done = calls::release(before, client, page);
                (done.answer, done.pool)
            }
            Call::Step(client) => {
                let done = calls::step_tallied(before, client, self.tally);
                self.tally = done.tally;
                (done.answer, done.pool)
            }
        };
        if breaks(self.answer, &before, &self.pool) {
            self.changed = self.changed.saturating_add(1);
        }
        println!(rt;
            "{} {} {}",
            self.at,
            answers::caller(call),
            Shown(self.answer)
        )?;
        self.at = self.at.saturating_add(1);
        Ok(())
    }

    /// A begin, and steps until the client stands at the stage, is granted or is refused.
    fn request_to(
        &mut self,
        rt: &impl Print,
        client: u8,
        page: u32,
        stage: Option<Stage>,
    ) -> io::Result<()> {
        self.play(rt, Call::Begin(client, page))?;
        for _ in 0..60 {
            match self.answer {
                Answer::Granted(_) | Answer::Refused(_) => break,
                Answer::Working(at) if Some(at) == stage.map(Stage::number) => break,
                _ => self.play(rt, Call::Step(client))?,
            }
        }
        Ok(())
    }

    /// A begin, and steps until the client is granted or is refused.
    fn request(&mut self, rt: &impl Print, client: u8, page: u32) -> io::Result<()> {
        self.request_to(rt, client, page, None)
    }

    fn print_facts(&self, rt: &impl Print) -> io::Result<()> {
        let Tally {
            hits,
            joins,
            admitted,
            revived,
            drops,
            refused,
        } = self.tally;
        println!(rt;
            "# places that map a page twice: {}",
            mapped_twice(&self.pool)
        )?;
        println!(rt;
            "# calls turned down that changed the pool: {}",
            self.changed
        )?;
        println!(rt; "# hits: {hits}")?;
        println!(rt; "# joins: {joins}")?;
        println!(rt; "# admitted: {admitted}")?;
        println!(rt; "# revived: {revived}")?;
        println!(rt; "# drops: {drops}")?;
        println!(rt; "# refused: {refused}")?;
        println!(rt; "# pages in the table: {}", pages_in_table(&self.pool))
    }
}

// ---- facts of a pool

/// How many places of the table map the page.
fn places_of(pool: &Pool, page: u32) -> usize {
    let entries = pool.table_pages.iter().zip(&pool.table_frames);
    entries
        .filter(|&(mapped, frame)| *mapped == page && *frame != NONE)
        .count()
}

/// How many places of the table map a page that another one maps, too.
fn mapped_twice(pool: &Pool) -> usize {
    let entries = pool.table_pages.iter().zip(&pool.table_frames);
    entries
        .filter(|&(page, frame)| *frame != NONE && places_of(pool, *page) > 1)
        .count()
}

/// How many pages are in the table. By SPECIFICATION 7.4 they are as many as were admitted and not dropped.
fn pages_in_table(pool: &Pool) -> usize {
    pool.table_frames
        .iter()
        .filter(|&&frame| frame != NONE)
        .count()
}

// ---- the parts

/// Eight grants are given, and the next begin is refused by 12. Then one grant ends, that of an index page, and the ninth page takes its slot when the
/// sweep comes by for the third time.
fn nine_grants(rt: &impl Print) -> io::Result<()> {
    let mut run = Run::start(rt, 8, 1, 3, 0)?;
    for page in 1..10 {
        run.request(rt, 0, page)?;
    }
    run.play(rt, Call::Step(0))?;
    run.play(rt, Call::Release(0, 9))?;
    run.play(rt, Call::Release(0, 1))?;
    run.request(rt, 0, 9)?;
    run.print_facts(rt)
}

/// Case P6.
fn revived_page(rt: &impl Print) -> io::Result<()> {
    let mut run = Run::start(rt, 2, 2, 3, 0)?;
    run.request(rt, 0, 9)?;
    run.request(rt, 0, 5)?;
    run.play(rt, Call::Release(0, 9))?;
    run.play(rt, Call::Release(0, 5))?;
    run.request_to(rt, 0, 7, Some(Stage::RemoveEntry))?;
    run.request(rt, 1, 9)?;
    run.play(rt, Call::Step(0))?;
    run.play(rt, Call::Step(0))?;
    run.print_facts(rt)
}

fn next_seed(seed: u32) -> u32 {
    seed.wrapping_mul(1103515245).wrapping_add(12345)
}

/// The call that a number of the sequence says: of 16, three begin, two release and the others step. Client 3, which is T, comes up once in 16. Pages
/// are 0 to 5, of which the first four are index pages.
fn call_by(seed: u32) -> Call {
    let client = (seed / 65536 % 16 / 5) as u8;
    let page = seed / 16777216 % 6;
    match seed / 1048576 % 16 {
        0..=2 => Call::Begin(client, page),
        3 | 4 => Call::Release(client, page),
        _ => Call::Step(client),
    }
}

fn mixed_calls(rt: &impl Print) -> io::Result<()> {
    let mut run = Run::start(rt, 4, 3, 2, 4294967295)?;
    let mut seed = 5;
    for _ in 0..600 {
        seed = next_seed(seed);
        run.play(rt, call_by(seed))?;
    }
    run.print_facts(rt)
}

/// The refusal of a setup, 0 for one that is done.
fn setup_refusal(size: u8, client_count: u8, cap: u8) -> u8
    ensures { result ≡ refusal_of (setup_of size client_count cap 0).answer }
{
    answers::refusal_of(calls::setup(size, client_count, cap, 0).answer)
}

/// Three of case P8's setups, expected from the promise of `setup` alone.
#[tactic(auto, unfolding(pool::specs::Calls::setup_of, pool::specs::Valid::numbers_ok, pool::specs::Choose::both, pool::specs::Choose::choose, pool::specs::Answers::refusal_of))]
fn setup_ranges() {
    let largest = setup_refusal(64, 16, 100);
    prove!(largest == 0);
    let larger = setup_refusal(65, 16, 100);
    prove!(larger == 8);
    let above = setup_refusal(64, 16, 101);
    prove!(above == 8);
}

fn main(rt: HostRuntime) -> io::Result<()> {
    setup_ranges();
    nine_grants(&rt)?;
    revived_page(&rt)?;
    mixed_calls(&rt)
}
