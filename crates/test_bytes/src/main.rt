// Plays the script on standard input on a pool that has bytes, through its calls by value, and prints the report. A test program: `tests/compare.py`
// translates scripts to what this reads, and compares the reports with the second program's, `tests/second_store.py`.
//
// A script is records of 12 bytes, 682 at most: a kind, a client, a byte, one byte more, then two numbers of four bytes, lowest byte first, a page
// and an offset. What does not take a number has 0 there. The kinds:
//
//     0 setup     S is the client, T the byte, C the byte after it, the hand the page, the store's length the offset; the first record, and no other
//     1 begin
//     2 step
//     3 release
//     4 read
//     5 write
//     6 lend      the number of bytes is the page
//     7 dump
//     8 tally     the number is the page
//
// The store is the front of one space of 16,512 bytes: as long as at setup, until a lend says how long. One tally goes through all steps, zero at setup;
// from a tally on it is another, all of whose counts are that number. Every call gives a line, its answer's code and value; a lend and a tally give
// none. A dump gives a line for each frame (its number, whether it is filled, whether it is changed, its bytes), then the space in lines of 64 bytes, as
// far as the store went at setup, one line at least; then the tally, and the clients' holdings (`print_list`). A setup that is refused ends the
// report.
#![tactic(auto)]

use memory::{BufferPool, PAGE, Reply};
use pool::{Answer, HELD, Listed, Row, Tally};
use std::{array, fmt, io};
use test_support::Shown;

// ---- what is printed

/// Bytes as they are printed, two digits each.
#[derive(Clone, Copy)]
struct Hex<'a>(&'a [u8]);

impl fmt::Display for Hex<'_> {
    fn fmt<W: fmt::Write>(&self, f: &mut fmt::Formatter<W>) -> fmt::Result {
        for byte in self.0 {
            write!(f, "{byte:02x}")?;
        }
        Ok(())
    }
}

/// A row that no client has: nothing is held 77 times.
const UNUSED: Row = Row {
    page: 77,
    times: 77,
};

/// A row as it is printed: a page and the number of its grants, or a point for one that is as it was.
#[derive(Clone, Copy)]
struct ShownRow(Row);

impl fmt::Display for ShownRow {
    fn fmt<W: fmt::Write>(&self, f: &mut fmt::Formatter<W>) -> fmt::Result {
        if self.0 == UNUSED {
            f.write_str(".")
        } else {
            write!(f, "{}x{}", self.0.page, self.0.times)
        }
    }
}

/// Whom it is about, on how many rows it was asked, the answer, and what it leaves of eight rows.
fn print_list(rt: &impl Print, client: u8, room: usize, listed: &Listed) -> io::Result<()> {
    print!(rt; "holds {client} {room} {}", Shown(listed.answer))?;
    for row in &listed.rows {
        print!(rt; " {}", ShownRow(*row))?;
    }
    println!(rt)
}

// ---- the script

/// A record as its bytes have it.
#[derive(Clone, Copy, Debug, PartialEq, Eq)]
struct Fields {
    kind: u8,
    client: u8,
    byte: u8,
    more: u8,
    page: u32,
    offset: u32,
}

impl From<[u8; 12]> for Fields {
    fn from(bytes: [u8; 12]) -> Fields {
        let [kind, client, byte, more, p0, p1, p2, p3, o0, o1, o2, o3] = bytes;
        Fields {
            kind,
            client,
            byte,
            more,
            page: u32::from_le_bytes([p0, p1, p2, p3]),
            offset: u32::from_le_bytes([o0, o1, o2, o3]),
        }
    }
}

/// A call: its client, then its page, offset and byte, where it takes them.
#[derive(Clone, Copy, Debug, PartialEq, Eq)]
enum Call {
    Begin(u8, u32),
    Step(u8),
    Release(u8, u32),
    Read(u8, u32, u32),
    Write(u8, u32, u32, u8),
}

/// A record after the first.
#[derive(Clone, Copy, Debug, PartialEq, Eq)]
enum Record {
    Asks(Call),
    /// From here on the store has so many bytes.
    Lends(usize),
    Dumps,
    /// From here on the tally is one all of whose counts are this number.
    Counts(u32),
}

impl From<Fields> for Record {
    /// What is no other kind is a write.
    fn from(fields: Fields) -> Record {
        let Fields {
            kind,
            client,
            byte,
            page,
            offset,
            ..
        } = fields;
        match kind {
            1 => Record::Asks(Call::Begin(client, page)),
            2 => Record::Asks(Call::Step(client)),
            3 => Record::Asks(Call::Release(client, page)),
            4 => Record::Asks(Call::Read(client, page, offset)),
            6 => Record::Lends(page as usize),
            7 => Record::Dumps,
            8 => Record::Counts(page),
            _ => Record::Asks(Call::Write(client, page, offset, byte)),
        }
    }
}

// ---- what it plays on

/// The pool, and what is lent to its calls: one tally, and as the store the front of the space.
#[derive(Drop)]
struct State<'a> {
    pool: BufferPool,
    tally: Tally,
    space: &'a mut [u8],
    /// How many bytes the store has.
    lent: usize,
}

impl State<'_> {
    fn play(&mut self, rt: &impl Print, record: Record) -> io::Result<()> {
        match record {
            Record::Asks(call) => {
                if let Some(answer) = self.call(call) {
                    println!(rt; "{}", Shown(answer))?;
                }
            }
            Record::Lends(bytes) => self.lent = bytes,
            Record::Dumps => self.dump(rt)?,
            Record::Counts(n) => {
                self.tally = Tally {
                    hits: n,
                    joins: n,
                    admitted: n,
                    revived: n,
                    drops: n,
                    refused: n,
                };
            }
        }
        Ok(())
    }

    /// What a call answers; none is made where the space is shorter than the store is to be.
    fn call(&mut self, call: Call) -> Option<Answer> {
        let store = self.space.get_mut(..self.lent)?;
        let reply = match call {
            Call::Begin(client, page) => buffered::begin(self.pool, client, page),
            Call::Step(client) => {
                let stepped = byte_step::step_tallied(self.pool, client, self.tally, store);
                self.tally = stepped.tally;
                Reply {
                    answer: stepped.answer,
                    pool: stepped.pool,
                }
            }
            Call::Release(client, page) => buffered::release(self.pool, client, page),
            Call::Read(client, page, offset) => byte_calls::read(
                self.pool, client, page, offset, store,
            ),
            Call::Write(client, page, offset, byte) => byte_calls::write(
                self.pool, client, page, offset, byte, store,
            ),
        };
        self.pool = reply.pool;
        Some(reply.answer)
    }

    fn dump(&self, rt: &impl Print) -> io::Result<()> {
        let books = &self.pool.pool;
        let memory = &self.pool.memory;
        let frames = usize::from(books.size) + 2 * usize::from(books.client_count);
        let marks = memory.filled.iter().zip(&memory.changed);
        for (f, (bytes, (filled, changed))) in memory
            .bytes
            .chunks_exact(PAGE)
            .zip(marks)
            .enumerate()
            .take(frames)
        {
            println!(rt;
                "{f} {} {} {}",
                u8::from(*filled != 0),
                u8::from(*changed != 0),
                Hex(bytes)
            )?;
        }
        for bytes in self
            .space
            .chunks_exact(PAGE)
            .take(usize::from(memory.pages.max(1)))
        {
            println!(rt; "- {}", Hex(bytes))?;
        }
        let Tally {
            hits,
            joins,
            admitted,
            revived,
            drops,
            refused,
        } = self.tally;
        println!(rt; "tally {hits} {joins} {admitted} {revived} {drops} {refused}")?;
        // The last client is one too many.
        for client in 0..=books.client_count {
            self.print_holdings(rt, client)?;
        }
        Ok(())
    }

    /// The client's holdings on eight rows, on exactly enough, and on one too few if it needs any.
    fn print_holdings(&self, rt: &impl Print, client: u8) -> io::Result<()> {
        let listed = byte_holdings::holdings_on(self.pool, client, [UNUSED; HELD]);
        print_list(rt, client, HELD, &listed)?;
        let needed = answers::value_of(listed.answer) as usize;
        self.print_on_first(rt, client, needed)?;
        if needed > 0 {
            self.print_on_first(rt, client, needed - 1)?;
        }
        Ok(())
    }

    /// The client's holdings on so many rows, if there are so many.
    fn print_on_first(&self, rt: &impl Print, client: u8, room: usize) -> io::Result<()> {
        if room <= HELD {
            let listed = byte_holdings::on_first(self.pool, client, [UNUSED; HELD], room);
            print_list(rt, client, room, &listed)?;
        }
        Ok(())
    }
}

fn play(rt: &impl Print, script: &[u8], space: &mut [u8]) -> io::Result<()> {
    let (records, _) = script.as_chunks::<12>();
    let Some((first, rest)) = records.split_first() else {
        return Ok(());
    };
    let setup = Fields::from(*first);
    let lent = setup.offset as usize;
    let Some(store) = space.get(..lent) else {
        return Ok(());
    };
    let done = buffered::setup(setup.client, setup.byte, setup.more, setup.page, store);
    println!(rt; "{}", Shown(done.answer))?;
    if answers::refusal_of(done.answer) != 0 {
        return Ok(());
    }
    let mut state = State {
        pool: done.pool,
        tally: Tally::default(),
        space,
        lent,
    };
    for record in rest {
        state.play(rt, Record::from(Fields::from(*record)))?;
    }
    Ok(())
}

/// What stands in the space at first: it differs from byte to byte, and from page to page.
fn first_byte(i: usize) -> u8 {
    ((i % 256 * 7 + i / 64 % 256 * 13 + 5) % 256) as u8
}

fn main(rt: HostRuntime) -> io::Result<()> {
    let mut script = [0u8; 8192];
    let n = input::read_full(&mut rt.stdin(), &mut script)?;
    let mut space: [u8; 16512] = array::from_fn(first_byte);
    play(&rt, &script[..n], &mut space)
}
