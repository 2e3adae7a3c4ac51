// A read and a write of one byte of a page that a resting client holds: SPECIFICATION 13.9, 13.10. Each takes any pool, numbers and store, and its promise
// says what it answers and what it leaves, whole; the store is only read. The second clause of a promise lists by which refusals the call can be
// refused; 0 is no refusal. Public, through crate `foqheran`. By value, as the theorems of crate `byte_tie` name these promises.
#![tactic(auto)]

ghost use Rattle.std.specs.Prelude.{◌≡◌, ◌*◌, ◌<◌, length, IfOk, MatchResult};
ghost use Rattle.pool.specs.Answers.{refusal_of};
ghost use Rattle.answers.specs.Among.{Among};
ghost use Rattle.answers.specs.Numbers.{refusal_number};
ghost use Rattle.answers.specs.Refusals.{by_byte};
ghost use Rattle.memory.specs.Memory.{page_bytes};
ghost use Rattle.memory.specs.Requests.{ReadByte, WriteByte, refusal_on, held_frame, call_on, state_of, reply};

use answers::Refusal;
use content::{Content, Frames};
use memory::{BufferPool, PAGE, Reply};
use pool::{Answer, Call};

/// The frame of the client's grant of a page, or why a read is turned down, and so a write: check 8, as for a release, 16 and 17.
fn holder(
    pool: &BufferPool,
    store: &[u8],
    client: u8,
    page: u32,
    offset: u32,
) -> Result<u8, Refusal>
    ensures frame { MatchResult result
        (λ f. (refusal_on (state_of pool.now store.now) (ReadByte client page offset) ≡ 0) × (f ≡ held_frame pool.now.pool client page))
        (λ e. refusal_on (state_of pool.now store.now) (ReadByte client page offset) ≡ refusal_number e) }
    ensures inside { IfOk result (λ f. (length store.now ≡ page_bytes * pool.now.memory.pages) × (offset < page_bytes)) }
{
    let checked = checks::sound(pool)?;
    let pages = pool.memory.pages;
    let as_long = store.len() == PAGE * usize::from(pages);
    if !as_long {
        return Err(Refusal::OutOfRange);
    }
    checked::turned_by(&checked, Call::Release(client, page))?;
    content::outside(pages, page, offset)?;
    let c = client as usize;
    let held = checked.pool.clients[c].held;
    let books = checked.books();
    let Some(i) = books.grant_of(c, held, page) else {
        return Err(Refusal::NotHeld);
    };
    Ok(books.grant_frame(c, held, i))
}

/// SPECIFICATION 13.9.
pub fn read(mut pool: BufferPool, client: u8, page: u32, offset: u32, store: &[u8]) -> Reply
    ensures value { result ≡ reply (call_on (state_of pool store.now) (ReadByte client page offset)) }
    ensures among { Among by_byte (refusal_of result.answer) }
{
    let frame = match holder(&pool, store, client, page, offset) {
        Ok(frame) => frame,
        Err(refusal) => return buffered::turned_back(refusal.number(), pool),
    };
    let mut frames = Frames {
        pages: pool.memory.pages,
        bytes: &mut pool.memory.bytes,
        filled: &mut pool.memory.filled,
    };
    frames.fill(store, frame, page);
    let byte = frames.byte(frame, offset);
    Reply {
        answer: Answer::Done(u32::from(byte)),
        pool,
    }
}

/// SPECIFICATION 13.9.
pub fn write(
    mut pool: BufferPool,
    client: u8,
    page: u32,
    offset: u32,
    byte: u8,
    store: &[u8],
) -> Reply
    ensures value { result ≡ reply (call_on (state_of pool store.now) (WriteByte client page offset byte)) }
    ensures among { Among by_byte (refusal_of result.answer) }
{
    let frame = match holder(&pool, store, client, page, offset) {
        Ok(frame) => frame,
        Err(refusal) => return buffered::turned_back(refusal.number(), pool),
    };
    let pages = pool.memory.pages;
    let mut content = Content {
        pages,
        bytes: &mut pool.memory.bytes,
        filled: &mut pool.memory.filled,
        changed: &mut pool.memory.changed,
    };
    content.fill(store, frame, page);
    content.write(frame, offset, byte);
    Reply {
        answer: Answer::Done(page),
        pool,
    }
}
