// The calls in place for programs in C and Rust (SPECIFICATION, section 14): numbers, and arrays of numbers by reference. Nothing is asked of what stands
// there, and each promise says for all of it what the call answers and leaves. An answer is one number. Public: for programs in other languages, to
// which crate `served_c` exports each under its name, with its promise; `include/foqheran.h` and the Rust crate `foqheran` keep all of it in one struct.
//
// That the pool is lent part by part, `duty` told through a reference and an answer as one number, is the C interface; the promises are the exports'
// (`Alike` in crate `served_c`) and the claims' (`served_tie`). What is behind it takes the parts as structs.
#![tactic(auto)]

ghost use Rattle.std.specs.Prelude.{◌≡◌, List, ℕ, length};
ghost use Rattle.pool.specs.State.{number_of_clients};
ghost use Rattle.pool.specs.declared.Call.TheVariants.{Begin, Release};
ghost use Rattle.pool.specs.declared.Pool.{Pool};
ghost use Rattle.memory.specs.Requests.{ReadByte, WriteByte};
ghost use Rattle.counting.specs.Counts.{tally_from};
ghost use Rattle.client_arrays.specs.Arrays.{clients_from};
ghost use Rattle.holding.specs.Holds.{Keeps};
ghost use Rattle.listing.specs.Listed.{held_listing};
ghost use Rattle.in_place.specs.Held.{pool_from, held_of, state_from};
ghost use Rattle.served.specs.Words.{answer_of, word_of};
ghost use Rattle.served.specs.Served.{SetsUp, CallsTo, StepsTo, BytesTo, ListsTo, checked_state};

use answers::Refusal;
use books::{Numbers, Parts};
use checks::Marks;
use client_arrays::{ALL_BYTES, ALL_WORDS, Clients, ClientsMut};
use content::{Content, Frames};
use counting::COUNTS;
use holding::Grants;
use memory::{BYTES, PAGE};
use pool::{Answer, Call, EVICTED, FRAMES, GRANTS, NONE, SLOTS};

/// SPECIFICATION 14.3: an answer, or a refusal, as one number, its code above its value.
#[tactic(auto, unfolding(crate::specs::Words::word_of))]
fn word(outcome: Result<Answer, Refusal>) -> u64
    ensures { result ≡ word_of (answer_of outcome) }
{
    let answer = outcome.unwrap_or_else(Answer::from);
    (u64::from(answers::code_of(answer)) << 32) + u64::from(answers::value_of(answer))
}

/// SPECIFICATION 13.3, 14.5; refused by 8 nothing is changed.
pub fn foqheran_parts_setup(
    s: u8,
    t: u8,
    c: u8,
    h: u32,
    store: &[u8],
    size: &mut u8,
    client_count: &mut u8,
    cap: &mut u8,
    store_pages: &mut u16,
    hand: &mut u32,
    free: &mut u8,
    last: &mut u8,
    slots: &mut [u8; SLOTS],
    pages: &mut [u32; FRAMES],
    pins: &mut [u8; FRAMES],
    counts: &mut [u8; FRAMES],
    table_pages: &mut [u32; FRAMES],
    table_frames: &mut [u8; FRAMES],
    client_bytes: &mut [u8; ALL_BYTES],
    client_words: &mut [u32; ALL_WORDS],
    grant_pages: &mut [u32; GRANTS],
    grant_frames: &mut [u8; GRANTS],
    bytes: &mut [u8; BYTES],
    filled: &mut [u8; FRAMES],
    changed: &mut [u8; FRAMES],
) -> u64
    ensures { SetsUp s t c h store.now result
        (state_from (pool_from size.old client_count.old cap.old hand.old free.old last.old slots.old pages.old
        pins.old counts.old table_pages.old table_frames.old client_bytes.old
        client_words.old grant_pages.old grant_frames.old)
        store_pages.old bytes.old filled.old changed.old store.now)
        (state_from (pool_from size.new client_count.new cap.new hand.new free.new last.new slots.new pages.new
        pins.new counts.new table_pages.new table_frames.new client_bytes.new
        client_words.new grant_pages.new grant_frames.new)
        store_pages.new bytes.new filled.new changed.new store.now) }
{
    let Some(_) = Numbers::new(s, t, c) else {
        return word(Err(Refusal::OutOfRange));
    };
    let Some(store_length) = content::pages_of(store.len()) else {
        return word(Err(Refusal::OutOfRange));
    };
    *size = s;
    *client_count = t;
    *cap = c;
    *store_pages = store_length;
    *hand = h;
    *free = s;
    *last = NONE;
    *slots = [NONE; SLOTS];
    *pages = [0; FRAMES];
    *pins = [EVICTED; FRAMES];
    *counts = [0; FRAMES];
    *table_pages = [0; FRAMES];
    *table_frames = [NONE; FRAMES];
    *grant_pages = [0; GRANTS];
    *grant_frames = [0; GRANTS];
    *bytes = [0; BYTES];
    *filled = [0; FRAMES];
    *changed = [0; FRAMES];
    let mut clients = ClientsMut {
        bytes: client_bytes,
        words: client_words,
    };
    clients.rest_all();
    word(Ok(Answer::Done(u32::from(s))))
}

/// SPECIFICATION 3.2, 14.5; refused by 16 where the store has no such page, and by 18 where the client holds it.
pub fn foqheran_parts_begin(
    client: u8,
    page: u32,
    store_pages: u16,
    size: u8,
    client_count: u8,
    cap: u8,
    hand: &mut u32,
    free: &mut u8,
    last: &mut u8,
    slots: &mut [u8; SLOTS],
    pages: &mut [u32; FRAMES],
    pins: &mut [u8; FRAMES],
    counts: &mut [u8; FRAMES],
    table_pages: &mut [u32; FRAMES],
    table_frames: &mut [u8; FRAMES],
    client_bytes: &mut [u8; ALL_BYTES],
    client_words: &mut [u32; ALL_WORDS],
    grant_pages: &mut [u32; GRANTS],
    grant_frames: &mut [u8; GRANTS],
) -> u64
    ensures { CallsTo
        (held_of
        (pool_from size client_count cap hand.old free.old last.old slots.old pages.old
        pins.old counts.old table_pages.old table_frames.old client_bytes.old
        client_words.old grant_pages.old grant_frames.old)
        store_pages (Begin client page)) result
        (pool_from size client_count cap hand.new free.new last.new slots.new pages.new
        pins.new counts.new table_pages.new table_frames.new client_bytes.new
        client_words.new grant_pages.new grant_frames.new) }
{
    let acted = in_place::act(
        Call::Begin(client, page),
        store_pages,
        size,
        client_count,
        cap,
        hand,
        free,
        last,
        slots,
        pages,
        pins,
        counts,
        table_pages,
        table_frames,
        client_bytes,
        client_words,
        grant_pages,
        grant_frames,
    );
    word(acted.map(|acted| acted.answer))
}

/// SPECIFICATION 3.4, 14.5.
pub fn foqheran_parts_release(
    client: u8,
    page: u32,
    size: u8,
    client_count: u8,
    cap: u8,
    hand: &mut u32,
    free: &mut u8,
    last: &mut u8,
    slots: &mut [u8; SLOTS],
    pages: &mut [u32; FRAMES],
    pins: &mut [u8; FRAMES],
    counts: &mut [u8; FRAMES],
    table_pages: &mut [u32; FRAMES],
    table_frames: &mut [u8; FRAMES],
    client_bytes: &mut [u8; ALL_BYTES],
    client_words: &mut [u32; ALL_WORDS],
    grant_pages: &mut [u32; GRANTS],
    grant_frames: &mut [u8; GRANTS],
) -> u64
    ensures { CallsTo
        (held_of
        (pool_from size client_count cap hand.old free.old last.old slots.old pages.old
        pins.old counts.old table_pages.old table_frames.old client_bytes.old
        client_words.old grant_pages.old grant_frames.old)
        0 (Release client page)) result
        (pool_from size client_count cap hand.new free.new last.new slots.new pages.new
        pins.new counts.new table_pages.new table_frames.new client_bytes.new
        client_words.new grant_pages.new grant_frames.new) }
{
    let acted = in_place::act(
        Call::Release(client, page),
        0,
        size,
        client_count,
        cap,
        hand,
        free,
        last,
        slots,
        pages,
        pins,
        counts,
        table_pages,
        table_frames,
        client_bytes,
        client_words,
        grant_pages,
        grant_frames,
    );
    word(acted.map(|acted| acted.answer))
}

/// SPECIFICATION 3.3, 13.4, 14.5. The action's effect on store, bytes and marks is put into them after the pool's own, which no other call can come
/// between.
pub fn foqheran_parts_step(
    client: u8,
    tally: &mut [u32; COUNTS],
    duty: &mut u64,
    store: &mut [u8],
    store_pages: u16,
    bytes: &mut [u8; BYTES],
    filled: &mut [u8; FRAMES],
    changed: &mut [u8; FRAMES],
    size: u8,
    client_count: u8,
    cap: u8,
    hand: &mut u32,
    free: &mut u8,
    last: &mut u8,
    slots: &mut [u8; SLOTS],
    pages: &mut [u32; FRAMES],
    pins: &mut [u8; FRAMES],
    counts: &mut [u8; FRAMES],
    table_pages: &mut [u32; FRAMES],
    table_frames: &mut [u8; FRAMES],
    client_bytes: &mut [u8; ALL_BYTES],
    client_words: &mut [u32; ALL_WORDS],
    grant_pages: &mut [u32; GRANTS],
    grant_frames: &mut [u8; GRANTS],
) -> u64
    ensures { StepsTo client result (tally_from tally.old) (tally_from tally.new) duty.new
        (state_from (pool_from size client_count cap hand.old free.old last.old slots.old pages.old
        pins.old counts.old table_pages.old table_frames.old client_bytes.old
        client_words.old grant_pages.old grant_frames.old)
        store_pages bytes.old filled.old changed.old store.old)
        (state_from (pool_from size client_count cap hand.new free.new last.new slots.new pages.new
        pins.new counts.new table_pages.new table_frames.new client_bytes.new
        client_words.new grant_pages.new grant_frames.new)
        store_pages bytes.new filled.new changed.new store.new) }
{
    *duty = 0;
    if store.len() != PAGE * usize::from(store_pages) {
        return word(Err(Refusal::OutOfRange));
    }
    let acted = in_place::act(
        Call::Step(client),
        store_pages,
        size,
        client_count,
        cap,
        hand,
        free,
        last,
        slots,
        pages,
        pins,
        counts,
        table_pages,
        table_frames,
        client_bytes,
        client_words,
        grant_pages,
        grant_frames,
    );
    match acted {
        Ok(acted) => {
            let mut content = Content {
                pages: store_pages,
                bytes,
                filled,
                changed,
            };
            content.follow(store, acted.entry, acted.write);
            counting::count(tally, acted.counted);
            *duty = in_place::duty(acted.entry, acted.write);
            word(Ok(acted.answer))
        }
        Err(refusal) => word(Err(refusal)),
    }
}

/// SPECIFICATION 13.9, 14.6: of every pool whose clients and grants lie there.
pub fn foqheran_parts_read<'a>(
    client: u8,
    page: u32,
    offset: u32,
    store: &[u8],
    store_pages: u16,
    bytes: &mut [u8; BYTES],
    filled: &mut [u8; FRAMES],
    client_count: u8,
    client_bytes: &'a [u8; ALL_BYTES],
    client_words: &'a [u32; ALL_WORDS],
    grant_pages: &'a [u32; GRANTS],
    grant_frames: &'a [u8; GRANTS],
) -> u64
    ensures { (p : Pool) (changed : List ℕ) →
        Keeps p client_count client_bytes.now client_words.now grant_pages.now grant_frames.now →
        BytesTo (ReadByte client page offset) result
        (state_from p store_pages bytes.old filled.old changed store.now)
        (state_from p store_pages bytes.new filled.new changed store.now) }
{
    let grants = Grants {
        client_count,
        clients: Clients {
            bytes: client_bytes,
            words: client_words,
        },
        pages: grant_pages,
        frames: grant_frames,
    };
    match grants.frame_of(client, page, offset, store.len(), store_pages) {
        Ok(frame) => {
            let mut frames = Frames {
                pages: store_pages,
                bytes,
                filled,
            };
            frames.fill(store, frame, page);
            word(Ok(Answer::Done(u32::from(frames.byte(frame, offset)))))
        }
        Err(refusal) => word(Err(refusal)),
    }
}

/// SPECIFICATION 13.9, 14.6: of every pool whose clients and grants lie there.
pub fn foqheran_parts_write<'a>(
    client: u8,
    page: u32,
    offset: u32,
    byte: u8,
    store: &[u8],
    store_pages: u16,
    bytes: &mut [u8; BYTES],
    filled: &mut [u8; FRAMES],
    changed: &mut [u8; FRAMES],
    client_count: u8,
    client_bytes: &'a [u8; ALL_BYTES],
    client_words: &'a [u32; ALL_WORDS],
    grant_pages: &'a [u32; GRANTS],
    grant_frames: &'a [u8; GRANTS],
) -> u64
    ensures { (p : Pool) →
        Keeps p client_count client_bytes.now client_words.now grant_pages.now grant_frames.now →
        BytesTo (WriteByte client page offset byte) result
        (state_from p store_pages bytes.old filled.old changed.old store.now)
        (state_from p store_pages bytes.new filled.new changed.new store.now) }
{
    let grants = Grants {
        client_count,
        clients: Clients {
            bytes: client_bytes,
            words: client_words,
        },
        pages: grant_pages,
        frames: grant_frames,
    };
    match grants.frame_of(client, page, offset, store.len(), store_pages) {
        Ok(frame) => {
            let mut content = Content {
                pages: store_pages,
                bytes,
                filled,
                changed,
            };
            content.fill(store, frame, page);
            content.write(frame, offset, byte);
            word(Ok(Answer::Done(page)))
        }
        Err(refusal) => word(Err(refusal)),
    }
}

/// SPECIFICATION 8.2, 14.6: of every pool whose clients and grants lie there.
pub fn foqheran_parts_holdings<'a>(
    client: u8,
    rows: &mut [u32],
    client_count: u8,
    client_bytes: &'a [u8; ALL_BYTES],
    client_words: &'a [u32; ALL_WORDS],
    grant_pages: &'a [u32; GRANTS],
) -> u64
    ensures { (p : Pool) →
        number_of_clients p ≡ client_count → p.clients ≡ clients_from client_bytes.now client_words.now →
        p.grant_pages ≡ grant_pages.now →
        ListsTo (held_listing p client rows.old) result rows.new }
{
    let answer = listing::holdings(
        client,
        rows,
        client_count,
        client_bytes,
        client_words,
        grant_pages,
    );
    word(Ok(answer))
}

/// SPECIFICATION 13.11, 14.8: the whole check 8, whatever the hand and the bytes are.
pub fn foqheran_parts_check<'a>(
    store: &'a [u8],
    store_pages: u16,
    filled: &'a [u8; FRAMES],
    changed: &'a [u8; FRAMES],
    size: u8,
    client_count: u8,
    cap: u8,
    free: u8,
    last: u8,
    slots: &'a [u8; SLOTS],
    pages: &'a [u32; FRAMES],
    pins: &'a [u8; FRAMES],
    counts: &'a [u8; FRAMES],
    table_pages: &'a [u32; FRAMES],
    table_frames: &'a [u8; FRAMES],
    client_bytes: &'a [u8; ALL_BYTES],
    client_words: &'a [u32; ALL_WORDS],
    grant_pages: &'a [u32; GRANTS],
    grant_frames: &'a [u8; GRANTS],
) -> u64
    ensures { (hand : ℕ) (bytes : List ℕ) → result ≡ word_of (checked_state
        (state_from
        (pool_from size client_count cap hand free last slots.now pages.now pins.now counts.now
        table_pages.now table_frames.now client_bytes.now client_words.now
        grant_pages.now grant_frames.now)
        store_pages bytes filled.now changed.now store.now)) }
{
    let parts = Parts {
        size,
        client_count,
        cap,
        hand: 0,
        free,
        last,
        slots,
        pages,
        pins,
        counts,
        table_pages,
        table_frames,
        grant_pages,
        grant_frames,
    };
    let clients = Clients {
        bytes: client_bytes,
        words: client_words,
    };
    let marks = Marks {
        pages: store_pages,
        filled,
        changed,
    };
    match checks::check(&parts, &clients.all(), &marks, store.len()) {
        Ok(()) => word(Ok(Answer::Done(u32::from(size)))),
        Err(refusal) => word(Err(refusal)),
    }
}
