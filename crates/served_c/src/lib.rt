// The calls in place for programs in C and Rust, exported: each is the function of its name in crate `served` and promises what that one does. Public:
// for programs in other languages, through `include/foqheran.h` and the Rust crate `foqheran`, which keep all of it in one struct. A crate is a library or a
// static library, and theorems name the functions of a library: so they stand twice. Names and parameters are the C interface.
#![tactic(auto)]

ghost use Rattle.std.specs.Prelude.{◌≡◌, List, ℕ};
ghost use Rattle.pool.specs.State.{number_of_clients};
ghost use Rattle.pool.specs.declared.Call.TheVariants.{Begin, Release};
ghost use Rattle.pool.specs.declared.Pool.{Pool};
ghost use Rattle.memory.specs.Requests.{ReadByte, WriteByte};
ghost use Rattle.counting.specs.Counts.{tally_from};
ghost use Rattle.client_arrays.specs.Arrays.{clients_from};
ghost use Rattle.holding.specs.Holds.{Keeps};
ghost use Rattle.listing.specs.Listed.{held_listing};
ghost use Rattle.in_place.specs.Held.{pool_from, held_of, state_from};
ghost use Rattle.served.specs.Words.{word_of};
ghost use Rattle.served.specs.Served.{SetsUp, CallsTo, StepsTo, BytesTo, ListsTo, checked_state};

use client_arrays::{ALL_BYTES, ALL_WORDS};
use counting::COUNTS;
use memory::BYTES;
use pool::{FRAMES, GRANTS, SLOTS};

#[unsafe(no_mangle)]
pub extern "C" fn foqheran_parts_setup(
    s: u8,
    t: u8,
    c: u8,
    h: u32,
    store: &[u8],
    size: &mut u8,
    client_count: &mut u8,
    cap: &mut u8,
    store_pages: &mut u16,
    hand: &mut u32,
    free: &mut u8,
    last: &mut u8,
    slots: &mut [u8; SLOTS],
    pages: &mut [u32; FRAMES],
    pins: &mut [u8; FRAMES],
    counts: &mut [u8; FRAMES],
    table_pages: &mut [u32; FRAMES],
    table_frames: &mut [u8; FRAMES],
    client_bytes: &mut [u8; ALL_BYTES],
    client_words: &mut [u32; ALL_WORDS],
    grant_pages: &mut [u32; GRANTS],
    grant_frames: &mut [u8; GRANTS],
    bytes: &mut [u8; BYTES],
    filled: &mut [u8; FRAMES],
    changed: &mut [u8; FRAMES],
) -> u64
    ensures { SetsUp s t c h store.now result
        (state_from (pool_from size.old client_count.old cap.old hand.old free.old last.old slots.old pages.old
        pins.old counts.old table_pages.old table_frames.old client_bytes.old
        client_words.old grant_pages.old grant_frames.old)
        store_pages.old bytes.old filled.old changed.old store.now)
        (state_from (pool_from size.new client_count.new cap.new hand.new free.new last.new slots.new pages.new
        pins.new counts.new table_pages.new table_frames.new client_bytes.new
        client_words.new grant_pages.new grant_frames.new)
        store_pages.new bytes.new filled.new changed.new store.now) }
{
    served::foqheran_parts_setup(
        s,
        t,
        c,
        h,
        store,
        size,
        client_count,
        cap,
        store_pages,
        hand,
        free,
        last,
        slots,
        pages,
        pins,
        counts,
        table_pages,
        table_frames,
        client_bytes,
        client_words,
        grant_pages,
        grant_frames,
        bytes,
        filled,
        changed,
    )
}

#[unsafe(no_mangle)]
pub extern "C" fn foqheran_parts_begin(
    client: u8,
    page: u32,
    store_pages: u16,
    size: u8,
    client_count: u8,
    cap: u8,
    hand: &mut u32,
    free: &mut u8,
    last: &mut u8,
    slots: &mut [u8; SLOTS],
    pages: &mut [u32; FRAMES],
    pins: &mut [u8; FRAMES],
    counts: &mut [u8; FRAMES],
    table_pages: &mut [u32; FRAMES],
    table_frames: &mut [u8; FRAMES],
    client_bytes: &mut [u8; ALL_BYTES],
    client_words: &mut [u32; ALL_WORDS],
    grant_pages: &mut [u32; GRANTS],
    grant_frames: &mut [u8; GRANTS],
) -> u64
    ensures { CallsTo
        (held_of
        (pool_from size client_count cap hand.old free.old last.old slots.old pages.old
        pins.old counts.old table_pages.old table_frames.old client_bytes.old
        client_words.old grant_pages.old grant_frames.old)
        store_pages (Begin client page)) result
        (pool_from size client_count cap hand.new free.new last.new slots.new pages.new
        pins.new counts.new table_pages.new table_frames.new client_bytes.new
        client_words.new grant_pages.new grant_frames.new) }
{
    served::foqheran_parts_begin(
        client,
        page,
        store_pages,
        size,
        client_count,
        cap,
        hand,
        free,
        last,
        slots,
        pages,
        pins,
        counts,
        table_pages,
        table_frames,
        client_bytes,
        client_words,
        grant_pages,
        grant_frames,
    )
}

#[unsafe(no_mangle)]
pub extern "C" fn foqheran_parts_release(
    client: u8,
    page: u32,
    size: u8,
    client_count: u8,
    cap: u8,
    hand: &mut u32,
    free: &mut u8,
    last: &mut u8,
    slots: &mut [u8; SLOTS],
    pages: &mut [u32; FRAMES],
    pins: &mut [u8; FRAMES],
    counts: &mut [u8; FRAMES],
    table_pages: &mut [u32; FRAMES],
    table_frames: &mut [u8; FRAMES],
    client_bytes: &mut [u8; ALL_BYTES],
    client_words: &mut [u32; ALL_WORDS],
    grant_pages: &mut [u32; GRANTS],
    grant_frames: &mut [u8; GRANTS],
) -> u64
    ensures { CallsTo
        (held_of
        (pool_from size client_count cap hand.old free.old last.old slots.old pages.old
        pins.old counts.old table_pages.old table_frames.old client_bytes.old
        client_words.old grant_pages.old grant_frames.old)
        0 (Release client page)) result
        (pool_from size client_count cap hand.new free.new last.new slots.new pages.new
        pins.new counts.new table_pages.new table_frames.new client_bytes.new
        client_words.new grant_pages.new grant_frames.new) }
{
    served::foqheran_parts_release(
        client,
        page,
        size,
        client_count,
        cap,
        hand,
        free,
        last,
        slots,
        pages,
        pins,
        counts,
        table_pages,
        table_frames,
        client_bytes,
        client_words,
        grant_pages,
        grant_frames,
    )
}

#[unsafe(no_mangle)]
pub extern "C" fn foqheran_parts_step(
    client: u8,
    tally: &mut [u32; COUNTS],
    duty: &mut u64,
    store: &mut [u8],
    store_pages: u16,
    bytes: &mut [u8; BYTES],
    filled: &mut [u8; FRAMES],
    changed: &mut [u8; FRAMES],
    size: u8,
    client_count: u8,
    cap: u8,
    hand: &mut u32,
    free: &mut u8,
    last: &mut u8,
    slots: &mut [u8; SLOTS],
    pages: &mut [u32; FRAMES],
    pins: &mut [u8; FRAMES],
    counts: &mut [u8; FRAMES],
    table_pages: &mut [u32; FRAMES],
    table_frames: &mut [u8; FRAMES],
    client_bytes: &mut [u8; ALL_BYTES],
    client_words: &mut [u32; ALL_WORDS],
    grant_pages: &mut [u32; GRANTS],
    grant_frames: &mut [u8; GRANTS],
) -> u64
    ensures { StepsTo client result (tally_from tally.old) (tally_from tally.new) duty.new
        (state_from (pool_from size client_count cap hand.old free.old last.old slots.old pages.old
        pins.old counts.old table_pages.old table_frames.old client_bytes.old
        client_words.old grant_pages.old grant_frames.old)
        store_pages bytes.old filled.old changed.old store.old)
        (state_from (pool_from size client_count cap hand.new free.new last.new slots.new pages.new
        pins.new counts.new table_pages.new table_frames.new client_bytes.new
        client_words.new grant_pages.new grant_frames.new)
        store_pages bytes.new filled.new changed.new store.new) }
{
    served::foqheran_parts_step(
        client,
        tally,
        duty,
        store,
        store_pages,
        bytes,
        filled,
        changed,
        size,
        client_count,
        cap,
        hand,
        free,
        last,
        slots,
        pages,
        pins,
        counts,
        table_pages,
        table_frames,
        client_bytes,
        client_words,
        grant_pages,
        grant_frames,
    )
}

#[unsafe(no_mangle)]
pub extern "C" fn foqheran_parts_read<'a>(
    client: u8,
    page: u32,
    offset: u32,
    store: &[u8],
    store_pages: u16,
    bytes: &mut [u8; BYTES],
    filled: &mut [u8; FRAMES],
    client_count: u8,
    client_bytes: &'a [u8; ALL_BYTES],
    client_words: &'a [u32; ALL_WORDS],
    grant_pages: &'a [u32; GRANTS],
    grant_frames: &'a [u8; GRANTS],
) -> u64
    ensures { (p : Pool) (changed : List ℕ) →
        Keeps p client_count client_bytes.now client_words.now grant_pages.now grant_frames.now →
        BytesTo (ReadByte client page offset) result
        (state_from p store_pages bytes.old filled.old changed store.now)
        (state_from p store_pages bytes.new filled.new changed store.now) }
{
    served::foqheran_parts_read(
        client,
        page,
        offset,
        store,
        store_pages,
        bytes,
        filled,
        client_count,
        client_bytes,
        client_words,
        grant_pages,
        grant_frames,
    )
}

#[unsafe(no_mangle)]
pub extern "C" fn foqheran_parts_write<'a>(
    client: u8,
    page: u32,
    offset: u32,
    byte: u8,
    store: &[u8],
    store_pages: u16,
    bytes: &mut [u8; BYTES],
    filled: &mut [u8; FRAMES],
    changed: &mut [u8; FRAMES],
    client_count: u8,
    client_bytes: &'a [u8; ALL_BYTES],
    client_words: &'a [u32; ALL_WORDS],
    grant_pages: &'a [u32; GRANTS],
    grant_frames: &'a [u8; GRANTS],
) -> u64
    ensures { (p : Pool) →
        Keeps p client_count client_bytes.now client_words.now grant_pages.now grant_frames.now →
        BytesTo (WriteByte client page offset byte) result
        (state_from p store_pages bytes.old filled.old changed.old store.now)
        (state_from p store_pages bytes.new filled.new changed.new store.now) }
{
    served::foqheran_parts_write(
        client,
        page,
        offset,
        byte,
        store,
        store_pages,
        bytes,
        filled,
        changed,
        client_count,
        client_bytes,
        client_words,
        grant_pages,
        grant_frames,
    )
}

#[unsafe(no_mangle)]
pub extern "C" fn foqheran_parts_holdings<'a>(
    client: u8,
    rows: &mut [u32],
    client_count: u8,
    client_bytes: &'a [u8; ALL_BYTES],
    client_words: &'a [u32; ALL_WORDS],
    grant_pages: &'a [u32; GRANTS],
) -> u64
    ensures { (p : Pool) →
        number_of_clients p ≡ client_count → p.clients ≡ clients_from client_bytes.now client_words.now →
        p.grant_pages ≡ grant_pages.now →
        ListsTo (held_listing p client rows.old) result rows.new }
{
    served::foqheran_parts_holdings(
        client,
        rows,
        client_count,
        client_bytes,
        client_words,
        grant_pages,
    )
}

#[unsafe(no_mangle)]
pub extern "C" fn foqheran_parts_check<'a>(
    store: &'a [u8],
    store_pages: u16,
    filled: &'a [u8; FRAMES],
    changed: &'a [u8; FRAMES],
    size: u8,
    client_count: u8,
    cap: u8,
    free: u8,
    last: u8,
    slots: &'a [u8; SLOTS],
    pages: &'a [u32; FRAMES],
    pins: &'a [u8; FRAMES],
    counts: &'a [u8; FRAMES],
    table_pages: &'a [u32; FRAMES],
    table_frames: &'a [u8; FRAMES],
    client_bytes: &'a [u8; ALL_BYTES],
    client_words: &'a [u32; ALL_WORDS],
    grant_pages: &'a [u32; GRANTS],
    grant_frames: &'a [u8; GRANTS],
) -> u64
    ensures { (hand : ℕ) (bytes : List ℕ) → result ≡ word_of (checked_state
        (state_from
        (pool_from size client_count cap hand free last slots.now pages.now pins.now counts.now
        table_pages.now table_frames.now client_bytes.now client_words.now
        grant_pages.now grant_frames.now)
        store_pages bytes filled.now changed.now store.now)) }
{
    served::foqheran_parts_check(
        store,
        store_pages,
        filled,
        changed,
        size,
        client_count,
        cap,
        free,
        last,
        slots,
        pages,
        pins,
        counts,
        table_pages,
        table_frames,
        client_bytes,
        client_words,
        grant_pages,
        grant_frames,
    )
}
