// The two tests of check 8 that compare pages: those of the table (SPECIFICATION 5.4) and of a client's grants (SPECIFICATION 5.7).
//
// The pages met are marked by their remainder, and only a page whose remainder has a mark is searched for, so that not all pairs are compared.
#![tactic(auto)]

ghost use Rattle.std.specs.Prelude.{◌≡◌, ◌+◌, ◌*◌, ◌%◌, ◌<◌, ◌≤◌, false, true, get_or, set};
ghost use Rattle.pool.specs.Limits.{max_clients, max_held};
ghost use Rattle.laws.specs.Elements.{page_of};
ghost use Rattle.checks.specs.Met.{New};
ghost use Rattle.checks.specs.Places.{page_at, entry_ok_in, entries_ok_in, grant_ok_in, grants_ok_in};

use books::Books;
use pool::{HELD, NONE};

/// Whether the page's remainder has its mark, which it has from now on.
fn met<const M: usize>(marks: &mut [bool; M], page: u32) -> bool
    requires { 0 < M }
    ensures before { result ≡ get_or marks.old (page % M) false }
    ensures after { marks.new ≡ set marks.old (page % M) true }
{
    let mark = &mut marks[page as usize % M];
    std::mem::replace(mark, true)
}

/// SPECIFICATION 5.4: place i is unused, or names one of the pool's frames and is the first that maps its page. `met` is false only of a page that
/// stands at no earlier place, so that no search is needed.
fn entry_ok(books: &Books, i: u8, met: bool) -> bool
    requires place { i < books.now.numbers.size + 2 * books.now.numbers.client_count }
    requires new { met ≡ false → New (page_at books.now.table_pages.now) i }
    ensures { result ≡ entry_ok_in books.now.table_pages.now books.now.table_frames.now
        (books.now.numbers.size + 2 * books.now.numbers.client_count) i }
{
    let frame = books.table_frames[i as usize];
    let page = books.table_pages[i as usize];
    // NONE, as the array has it: so a C program's memory has it, and `valid` is asked of any pool.
    frame == NONE || frame < books.numbers.total() && (!met || books.entry_of(page) == Some(i))
}

/// SPECIFICATION 5.4. The remainder is by a prime, which spreads regular page numbers too.
pub fn entries_ok(books: &Books) -> bool
    ensures { result ≡ entries_ok_in books.now.table_pages.now books.now.table_frames.now
        (books.now.numbers.size + 2 * books.now.numbers.client_count) }
{
    let mut marks = [false; 1021];
    // By number, a byte, which what a search finds is compared with. `enumerate` is no plainer: the array has to be lent through a local, its first places
    // as a slice, and the index cast back to a byte. `(0..n).zip(pages)` was tried: the loop's invariant has to count what the iterator gave, where it now
    // has i, and the proof did not close as it stands.
    for i in 0..books.numbers.total() {
        let met = met(&mut marks, books.table_pages[i as usize]);
        if !entry_ok(books, i, met) {
            return false;
        }
    }
    true
}

/// SPECIFICATION 5.7: grant i of client c names one of the pool's frames and is the client's first of its page. `met` is false only of a page that no
/// earlier grant is of, so that no search is needed.
fn grant_ok(books: &Books, c: usize, held: u8, i: u8, met: bool) -> bool
    requires client { c < max_clients }
    requires few { held ≤ max_held }
    requires place { i < held }
    requires new { met ≡ false → New (page_of books.now.grant_pages.now c) i }
    ensures { result ≡ grant_ok_in books.now.grant_pages.now books.now.grant_frames.now c held
        (books.now.numbers.size + 2 * books.now.numbers.client_count) i }
{
    let at = HELD * c + i as usize;
    books.grant_frames[at] < books.numbers.total()
        && (!met || books.grant_of(c, held, books.grant_pages[at]) == Some(i))
}

/// SPECIFICATION 5.7. Marks as for the table; a power of two serves, for a search among 8 grants is short.
pub fn grants_ok(books: &Books, c: usize, held: u8) -> bool
    requires client { c < max_clients }
    requires few { held ≤ max_held }
    ensures { result ≡ grants_ok_in books.now.grant_pages.now books.now.grant_frames.now c held
        (books.now.numbers.size + 2 * books.now.numbers.client_count) }
{
    let mut marks = [false; 64];
    // By number, as for the table, and for the same reasons.
    for i in 0..held {
        let met = met(&mut marks, books.grant_pages[HELD * c + i as usize]);
        if !grant_ok(books, c, held, i, met) {
            return false;
        }
    }
    true
}
