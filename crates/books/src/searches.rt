// Searches in parts of the books' arrays, each the library's `position` or `contains`.
#![tactic(auto)]

ghost use Rattle.std.specs.Prelude.{◌≡◌, ◌+◌, ◌*◌, ◌<◌, ◌≤◌, ℕ, take, length, unwrap_or, position, IfSome, ◌==◌, ◌&&◌, not, eqb};
ghost use Rattle.std.specs.List.{zip};
ghost use Rattle.pool.specs.Limits.{max_clients, max_frames, max_held};
ghost use Rattle.pool.specs.Choose.{some};
ghost use Rattle.pool.specs.State.{none, within, of_client};
ghost use Rattle.books.specs.Lists.{entry_in, unused_in, grant_in};

use pool::{FRAMES, GRANTS, HELD, NONE};

/// The first entry of a page.
fn entry(pages: &[u32], frames: &[u8], page: u32) -> Option<usize>
    ensures bound { IfSome result (λ i. i < length pages.now) }
    ensures first { result ≡ position (λ e. (e.0 == page) && not (e.1 == none)) (zip pages.now frames.now) }
{
    pages
        .iter()
        .zip(frames)
        .position(|(&g, &f)| g == page && f != NONE)
}

/// Of the first n places of the table, the one with the entry that maps a page.
#[tactic(auto, using(crate::proofs::First::entry_is))]
pub fn entry_of(pages: &[u32; FRAMES], frames: &[u8; FRAMES], n: u8, page: u32) -> Option<u8>
    requires { n ≤ max_frames }
    ensures first { unwrap_or result none ≡ entry_in pages.now frames.now n page }
    ensures bound { IfSome result (λ i. i < n) }
{
    let n = n as usize;
    entry(&pages[..n], &frames[..n], page).map(|i| i as u8)
}

/// The first place that is unused.
fn unused(frames: &[u8]) -> Option<usize>
    ensures first { result ≡ position (λ f. f == none) frames.now }
    ensures bound { IfSome result (λ i. i < length frames.now) }
{
    frames.iter().position(|&f| f == NONE)
}

/// Of the first n places of the table, the first that is unused.
#[tactic(auto, using(crate::proofs::First::unused_is))]
pub fn unused_of(frames: &[u8; FRAMES], n: u8) -> Option<u8>
    requires { n ≤ max_frames }
    ensures first { unwrap_or result none ≡ unused_in frames.now n }
    ensures bound { IfSome result (λ i. i < n) }
{
    unused(&frames[..n as usize]).map(|i| i as u8)
}

/// The first place of a page.
fn place_of(pages: &[u32], page: u32) -> Option<usize>
    ensures first { result ≡ position (λ g. g == page) pages.now }
    ensures bound { IfSome result (λ i. i < length pages.now) }
{
    pages.iter().position(|&g| g == page)
}

/// The place among client c's grants of its first on a page.
#[tactic(auto, using(crate::proofs::First::grant_is))]
pub fn grant_of(pages: &[u32; GRANTS], c: usize, held: u8, page: u32) -> Option<u8>
    requires client { c < max_clients }
    requires few { held ≤ max_held }
    ensures first { unwrap_or result none ≡ grant_in pages.now c held page }
    ensures bound { IfSome result (λ i. i < held) }
{
    let at = HELD * c;
    let mine = &pages[at..at + held as usize];
    place_of(mine, page).map(|i| i as u8)
}

/// Whether frame f is among the first n.
pub fn has(frames: &[u8], n: usize, f: u8) -> bool
    requires { n ≤ length frames.now }
    ensures { (d : ℕ) → result ≡ some (λ i. eqb (within frames.now n d i) f) n }
{
    frames[..n].contains(&f)
}

/// Whether one of client c's grants is on frame f.
pub fn holds(frames: &[u8; GRANTS], c: usize, held: u8, f: u8) -> bool
    requires client { c < max_clients }
    requires few { held ≤ max_held }
    ensures { result ≡ some (λ i. eqb (of_client frames.now c held none i) f) held }
{
    let at = HELD * c;
    let grants = &frames[at..at + held as usize];
    grants.contains(&f)
}
