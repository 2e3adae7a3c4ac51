// Holdings in place: of a pool that its owner, a program in another language, keeps in numbers and arrays and lends, over a list of numbers that it lends
// too (SPECIFICATION 14.6). Nothing is asked of what stands there. Internal: crate `served` has the call by name.
//
// The rows are gathered by crate `holdings`. The tests before that are not the same, and so have a `collect` of their own: in place only the numbers that
// the call reads are tested (SPECIFICATION 14.4), and of a pool by value all that check 8 looks at.
#![tactic(auto)]

ghost use Rattle.std.specs.Prelude.{◌≡◌, ◌++◌, ◌*◌, ◌≤◌, ℕ, drop, length, IfOk};
ghost use Rattle.pool.specs.State.{number_of_clients};
ghost use Rattle.pool.specs.Holdings.{rows_of};
ghost use Rattle.pool.specs.declared.Pool.{Pool};
ghost use Rattle.answers.specs.Numbers.{refused_by};
ghost use Rattle.client_arrays.specs.Arrays.{clients_from};
ghost use Rattle.listing.specs.Listed.{row_numbers, listing_refusal, held_listing};

use answers::Refusal;
use client_arrays::{ALL_BYTES, ALL_WORDS};
use holdings::rows::Rows;
use pool::{Answer, GRANTS, MAX_CLIENTS, MAX_HELD, Row};

/// The rows, as the first of the lent numbers: the page and the times of each. By index, since a proof learns nothing of what is written through
/// `chunks_exact_mut`: tried, and it does not close.
fn lay(numbers: &mut [u32], rows: &[Row])
    requires { 2 * length rows.now ≤ length numbers.old }
    ensures { numbers.new ≡ row_numbers rows.now ++ drop (2 * length rows.now) numbers.old }
{
    for (i, row) in rows.iter().enumerate() {
        numbers[2 * i] = row.page;
        numbers[2 * i + 1] = u32::from(row.times);
    }
}

/// The rows of a client, for a list of `room` numbers: SPECIFICATION 14.4, 14.6. The arrays are as C keeps them.
fn collect<'a>(
    client: u8,
    room: usize,
    client_count: u8,
    client_bytes: &'a [u8; ALL_BYTES],
    client_words: &'a [u32; ALL_WORDS],
    grant_pages: &'a [u32; GRANTS],
) -> Result<Rows, Refusal>
    ensures found { (p : Pool) → number_of_clients p ≡ client_count → p.clients ≡ clients_from client_bytes.now client_words.now
        → p.grant_pages ≡ grant_pages.now
        → (refused_by result ≡ listing_refusal p client room) × IfOk result (λ rows. rows.items ≡ rows_of p client) }
    ensures room { IfOk result (λ rows. 2 * length rows.items ≤ room) }
{
    if client_count > MAX_CLIENTS {
        return Err(Refusal::OutOfRange);
    }
    if client >= client_count {
        return Err(Refusal::NoSuchClient);
    }
    let c = usize::from(client);
    let held = client_arrays::client_at(client_bytes, client_words, c).held;
    if held > MAX_HELD {
        return Err(Refusal::OutOfRange);
    }
    let rows = holdings::rows::gather(grant_pages, c, usize::from(held));
    if room < 2 * rows.len() {
        return Err(Refusal::FewRows);
    }
    Ok(rows)
}

/// SPECIFICATION 14.6. Where the call is turned down the numbers stay as they were.
pub fn holdings<'a>(
    client: u8,
    rows: &mut [u32],
    client_count: u8,
    client_bytes: &'a [u8; ALL_BYTES],
    client_words: &'a [u32; ALL_WORDS],
    grant_pages: &'a [u32; GRANTS],
) -> Answer
    ensures { (p : Pool) → number_of_clients p ≡ client_count → p.clients ≡ clients_from client_bytes.now client_words.now
        → p.grant_pages ≡ grant_pages.now
        → let h = held_listing p client rows.old in (result ≡ h.answer) × (rows.new ≡ h.numbers) }
{
    match collect(
        client,
        rows.len(),
        client_count,
        client_bytes,
        client_words,
        grant_pages,
    ) {
        Ok(found) => {
            lay(rows, &found);
            Answer::Done(found.len() as u32)
        }
        Err(refusal) => refusal.into(),
    }
}
