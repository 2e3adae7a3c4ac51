// The numbers of a store, and of a byte in it: SPECIFICATION 13.1, 13.10.
ghost use Rattle.std.specs.Prelude.{◌≡◌, true, false, ◌/◌, MatchOption};
ghost use Rattle.memory.specs.Memory.{page_bytes};
ghost use Rattle.memory.specs.Requests.{length_ok, byte_refusal};
ghost use Rattle.answers.specs.Numbers.{refused_by};

use answers::Refusal;
use memory::{MAX_PAGES, PAGE};

/// How many pages a store of so many bytes has, if there may be one: SPECIFICATION 13.1.
pub fn pages_of(length: usize) -> Option<u16>
    ensures { MatchOption result (length_ok length ≡ false) (λ pages. (length_ok length ≡ true) × (pages ≡ length / page_bytes)) }
{
    if length % PAGE == 0 && length <= PAGE * usize::from(MAX_PAGES) {
        Some((length / PAGE) as u16)
    } else {
        None
    }
}

/// Refusals 16 and 17, of a byte at an offset of a page beside a store of so many pages.
pub fn outside(pages: u16, page: u32, offset: u32) -> Result<(), Refusal>
    ensures { refused_by result ≡ byte_refusal pages page offset }
{
    if page >= u32::from(pages) {
        return Err(Refusal::OutsideStore);
    }
    if offset >= PAGE as u32 {
        return Err(Refusal::OutsidePage);
    }
    Ok(())
}
