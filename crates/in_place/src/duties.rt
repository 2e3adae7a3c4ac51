// What an owner of larger pages has to do in the same action: SPECIFICATION 14.7.
ghost use Rattle.std.specs.Prelude.{◌≡◌, ◌≤◌};
ghost use Rattle.in_place.specs.Held.{duty_word, duty_at, duty_of};

use pool::{FRAMES, NONE, Write};

/// A frame's content goes back as its page.
const GOES_BACK: u64 = 1;

/// A frame's content goes to another frame.
const MOVES: u64 = 2;

/// A duty as one number, as the C interface has it (`foqheran_duty`): what it is, a frame, and the page or the frame that the frame's content goes to.
fn word(kind: u64, from: u8, to: u32) -> u64
    requires { kind ≤ 2 }
    ensures { result ≡ duty_word kind from to }
{
    (kind << 40) + (u64::from(from) << 32) + u64::from(to)
}

/// The content of frame `from` goes back as its page, or to frame `to`. All are numbers as the table has them: in place it may have any.
#[tactic(auto, unfolding(crate::specs::Held::duty_at, memory::specs::Memory::is_frame, pool::specs::Choose::choose))]
fn duty_at(page: u32, from: u8, to: u8) -> u64
    ensures { result ≡ duty_at page from to }
{
    if usize::from(from) >= FRAMES {
        return 0;
    }
    match to {
        NONE => word(GOES_BACK, from, page),
        to if usize::from(to) < FRAMES => word(MOVES, from, u32::from(to)),
        _ => 0,
    }
}

/// Of a write to the pool; `entry` is the frame of the entry that it replaces.
#[tactic(auto, unfolding(crate::specs::Held::duty_of))]
pub fn duty(entry: u8, write: Write) -> u64
    ensures { result ≡ duty_of entry write }
{
    match write {
        Write::PutEntry(_, page, f) => duty_at(page, entry, f),
        _ => 0,
    }
}
