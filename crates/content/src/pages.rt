// A page's 64 bytes, copied where they lie: between a frame and the store, and from frame to frame.
ghost use Rattle.std.specs.Prelude.{◌≡◌, ◌+◌, ◌≤◌, ◌<◌, length, replicate};
ghost use Rattle.pool.specs.Limits.{max_frames};
ghost use Rattle.memory.specs.Memory.{page_bytes, copied, copied_page};

use memory::{BYTES, PAGE};

/// The 64 bytes from a place on of one list, laid over those from a place on of another.
pub fn copy_page(to: &mut [u8], at: usize, from: &[u8], source: usize)
    requires to { at + page_bytes ≤ length to.old }
    requires from { source + page_bytes ≤ length from.now }
    ensures { to.new ≡ copied page_bytes to.old at from.now source }
{
    let page = &from[source..source + PAGE];
    to[at..at + PAGE].copy_from_slice(page);
}

/// Frame f's 64 bytes, by themselves.
fn taken(bytes: &[u8; BYTES], f: usize) -> [u8; PAGE]
    requires { f < max_frames }
    ensures { result ≡ copied_page (replicate page_bytes 0) 0 bytes.now f }
{
    let mut page = [0; PAGE];
    copy_page(&mut page, 0, bytes, PAGE * f);
    page
}

/// A frame's bytes, copied to another frame. They are taken out first, so that it makes no difference whether the two are one.
pub fn shift(bytes: &mut [u8; BYTES], from: usize, to: usize)
    requires from { from < max_frames }
    requires to { to < max_frames }
    ensures { bytes.new ≡ copied_page bytes.old to bytes.old from }
{
    let page = taken(bytes, from);
    copy_page(bytes, PAGE * to, &page, 0);
}
