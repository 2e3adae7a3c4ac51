// What the frames hold, lent: whether it is a value of ours, or lies in the memory of a program in C.
ghost use Rattle.std.specs.Prelude.{◌≡◌, ◌+◌, ◌*◌, ◌≤◌, ◌<◌, true, length, get_or, set};
ghost use Rattle.pool.specs.Limits.{max_frames};
ghost use Rattle.memory.specs.Memory.{page_bytes, start, mark, copied_page};
ghost use Rattle.content.specs.Effects.{replaced_in, marks_after, bytes_after, store_in};
ghost use Rattle.content.specs.Filling.{bytes_filled, marks_filled, byte_in, bytes_written, marks_written};
ghost use Rattle.content.specs.Loans.{SameFrames, SameContent};

use crate::pages::{copy_page, shift};
use memory::{BYTES, PAGE};
use pool::{FRAMES, NONE, Write};

/// The frame of the entry that a write to the table replaces, of a table with so many places; NONE where it replaces none.
pub fn replaced(frames: &[u8; FRAMES], total: u8, write: Write) -> u8
    requires { total ≤ max_frames }
    ensures { result ≡ replaced_in frames.now total write }
{
    match write {
        Write::PutEntry(i, _, _) if i < total => frames[usize::from(i)],
        _ => NONE,
    }
}

/// Whether frame f has the mark; no frame but those that there are has one.
pub fn marked(marks: &[u8; FRAMES], f: u8) -> bool
    ensures value { result ≡ mark marks.now f }
    ensures bound { result ≡ true → f < max_frames }
{
    marks.get(usize::from(f)).is_some_and(|&mark| mark != 0)
}

/// Frame f gets a page of a store of so many, unless it is filled or there is no such page.
fn fill(
    bytes: &mut [u8; BYTES],
    filled: &mut [u8; FRAMES],
    pages: u16,
    store: &[u8],
    f: u8,
    page: u32,
)
    requires { length store.now ≡ page_bytes * pages }
    ensures bytes { bytes.new ≡ bytes_filled filled.old pages f page bytes.old store.now }
    ensures filled { filled.new ≡ marks_filled filled.old pages f page }
{
    let at = usize::from(f);
    if at < FRAMES && !marked(filled, f) && page < u32::from(pages) {
        copy_page(bytes, PAGE * at, store, PAGE * page as usize);
        filled[at] = 1;
    }
}

/// The frames' bytes, and the marks of the frames that have their page's bytes: what a read is lent.
#[derive(Drop)]
pub struct Frames<'a> {
    /// How many pages the store has.
    pub pages: u16,
    pub bytes: &'a mut [u8; BYTES],
    pub filled: &'a mut [u8; FRAMES],
}

impl Frames<'_> {
    /// Frame f gets a page of the store, unless it is filled or the store has no such page: SPECIFICATION 13.9.
    pub fn fill(&mut self, store: &[u8], f: u8, page: u32)
        requires { length store.now ≡ page_bytes * self.old.pages }
        ensures loans { SameFrames self.old self.new }
        ensures bytes { self.new.bytes.now ≡ bytes_filled self.old.filled.now self.old.pages f page self.old.bytes.now store.now }
        ensures filled { self.new.filled.now ≡ marks_filled self.old.filled.now self.old.pages f page }
    {
        fill(self.bytes, self.filled, self.pages, store, f, page);
    }

    /// Frame f's byte at an offset; 0 where there is no such frame.
    pub fn byte(&self, f: u8, offset: u32) -> u8
        requires { offset < page_bytes }
        ensures { result ≡ byte_in self.now.bytes.now f offset }
    {
        let bytes: &[u8; BYTES] = self.bytes;
        let at = PAGE * usize::from(f) + offset as usize;
        bytes.get(at).copied().unwrap_or(0)
    }
}

/// What the frames hold, and the marks of those that were written since: what a write is lent, and a step. Flat, and no `Frames` within: whoever lends
/// what a struct inside another borrows does not know it afterwards.
#[derive(Drop)]
pub struct Content<'a> {
    /// How many pages the store has.
    pub pages: u16,
    pub bytes: &'a mut [u8; BYTES],
    pub filled: &'a mut [u8; FRAMES],
    pub changed: &'a mut [u8; FRAMES],
}

impl Content<'_> {
    /// All that an action does to store, bytes and marks, by what it writes to the pool: SPECIFICATION 13.6 to 13.8. `entry` is the frame of the entry
    /// that the write replaces, as it was before; a number as the table has it, NONE too, since no frame is asked for but by its number.
    pub fn follow(&mut self, store: &mut [u8], entry: u8, write: Write)
        requires { length store.old ≡ page_bytes * self.old.pages }
        ensures loans { SameContent self.old self.new }
        ensures store { store.new ≡ store_in self.old.pages self.old.bytes.now self.old.changed.now store.old entry write }
        ensures bytes { self.new.bytes.now ≡ bytes_after self.old.bytes.now entry write }
        ensures filled { self.new.filled.now ≡ marks_after self.old.filled.now entry write }
        ensures changed { self.new.changed.now ≡ marks_after self.old.changed.now entry write }
    {
        match write {
            Write::TakeFrame(f, _, _, _) => {
                let taken = usize::from(f);
                if taken < FRAMES {
                    self.filled[taken] = 0;
                    self.changed[taken] = 0;
                }
            }
            Write::PutEntry(_, page, NONE) => {
                if self.is_changed(entry) && page < u32::from(self.pages) {
                    self.save(store, page as usize, usize::from(entry));
                }
            }
            Write::PutEntry(_, _, f) => {
                let (from, to) = (usize::from(entry), usize::from(f));
                if from < FRAMES && to < FRAMES {
                    shift(self.bytes, from, to);
                    move_mark(self.filled, from, to);
                    move_mark(self.changed, from, to);
                }
            }
            _ => {}
        }
    }

    /// As `Frames::fill`.
    pub fn fill(&mut self, store: &[u8], f: u8, page: u32)
        requires { length store.now ≡ page_bytes * self.old.pages }
        ensures loans { SameContent self.old self.new }
        ensures bytes { self.new.bytes.now ≡ bytes_filled self.old.filled.now self.old.pages f page self.old.bytes.now store.now }
        ensures filled { self.new.filled.now ≡ marks_filled self.old.filled.now self.old.pages f page }
        ensures changed { self.new.changed.now ≡ self.old.changed.now }
    {
        fill(self.bytes, self.filled, self.pages, store, f, page);
    }

    /// Frame f gets a byte at an offset, and is changed: SPECIFICATION 13.9.
    pub fn write(&mut self, f: u8, offset: u32, byte: u8)
        ensures loans { SameContent self.old self.new }
        ensures bytes { self.new.bytes.now ≡ bytes_written self.old.bytes.now f offset byte }
        ensures filled { self.new.filled.now ≡ self.old.filled.now }
        ensures changed { self.new.changed.now ≡ marks_written self.old.changed.now f offset }
    {
        let at = usize::from(f);
        if at < FRAMES && offset < PAGE as u32 {
            self.bytes[PAGE * at + offset as usize] = byte;
            self.changed[at] = 1;
        }
    }

    /// A page of the store gets frame f's bytes.
    fn save(&self, store: &mut [u8], page: usize, f: usize)
        requires page { start page + page_bytes ≤ length store.old }
        requires frame { f < max_frames }
        ensures { store.new ≡ copied_page store.old page self.now.bytes.now f }
    {
        let bytes: &[u8; BYTES] = self.bytes;
        copy_page(store, PAGE * page, bytes, PAGE * f);
    }

    /// Whether frame f was written since it was filled.
    fn is_changed(&self, f: u8) -> bool
        ensures value { result ≡ mark self.now.changed.now f }
        ensures bound { result ≡ true → f < max_frames }
    {
        marked(self.changed, f)
    }
}

/// One frame's mark goes over to another, or stays where both are one.
fn move_mark(marks: &mut [u8; FRAMES], from: usize, to: usize)
    requires from { from < max_frames }
    requires to { to < max_frames }
    ensures { marks.new ≡ set (set marks.old from 0) to (get_or marks.old from 0) }
{
    marks[to] = std::mem::take(&mut marks[from]);
}
