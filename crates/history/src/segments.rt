// Entries in segments, so that none is moved to make room for those that follow.

ghost use Rattle.std.specs.Prelude.{◌≡◌, ◌<◌, ◌*◌, ◌++◌, ◌∷◌, [], length, take, drop, option_map, slice_get, OnOk};
ghost use Rattle.history.specs.Segments.{HasRoom, IsSegmented, entries_of};

use crate::entry::Entry;
use std::alloc::{AllocError, Global};
use std::mem;

// The entries of a full segment. At 1,024 a million entries have fewer than 1,000 segments, whose list is
// short to move, and a position is parted by a shift and a mask.
pub const SEGMENT: usize = 1024;

// Entries in segments: full ones, and the last, which may be shorter. They are counted, so that a position
// costs neither a sum nor a product.
#[derive(Drop)]
pub struct Segments {
    full: Vec<Vec<Entry>>,
    last: Vec<Entry>,
    count: usize,
}

impl Segments {
    // No entries, and no room for one.
    pub fn new(alloc: Global) -> Segments
        ensures segmented { IsSegmented result }
        ensures none { entries_of result ≡ [] }
    {
        Segments {
            full: Vec::new(alloc),
            last: Vec::new(alloc),
            count: 0,
        }
    }

    // How many entries there are.
    pub fn len(&self) -> usize
        requires { IsSegmented self.now }
        ensures { result ≡ length (entries_of self.now) }
    {
        self.count
    }

    // Makes room for an entry more. A segment gets its whole room at once.
    pub fn make_room(&mut self, alloc: Global) -> Result<(), AllocError>
        requires { IsSegmented self.old }
        ensures segmented { IsSegmented self.new }
        ensures same { entries_of self.new ≡ entries_of self.old }
        ensures room { OnOk result (HasRoom self.new) }
    {
        let used = self.last.len();
        if used < SEGMENT {
            return self.last.reserve(SEGMENT - used);
        }
        self.full.reserve(1)?;
        let next = Vec::with_capacity(alloc, SEGMENT)?;
        let last = mem::replace(&mut self.last, next);
        self.full.push_reserved(last);
        Ok(())
    }

    // Adds an entry, for which there is room.
    pub fn push(&mut self, entry: Entry)
        requires segmented { IsSegmented self.old }
        requires room { HasRoom self.old }
        requires few { length (entries_of self.old) < 1000000 }
        ensures segmented { IsSegmented self.new }
        ensures entries { entries_of self.new ≡ entries_of self.old ++ entry ∷ [] }
    {
        self.last.push_reserved(entry);
        self.count += 1;
    }

    // The segment with this index.
    pub fn segment(&self, index: usize) -> &[Entry]
        requires segmented { IsSegmented self.now }
        requires inside { index * 1024 < length (entries_of self.now) }
        ensures { result.now ≡ take 1024 (drop (index * 1024) (entries_of self.now)) }
    {
        match self.full.get(index) {
            Some(entries) => entries,
            None => &self.last,
        }
    }

    // The entry with this index, if there is one.
    pub fn get(&self, index: usize) -> Option<&Entry>
        requires { IsSegmented self.now }
        ensures { option_map (λ entry. entry.now) result ≡ slice_get (entries_of self.now) index }
    {
        if index >= self.count {
            return None;
        }
        self.segment(index / SEGMENT).get(index % SEGMENT)
    }
}
