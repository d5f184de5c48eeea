ghost use Rattle.std.specs.Prelude.{◌≡◌, ◌≤◌, [], map, length};
ghost use Rattle.shelves.specs.Shelves.{cleaned, entry_at, place_of, over_front, with_byte};
ghost use Rattle.places.specs.Places.{list_of, front_is, moved_to_front, admitted, cleaned_at, front_bytes, front_byte};

use super::Places;
use crate::offset::Offset;
use arrayvec::ArrayVec;
use shelves::Entry;

impl Places {
    /// Places with no tile in them.
    pub fn new() -> Places
        ensures { list_of result ≡ [] }
    {
        Places {
            entries: ArrayVec::new(),
        }
    }

    /// The tiles, front first.
    pub fn list(&self) -> &[Entry]
        ensures is { result.now ≡ list_of self.now }
        ensures few { length result.now ≤ 64 }
    {
        self.entries.as_slice()
    }

    /// How many tiles there are.
    pub fn len(&self) -> usize
        ensures is { result ≡ length (list_of self.now) }
        ensures few { result ≤ 64 }
    {
        self.entries.len()
    }

    /// The place of tile k, if it is there.
    pub fn find(&self, k: u32) -> Option<usize>
        ensures { result ≡ place_of (list_of self.now) k }
    {
        self.list().iter().position(|entry| entry.tile == k)
    }

    /// Whether tile k is in front.
    pub fn front_is(&self, k: u32) -> bool
        ensures { result ≡ front_is (list_of self.now) k }
    {
        self.list().first().is_some_and(|entry| entry.tile == k)
    }

    /// The entry at place p comes to the front, and those before it go one place back.
    pub fn move_to_front(&mut self, p: usize)
        ensures { list_of self.new ≡ moved_to_front (list_of self.old) p }
    {
        if p < self.len() {
            self.entries.as_mut_slice()[0..p + 1].rotate_right(1);
        }
    }

    /// Puts an entry in front. If 64 were there, the last one leaves and is the answer.
    pub fn admit(&mut self, entry: Entry) -> Option<Entry>
        ensures leaves { list_of self.new ≡ admitted (list_of self.old) entry }
        ensures last { result ≡ entry_at (list_of self.old) 63 }
    {
        let last = if self.entries.is_full() {
            self.entries.pop()
        } else {
            None
        };
        self.entries.insert(0, entry);
        last
    }

    /// The entry at place p as it is, if there is one; its mark of a change is cleared.
    pub fn clear_mark(&mut self, p: usize) -> Option<Entry>
        ensures leaves { list_of self.new ≡ cleaned_at (list_of self.old) p }
        ensures was { result ≡ entry_at (list_of self.old) p }
    {
        let entry = self.entries.get_mut(p)?;
        let was = *entry;
        entry.changed = false;
        Some(was)
    }

    /// Clears the mark of a change of every entry.
    pub fn clear_marks(&mut self)
        ensures { list_of self.new ≡ map cleaned (list_of self.old) }
    {
        for each in self.entries.as_mut_slice() {
            each.changed = false;
        }
    }

    /// A byte of the front tile, 0 if there is no tile.
    pub fn front_byte(&self, at: Offset) -> u8
        ensures { result ≡ front_byte (list_of self.now) at.index }
    {
        self.list()
            .first()
            .map_or(0, |entry| entry.bytes[at.index()])
    }

    /// Copies the bytes of the front tile, if there is one.
    pub fn read_front(&self, out: &mut [u8; 64])
        ensures { out.new ≡ front_bytes (list_of self.now) out.old }
    {
        if let Some(entry) = self.list().first() {
            *out = entry.bytes;
        }
    }

    /// Sets a byte of the front tile, if there is one, which marks it as changed.
    pub fn put_front(&mut self, at: Offset, byte: u8)
        ensures { list_of self.new ≡ with_byte (list_of self.old) at.index byte }
    {
        if let Some(front) = self.entries.get_mut(0) {
            front.bytes[at.index()] = byte;
            front.changed = true;
        }
    }

    /// Replaces the bytes of the front tile, if there is one, which marks it as changed.
    pub fn write_front(&mut self, bytes: &[u8; 64])
        ensures { list_of self.new ≡ over_front (list_of self.old) bytes.now }
    {
        if let Some(entry) = self.entries.get_mut(0) {
            entry.bytes = *bytes;
            entry.changed = true;
        }
    }
}
