ghost use Rattle.std.specs.Prelude.{◌≡◌, ◌+◌};
ghost use Rattle.stores.specs.Layers.{window, accesses};
ghost use Rattle.stores.specs.Meaning.{ReadAs, WrittenAs, Reached, reading, writing, store_after};
ghost use Rattle.stores.specs.Stacks.{WindowsStack};
ghost use Rattle.stores.specs.Stores.{of_window};
ghost use Rattle.stores.specs.Windows.{window_lawful};

use super::refuse::{ABOVE_TOP, PAST_COUNT, any_above, fault, raised};
use super::tile_store::TileStore;
use refusals::Fault;

/// A window over a store: some of the tiles of the store below, from one of them on.
///
/// It refuses tile numbers past its own count and bytes above the top by itself. The fault of a tile
/// that is not sound comes up from below as it is, one level higher.
#[derive(Drop)]
pub struct Window<S> {
    below: S,
    first: u32,
    most: u32,
}

impl<S: TileStore> Window<S> {
    /// The window that shows `tiles` tiles of the store below from tile `first` on, or as many as exist.
    pub fn new(below: S, first: u32, tiles: u32) -> Window<S>
        ensures stacks { WindowsStack }
        ensures over { result.below ≡ below }
        ensures means { of_window S.meaning result ≡ window first tiles (S.meaning below) }
    {
        Window {
            below,
            first,
            most: tiles,
        }
    }

    /// The store below.
    pub fn into_below(self) -> S
        ensures { result ≡ self.below }
    {
        let Window {
            below,
            first: _,
            most: _,
        } = self;
        below
    }
}

impl<S: TileStore> TileStore for Window<S> {
    ghost meaning = { λ w. of_window S.meaning w };

    ghost steps = { λ w a w'. Reached S.steps w.below (accesses w.first w.most (S.meaning w.below) a) w'.below };

    ghost lawful = { λ s. window_lawful (S.meaning s.below) s.first s.most (S.lawful s.below) };

    fn count(&self) -> u32 {
        self.below.count().saturating_sub(self.first).min(self.most)
    }

    fn top(&self) -> u8 {
        self.below.top()
    }

    fn read(&mut self, k: u32, out: &mut [u8; 64]) -> Result<(), Fault>
        ensures does { ReadAs (of_window S.meaning self.old) k out.old result out.new (of_window S.meaning self.new) }
        ensures steps { Reached S.steps self.old.below (accesses self.old.first self.old.most (S.meaning self.old.below) (reading k)) self.new.below }
        ensures below { S.meaning self.new.below ≡ S.meaning self.old.below }
        ensures first { self.new.first ≡ self.old.first }
        ensures most { self.new.most ≡ self.old.most }
    {
        if k >= self.count() {
            return Err(fault(PAST_COUNT, k));
        }
        raised(self.below.read(self.first.saturating_add(k), out))
    }

    fn write(&mut self, k: u32, bytes: &[u8; 64]) -> Result<(), Fault>
        ensures does { WrittenAs (of_window S.meaning self.old) k bytes.now result (of_window S.meaning self.new) }
        ensures steps { Reached S.steps self.old.below (accesses self.old.first self.old.most (S.meaning self.old.below) (writing k bytes.now)) self.new.below }
        ensures below { S.meaning self.new.below ≡ store_after result (S.meaning self.old.below) (self.old.first + k) bytes.now }
        ensures first { self.new.first ≡ self.old.first }
        ensures most { self.new.most ≡ self.old.most }
    {
        if k >= self.count() {
            return Err(fault(PAST_COUNT, k));
        }
        if any_above(bytes, self.top()) {
            return Err(fault(ABOVE_TOP, k));
        }
        raised(self.below.write(self.first.saturating_add(k), bytes))
    }
}
