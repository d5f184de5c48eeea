ghost use Rattle.std.specs.Prelude.{slice_set};
ghost use Rattle.stores.specs.Meaning.{tile_of};
ghost use Rattle.shelves.specs.Shelves.{ByteRead, BytePut, store_of, touch_accesses, write_accesses};
ghost use Rattle.shelf.specs.Shelf.{Does};

use super::Shelf;
use places::Offset;
use refusals::Fault;
use stores::TileStore;

impl<S: TileStore> Shelf<S> {
    /// The byte at an offset of tile k, with the touch of a read of that tile.
    pub fn get(&mut self, k: u32, at: Offset) -> Result<u8, Fault>
        ensures { Does self.old self.new (λ h. touch_accesses h k) (λ h h'. ByteRead h k at.index result h') }
    {
        self.touch(k)?;
        Ok(self.places.front_byte(at))
    }

    /// Puts a byte at an offset of tile k, with the touch and the change of a write of that tile.
    pub fn put(&mut self, k: u32, at: Offset, byte: u8) -> Result<(), Fault>
        ensures { Does self.old self.new (λ h. write_accesses h k (slice_set (tile_of (store_of h) k) at.index byte)) (λ h h'. BytePut h k at.index byte result h') }
    {
        self.check_top(k, byte > self.below.top())?;
        self.touch(k)?;
        self.places.put_front(at, byte);
        Ok(())
    }
}
