ghost use Rattle.stores.specs.Meaning.{ReadAs, WrittenAs, reading, writing};
ghost use Rattle.shelves.specs.Shelves.{TileRead, TileWritten, store_of, touch_accesses, write_accesses};
ghost use Rattle.shelf.specs.Shelf.{shelved, Does, ShelfSteps};
ghost use Rattle.shelves.proofs.Showing.{shelf_lawful};
ghost use Rattle.places.specs.Places.{list_of};

use super::Shelf;
use refusals::Fault;
use stores::{TileStore, any_above};

impl<S: TileStore> Shelf<S> {
    // Copies the bytes of tile k, which is touched.
    fn read_whole(&mut self, k: u32, out: &mut [u8; 64]) -> Result<(), Fault>
        ensures { Does self.old self.new (λ h. touch_accesses h k) (λ h h'. TileRead h k out.old result out.new h') }
    {
        self.touch(k)?;
        self.places.read_front(out);
        Ok(())
    }

    // Replaces the bytes of tile k, which is touched and changed.
    fn write_whole(&mut self, k: u32, bytes: &[u8; 64]) -> Result<(), Fault>
        ensures { Does self.old self.new (λ h. write_accesses h k bytes.now) (λ h h'. TileWritten h k bytes.now result h') }
    {
        self.check_top(k, any_above(bytes, self.below.top()))?;
        self.touch(k)?;
        self.places.write_front(bytes);
        Ok(())
    }
}

impl<S: TileStore> TileStore for Shelf<S> {
    ghost meaning = { λ h. store_of (shelved h) };

    ghost steps = { ShelfSteps };

    ghost lawful = { λ s. shelf_lawful (list_of s.places) (S.meaning s.below) (S.lawful s.below) s.kept };

    fn count(&self) -> u32 {
        self.below.count()
    }

    fn top(&self) -> u8 {
        self.below.top()
    }

    fn read(&mut self, k: u32, out: &mut [u8; 64]) -> Result<(), Fault>
        ensures does { ReadAs (store_of (shelved self.old)) k out.old result out.new (store_of (shelved self.new)) }
        ensures steps { ShelfSteps self.old (reading k) self.new }
        ensures leaves { Does self.old self.new (λ h. touch_accesses h k) (λ h h'. TileRead h k out.old result out.new h') }
    {
        self.read_whole(k, out)
    }

    fn write(&mut self, k: u32, bytes: &[u8; 64]) -> Result<(), Fault>
        ensures does { WrittenAs (store_of (shelved self.old)) k bytes.now result (store_of (shelved self.new)) }
        ensures steps { ShelfSteps self.old (writing k bytes.now) self.new }
        ensures leaves { Does self.old self.new (λ h. write_accesses h k bytes.now) (λ h h'. TileWritten h k bytes.now result h') }
    {
        self.write_whole(k, bytes)
    }
}
