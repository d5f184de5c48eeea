ghost use Rattle.std.specs.Prelude.{◌≡◌, ◌*◌, ◌<◌, ◌≤◌, Ok, Err, vec_len};
ghost use Rattle.stores.specs.Meaning.{ReadAs, WrittenAs, past, count as tiles_of};
ghost use Rattle.stores.specs.Layouts.{image, memory_after, tiles_in};
ghost use Rattle.stores.specs.Raw.{whole_tiles};
ghost use Rattle.stores.specs.Images.{image_lawful};

use super::Image;
use crate::layout::Layout;
use crate::raw::{are_bytes, whole_tiles};
use crate::refuse::{ABOVE_TOP, PAST_COUNT, any_above, fault};
use crate::tile_store::TileStore;
use refusals::Fault;
use std::marker::PhantomData;

impl<L: Layout> Image<L> {
    /// The store that lies in this memory, of whatever length.
    pub fn new(memory: Vec<u8>) -> Image<L>
        ensures { result.memory ≡ memory }
    {
        are_bytes(memory.as_slice());
        Image {
            memory,
            layout: PhantomData,
        }
    }

    /// The memory that the store lies in.
    pub fn into_memory(self) -> Vec<u8>
        ensures { result ≡ self.memory }
    {
        let Image { memory, layout: _ } = self;
        memory
    }

    // Where the bytes of tile k begin in the memory.
    fn start(&self, k: u32) -> Result<usize, Fault>
        ensures { elim result [ Ok at ↦ (at ≡ L.form.size * k) × (k < tiles_in L.form self.now.memory.items) | Err f ↦ (tiles_in L.form self.now.memory.items ≤ k) × (f ≡ past k) ] }
    {
        if k < self.count() {
            Ok(k as usize * L::SIZE)
        } else {
            Err(fault(PAST_COUNT, k))
        }
    }
}

impl<L: Layout> TileStore for Image<L> {
    ghost meaning = { λ s. image L.form s.memory.items };

    ghost lawful = { λ s. image_lawful L.form s.memory.items L.sound s.bytes };

    fn count(&self) -> u32
        ensures counts { result ≡ tiles_of (image L.form self.now.memory.items) }
        ensures whole { result ≡ whole_tiles L.form.size (vec_len self.now.memory) }
    {
        whole_tiles(self.memory.len(), L::SIZE)
    }

    fn top(&self) -> u8 {
        L::TOP
    }

    fn read(&mut self, k: u32, out: &mut [u8; 64]) -> Result<(), Fault>
        ensures does { ReadAs (image L.form self.old.memory.items) k out.old result out.new (image L.form self.new.memory.items) }
        ensures raw { self.new.memory.items ≡ self.old.memory.items }
    {
        let from = self.start(k)?;
        L::check(k, self.memory[from])?;
        L::unpack(&self.memory[from + L::SKIP..from + L::SIZE], out);
        Ok(())
    }

    fn write(&mut self, k: u32, bytes: &[u8; 64]) -> Result<(), Fault>
        ensures does { WrittenAs (image L.form self.old.memory.items) k bytes.now result (image L.form self.new.memory.items) }
        ensures raw { self.new.memory.items ≡ memory_after L.form result self.old.memory.items k bytes.now }
    {
        let to = self.start(k)?;
        if any_above(bytes, L::TOP) {
            return Err(fault(ABOVE_TOP, k));
        }
        L::check(k, self.memory[to])?;
        L::pack(bytes, &mut self.memory[to + L::SKIP..to + L::SIZE]);
        Ok(())
    }
}
