ghost use Rattle.piles.specs.Piles.{any_store_of};
ghost use Rattle.piles.specs.Lawful.{any_lawful};

use super::choice::AnyStore;
use refusals::Fault;
use stores::TileStore;

impl TileStore for AnyStore {
    ghost meaning = { any_store_of };

    ghost lawful = { any_lawful };

    fn count(&self) -> u32 {
        match self {
            AnyStore::Memory(store) => store.count(),
            AnyStore::Card(store) => store.count(),
            AnyStore::Bits(store) => store.count(),
        }
    }

    fn top(&self) -> u8 {
        match self {
            AnyStore::Memory(store) => store.top(),
            AnyStore::Card(store) => store.top(),
            AnyStore::Bits(store) => store.top(),
        }
    }

    fn read(&mut self, k: u32, out: &mut [u8; 64]) -> Result<(), Fault> {
        match self {
            AnyStore::Memory(store) => store.read(k, out),
            AnyStore::Card(store) => store.read(k, out),
            AnyStore::Bits(store) => store.read(k, out),
        }
    }

    fn write(&mut self, k: u32, bytes: &[u8; 64]) -> Result<(), Fault> {
        match self {
            AnyStore::Memory(store) => store.write(k, bytes),
            AnyStore::Card(store) => store.write(k, bytes),
            AnyStore::Bits(store) => store.write(k, bytes),
        }
    }
}
