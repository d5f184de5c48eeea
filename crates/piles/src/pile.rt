ghost use Rattle.std.specs.Prelude.{◌≡◌};
ghost use Rattle.stores.specs.Meaning.{ReadAs, WrittenAs};
ghost use Rattle.piles.specs.Piles.{pile_of, is_windowed};
ghost use Rattle.piles.specs.Lawful.{pile_lawful};

use super::choice::Pile;
use refusals::Fault;
use stores::TileStore;

impl TileStore for Pile {
    ghost meaning = { pile_of };

    ghost lawful = { pile_lawful };

    fn count(&self) -> u32 {
        match self {
            Pile::Plain(store) => store.count(),
            Pile::Windowed(store) => store.count(),
        }
    }

    fn top(&self) -> u8 {
        match self {
            Pile::Plain(store) => store.top(),
            Pile::Windowed(store) => store.top(),
        }
    }

    fn read(&mut self, k: u32, out: &mut [u8; 64]) -> Result<(), Fault>
        ensures does { ReadAs (pile_of self.old) k out.old result out.new (pile_of self.new) }
        ensures kind { is_windowed self.new ≡ is_windowed self.old }
    {
        match self {
            Pile::Plain(store) => store.read(k, out),
            Pile::Windowed(store) => store.read(k, out),
        }
    }

    fn write(&mut self, k: u32, bytes: &[u8; 64]) -> Result<(), Fault>
        ensures does { WrittenAs (pile_of self.old) k bytes.now result (pile_of self.new) }
        ensures kind { is_windowed self.new ≡ is_windowed self.old }
    {
        match self {
            Pile::Plain(store) => store.write(k, bytes),
            Pile::Windowed(store) => store.write(k, bytes),
        }
    }
}
