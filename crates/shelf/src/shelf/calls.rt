ghost use Rattle.std.specs.Prelude.{◌≡◌, ◌≤◌, [], ◌∷◌, length};
ghost use Rattle.stores.specs.Meaning.{Reached, reading};
ghost use Rattle.shelves.specs.Shelves.{SettledAs, BelowRead, settled, writes_back};
ghost use Rattle.shelves.specs.Runs.{ShelfLaw};
ghost use Rattle.places.specs.Places.{list_of};
ghost use Rattle.shelf.specs.Shelf.{shelved, Did, Does};

use super::Shelf;
use super::touch::write_all_back;
use places::Places;
use refusals::Fault;
use shelves::Entry;
use stores::TileStore;

impl<S: TileStore> Shelf<S> {
    /// An empty shelf over a store.
    pub fn new(below: S) -> Shelf<S>
        ensures law { ShelfLaw }
        ensures empty { shelved result ≡ record { list = []; below = S.meaning below; fetches = 0 } }
    {
        Shelf {
            below,
            places: Places::new(),
            fetches: 0,
        }
    }

    /// The tiles on the shelf by last use, front first.
    pub fn list(&self) -> &[Entry]
        ensures is { result.now ≡ (shelved self.now).list }
        ensures few { length result.now ≤ 64 }
    {
        self.places.list()
    }

    /// How many tiles were fetched since the shelf was made or the count begun anew, at most 2^64−1.
    pub fn fetches(&self) -> u64
        ensures { result ≡ (shelved self.now).fetches }
    {
        self.fetches
    }

    /// Writes the changed tiles below, front first; then none is changed.
    pub fn settle(&mut self)
        ensures { Does self.old self.new (λ h. writes_back h.list) SettledAs }
    {
        write_all_back(&mut self.below, self.places.list());
        self.places.clear_marks();
    }

    /// Reads tile k of the store below, as that store answers, and touches nothing.
    pub fn read_below(&mut self, k: u32, out: &mut [u8; 64]) -> Result<(), Fault>
        ensures { Does self.old self.new (λ h. reading k ∷ []) (λ h h'. BelowRead h k out.old result out.new h') }
    {
        self.below.read(k, out)
    }

    /// Settles the shelf, and gives the store below back.
    pub fn into_below(mut self) -> S
        ensures { Did (Reached S.steps self.below (writes_back (shelved self).list) result) (S.meaning result ≡ (settled (shelved self)).below) }
    {
        self.settle();
        let Shelf {
            below,
            places: _,
            fetches: _,
        } = self;
        below
    }
}
