ghost use Rattle.std.specs.Prelude.{◌≡◌, [], ◌∷◌, None};
ghost use Rattle.stores.specs.Meaning.{Reached};
ghost use Rattle.shelves.specs.Shelves.{TouchedAs, Good, Kept, place_of, recounted, written_back, touch_accesses, writes_back};
ghost use Rattle.places.specs.Places.{list_of};
ghost use Rattle.shelf.specs.Shelf.{Did, Does, above_refused};

use super::Shelf;
use refusals::Fault;
use shelves::Entry;
use stores::{ABOVE_TOP, PAST_COUNT, TileStore, fault, raised};

// Writes an entry to the store below, if it was changed.
pub(crate) fn write_back<S: TileStore>(below: &mut S, entry: &Entry)
    ensures { Good (S.meaning below.old) entry.now → Did (Reached S.steps below.old (writes_back (entry.now ∷ [])) below.new) (S.meaning below.new ≡ written_back (S.meaning below.old) (entry.now ∷ [])) }
{
    if entry.changed {
        let _ = below.write(entry.tile, &entry.bytes);
    }
}

// Writes the changed ones of some entries to the store below, first to last.
pub(crate) fn write_all_back<S: TileStore>(below: &mut S, entries: &[Entry])
    ensures { Kept (S.meaning below.old) entries.now → Did (Reached S.steps below.old (writes_back entries.now) below.new) (S.meaning below.new ≡ written_back (S.meaning below.old) entries.now) }
{
    for entry in entries {
        write_back(below, entry);
    }
}

impl<S: TileStore> Shelf<S> {
    /// Begins the count of fetches anew.
    pub fn recount(&mut self)
        ensures { Does self.old self.new (λ _. []) (λ h h'. h' ≡ recounted h) }
    {
        self.fetches = 0;
    }

    // Refuses a byte above the top, if tile k exists. If it does not, the touch refuses its number.
    pub(crate) fn check_top(&self, k: u32, above: bool) -> Result<(), Fault>
        ensures { result ≡ above_refused (S.meaning self.now.below) k above }
    {
        if above && k < self.below.count() {
            Err(fault(ABOVE_TOP, k))
        } else {
            Ok(())
        }
    }

    // Tile k comes to the front, by a fetch if it is not on the shelf.
    pub(crate) fn touch(&mut self, k: u32) -> Result<(), Fault>
        ensures { Does self.old self.new (λ h. touch_accesses h k) (λ h h'. TouchedAs h k result h') }
    {
        if self.places.front_is(k) {
            return Ok(());
        }
        match self.places.find(k) {
            Some(p) => {
                self.places.move_to_front(p);
                Ok(())
            }
            None => self.fetch(k),
        }
    }

    // Tile k, which is not on the shelf, comes from below to the front.
    fn fetch(&mut self, k: u32) -> Result<(), Fault>
        requires { place_of (list_of self.old.places) k ≡ None }
        ensures { Does self.old self.new (λ h. touch_accesses h k) (λ h h'. TouchedAs h k result h') }
    {
        if k >= self.below.count() {
            return Err(fault(PAST_COUNT, k));
        }
        let mut bytes = [0; 64];
        raised(self.below.read(k, &mut bytes))?;
        let entry = Entry {
            tile: k,
            changed: false,
            bytes,
        };
        if let Some(last) = self.places.admit(entry) {
            write_back(&mut self.below, &last);
        }
        self.fetches = self.fetches.saturating_add(1);
        Ok(())
    }
}
