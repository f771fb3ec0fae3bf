// The question to a timing test.
ghost use Rattle.std.specs.Prelude.{◌≡◌, Decides, length};
ghost use Rattle.timing.specs.Places.{Proper, proper};

use super::items::Item;
use super::places::{PlaceSet, is_proper};

// Does the item at `place` of the table pass, with the items of one set above it and those of
// another below it? Items in neither set are not there.
#[derive(Clone, Copy)]
pub struct Question<'a> {
    pub table: &'a [Item],
    pub place: usize,
    pub above: PlaceSet,
    pub below: PlaceSet,
}

impl Question<'_> {
    // Whether the question is proper.
    pub fn is_proper(self) -> bool
        ensures test { result ≡ proper (length self.entry.table.now) self.entry.place self.entry.above.bits self.entry.below.bits }
        ensures means { Decides result (Proper (length self.entry.table.now) self.entry.place self.entry.above.bits self.entry.below.bits) }
    {
        is_proper(self.table.len(), self.place, self.above, self.below)
    }
}
