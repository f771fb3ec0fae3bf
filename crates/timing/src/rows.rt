// What a test described by rows is given.
ghost use Rattle.std.specs.Prelude.{◌≤◌, length};
ghost use Rattle.timing.specs.Places.{most_items};

use super::items::Item;
use super::places::PlaceSet;

// The items of a table at the places of a set, in table order. No table has more items than a set
// has places.
#[derive(Clone, Copy)]
pub struct Row<'a> {
    pub table: &'a [Item],
    pub set: PlaceSet,
    ghost few: { length table.now ≤ most_items },
}
