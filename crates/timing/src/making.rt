// Making an item.
ghost use Rattle.timing.specs.Items.{Made};

use super::items::Item;
use super::refusals::ItemRefusal;
use chain::MOST_TICKS;

impl Item {
    // The item of these numbers, or a refusal where they are outside the limits.
    pub fn new(length: u32, period: u32, window: u32) -> Result<Item, ItemRefusal>
        ensures { Made length period window result }
    {
        if 1 <= length && length <= window && window <= period && period <= MOST_TICKS {
            Ok(Item {
                length,
                period,
                window,
            })
        } else {
            Err(ItemRefusal::OutsideLimits {
                length,
                period,
                window,
            })
        }
    }
}
