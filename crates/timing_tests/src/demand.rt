// How much work a time has to cover, and the least time that covers it.
ghost use Rattle.std.specs.Prelude.{◌≡◌, ◌*◌, ◌^◌, ◌≤◌, ◌∷◌};
ghost use Rattle.timing.specs.RowLaws.{Least};
ghost use Rattle.timing.specs.Rows.{items_of};
ghost use Rattle.timing_tests.specs.Demand.{interference, longest, releases};
ghost use Rattle.timing_tests.specs.Steps.{Covered, first, overload, share, shares};

use timing::items::Item;
use timing::rows::Row;

// The functions below that have a parameter INCLUSIVE serve both tests, which differ in the releases
// that count up to a tick t: on a board those before it, on the bus those at it too. A constant, so
// that each test gets loops of its own with nothing to decide inside; a closure would be passed
// through as many functions, and each would have to say what it gives. That t is at most 1,000,000
// comes from the limit that `settled` keeps to; a type for it would be made anew each turn.

// How often an item is released inside its first period.
fn first_releases<const INCLUSIVE: bool>(t: u32) -> u32
    ensures { result ≡ first INCLUSIVE t }
{
    if INCLUSIVE { 1 } else { t.min(1) }
}

// How often an item of this period is released, by a division.
fn all_releases<const INCLUSIVE: bool>(t: u32, period: u32) -> u32
    requires small { t ≤ 1000000 }
    requires some { 1 ≤ period }
    ensures { result ≡ releases INCLUSIVE t period }
{
    if INCLUSIVE {
        t / period + 1
    } else {
        t.div_ceil(period)
    }
}

// How often an item of this period is released. Most periods are longer than the times asked
// about, and then no division is needed.
#[tactic(auto, using(crate::proofs::Demands::releases_first))]
fn releases_of<const INCLUSIVE: bool>(t: u32, period: u32) -> u32
    requires small { t ≤ 1000000 }
    requires some { 1 ≤ period }
    ensures { result ≡ releases INCLUSIVE t period }
{
    if t < period {
        first_releases::<INCLUSIVE>(t)
    } else {
        all_releases::<INCLUSIVE>(t, period)
    }
}

// The work that one item brings.
#[tactic(auto, using(crate::proofs::Demands::work_bounded))]
fn work_of<const INCLUSIVE: bool>(item: Item, t: u32) -> u32
    requires { t ≤ 1000000 }
    ensures work { result ≡ releases INCLUSIVE t item.period * item.length }
    ensures small { result ≤ 2000000 }
{
    releases_of::<INCLUSIVE>(t, item.period) * item.length
}

// The work that the items above bring: a loop over the table with the place counted beside it, by a
// rule of the project. An item's work is worked out before its bit is looked at: a jump over it would
// be foreseen wrongly half the time, which costs more than the work.
#[tactic(auto, using(timing::specs::Lemmas::Choosing::chosen_skipped, crate::proofs::Demands::interference_taken))]
fn interference_of<const INCLUSIVE: bool>(above: Row<'_>, t: u32) -> u32
    requires { t ≤ 1000000 }
    ensures sum { result ≡ interference INCLUSIVE (items_of above.entry) t }
    ensures small { result ≤ 64000000 }
{
    let mut sum = 0u32;
    for (place, item) in above.table.iter().enumerate() {
        let work = work_of::<INCLUSIVE>(*item, t);
        if above.set.has(place) {
            sum += work;
        }
    }
    sum
}

// What an item takes of a board or of the bus, in units of 2 ^ 32 to the whole, rounded down.
#[tactic(auto, using(crate::proofs::Demands::share_small))]
fn share_of(item: Item) -> u64
    ensures share { result ≡ share item }
    ensures small { result ≤ 2 ^ 32 }
{
    u64::from(item.length) * 4_294_967_296 / u64::from(item.period)
}

// What the items above take together. A loop as the one before: as a chain of `enumerate`, `filter`,
// `map` and `sum` its proof did not close.
#[tactic(auto, using(timing::specs::Lemmas::Choosing::chosen_skipped, crate::proofs::Demands::shares_taken))]
fn shares_of(above: Row<'_>) -> u64
    ensures sum { result ≡ shares (items_of above.entry) }
    ensures small { result ≤ 32 * 2 ^ 32 }
{
    let mut sum = 0u64;
    for (place, item) in above.table.iter().enumerate() {
        if above.set.has(place) {
            sum += share_of(*item);
        }
    }
    sum
}

// Whether an item and the items above need more than the whole board or bus. Cold, since few questions
// come to it, so that it is kept out of the way of the turns.
#[cold]
fn is_overload(item: Item, above: Row<'_>) -> bool
    ensures { result ≡ overload item (items_of above.entry) }
{
    share_of(item) + shares_of(above) > 4_294_967_296
}

// The least time up to `limit` that covers `base`, in which the item itself is counted, and what
// the items above bring. The demand never falls as t grows, so where t does not cover it, nothing
// before the demand itself does. Where the items together need more than the whole board or bus,
// there is none up to the item's period, and none is looked for past the first turns; those settle
// most questions, and cost less than the shares.
#[tactic(auto, using(crate::proofs::Demands::interference_rises))]
pub(super) fn settled<const INCLUSIVE: bool>(
    above: Row<'_>,
    item: Item,
    base: u32,
    limit: u32,
) -> Option<u32>
    requires own { item.length ≤ base }
    requires based { base ≤ 1000000 }
    requires limited { limit ≤ item.period }
    ensures { Least (Covered INCLUSIVE (items_of above.entry) base limit) result }
{
    let mut t = base;
    // each turn raises t by a tick at least, so these are enough for any limit
    for turn in 0..1_000_000u32 {
        if t > limit {
            return None;
        }
        let demand = base + interference_of::<INCLUSIVE>(above, t);
        if demand <= t {
            return Some(t);
        }
        if turn == 8 && is_overload(item, above) {
            return None;
        }
        t = demand;
    }
    None
}

// The longest length of the items of a row, 0 where it has none. A length is read before its bit is
// looked at, as the work above is worked out: read behind it, as a `filter` would have it, the tests
// miss the speed that they have by a third. A fold for this and the two sums would be handed what to add
// and in which order to look, and be no plainer.
#[tactic(auto, using(timing::specs::Lemmas::Choosing::chosen_skipped, crate::proofs::Demands::longest_taken, crate::proofs::Demands::longest_small))]
fn longest_of(row: Row<'_>) -> u32
    ensures longest { result ≡ longest (items_of row.entry) }
    ensures small { result ≤ 1000000 }
{
    let mut most = 0u32;
    for (place, item) in row.table.iter().enumerate() {
        let length = item.length;
        if row.set.has(place) {
            most = most.max(length);
        }
    }
    most
}

// The longest length among an item and the items below it.
pub(super) fn blocking_of(item: Item, below: Row<'_>) -> u32
    ensures longest { result ≡ longest (item ∷ items_of below.entry) }
    ensures small { result ≤ 1000000 }
{
    item.length.max(longest_of(below))
}
