// Sets of places of a table.
ghost use Rattle.std.specs.Prelude.{◌≡◌, ◌/◌, ◌%◌, ◌^◌, ◌<◌, ◌≤◌, true, ltb, if◌then◌else◌, Decides, ◌==◌, bit_and, nat_lt};
ghost use Rattle.timing.specs.Places.{Proper, holds, most_items, proper, proper_test, with_place, without_place};

// A set of places from 0 to 31: place p is in it if bit p is set. Bits and no collection, by a rule of
// the project.
#[derive(Clone, Copy, Debug, PartialEq, Eq)]
pub struct PlaceSet {
    pub bits: u32,
}

// The number with one bit set.
#[tactic(auto, using(std::proofs::lemmas::Nat::one_shl))]
fn bit_of(place: usize) -> u32
    requires { place < most_items }
    ensures { result ≡ 2 ^ place }
{
    1 << place
}

impl PlaceSet {
    // The set that holds no place. Its name says which set it is, as `default` would not.
    pub fn none() -> PlaceSet
        ensures { result.bits ≡ 0 }
    {
        PlaceSet { bits: 0 }
    }

    // Whether the set holds a place; none from 32 on.
    #[tactic(auto, using(crate::specs::Lemmas::Sets::none_past), unfolding(crate::specs::Places::holds))]
    pub fn has(self, place: usize) -> bool
        ensures held { result ≡ holds self.bits place }
        ensures inside { result ≡ true → place < most_items }
    {
        place < 32 && (self.bits >> place) % 2 == 1
    }

    // The set and one place; no place from 32 on is ever in a set.
    pub fn with(self, place: usize) -> PlaceSet
        ensures { result.bits ≡ (if ltb place most_items then with_place self.bits place else self.bits) }
    {
        if place < 32 {
            PlaceSet {
                bits: self.bits | bit_of(place),
            }
        } else {
            self
        }
    }

    // The set less one place.
    pub fn without(self, place: usize) -> PlaceSet
        ensures { result.bits ≡ without_place self.bits place }
    {
        if self.has(place) {
            PlaceSet {
                bits: self.bits ^ bit_of(place),
            }
        } else {
            self
        }
    }

    // Whether no place of the set is `n` or more.
    fn is_inside(self, n: usize) -> bool
        requires { n ≤ most_items }
        ensures { result ≡ nat_lt self.bits (2 ^ n) }
    {
        u64::from(self.bits) < (1 << n)
    }

    // Whether two sets have no place in common.
    fn is_apart(self, other: PlaceSet) -> bool
        ensures { result ≡ (bit_and self.bits other.bits == 0) }
    {
        self.bits & other.bits == 0
    }
}

// The conditions of a proper question, one by one, and not yet what they mean.
fn meets_conditions(n: usize, place: usize, above: PlaceSet, below: PlaceSet) -> bool
    ensures { result ≡ proper_test n place above.bits below.bits }
{
    n <= 32
        && place < n
        && above.is_inside(n)
        && below.is_inside(n)
        && above.is_apart(below)
        && !above.has(place)
        && !below.has(place)
}

// Whether a question about a table of `n` items is proper. Numbers and no `Question`, since it is asked
// of a length with no table at hand.
#[tactic(auto, using(crate::specs::Lemmas::Properness::proper_says, crate::specs::Lemmas::Properness::proper_from), unfolding(crate::specs::Places::proper))]
pub fn is_proper(n: usize, place: usize, above: PlaceSet, below: PlaceSet) -> bool
    ensures test { result ≡ proper n place above.bits below.bits }
    ensures means { Decides result (Proper n place above.bits below.bits) }
{
    meets_conditions(n, place, above, below)
}
