// Why no item is made.
ghost use Rattle.std.specs.Prelude.{Some};
ghost use Rattle.timing.specs.Items.{described as item_described, refused_text};

use chain::refusals::Refusal;
use std::fmt;

#[derive(Clone, Copy, Debug, PartialEq, Eq)]
pub enum ItemRefusal {
    OutsideLimits {
        length: u32,
        period: u32,
        window: u32,
    },
}

impl Refusal for ItemRefusal {
    ghost described = { item_described };

    fn number(&self) -> u8 {
        match self {
            ItemRefusal::OutsideLimits { .. } => 20,
        }
    }
}

impl fmt::Display for ItemRefusal {
    ghost output = { λ why. Some (refused_text (item_described why)) };

    fn fmt<W: fmt::Write>(&self, f: &mut fmt::Formatter<W>) -> fmt::Result {
        let number = self.number();
        let ItemRefusal::OutsideLimits {
            length,
            period,
            window,
        } = self;
        write!(f, "refused {number} {length} {period} {window}")
    }
}
