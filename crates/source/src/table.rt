ghost use Rattle.std.specs.Prelude.{◌≡◌, false};
ghost use Rattle.source.specs.Records.{listed, tabled, blank, posted};
ghost use Rattle.source.specs.Soundness.{plain_sound};
ghost use Rattle.source.specs.Supplies.{plain};

use crate::Source;
use element::{Element, MARKS, Price};
use fault::Fault;

// A place for each element, with a price or none: unlimited, nothing ever free, of depth 0.
#[derive(Drop)]
pub struct Table {
    prices: [Option<Price>; MARKS],
}

impl Table {
    // A table without prices.
    pub fn new() -> Table
        ensures { tabled result ≡ blank }
    {
        let prices = [None; MARKS];
        Table { prices }
    }

    // The price at the element's place.
    pub fn get(&self, element: Element) -> Option<Price>
        ensures { result ≡ tabled self.now element }
    {
        self.prices[usize::from(element)]
    }

    // Puts a price, or none, at the element's place.
    pub fn set(&mut self, element: Element, price: Option<Price>)
        ensures { tabled self.new ≡ posted (tabled self.old) element price }
    {
        let place = usize::from(element);
        self.prices[place] = price;
    }
}

// The last three answers are those of every plain source: a provided method of `Source` would give them to layers too.
impl Source for Table {
    ghost meaning = { λ s. plain (tabled s) };

    ghost keeps = { λ s e. false };

    ghost origin = { λ s e. 0 };

    ghost sound = { λ s. plain_sound (tabled s) };

    fn price(&mut self, element: Element) -> Result<Price, Fault> {
        self.get(element)
            .ok_or(Fault::NoPrice { element, depth: 0 })
    }

    fn left(&self) -> Option<u32> {
        None
    }

    fn free(&self, _element: Element) -> bool {
        false
    }

    fn depth(&self) -> u8 {
        0
    }
}
