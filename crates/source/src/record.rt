ghost use Rattle.std.specs.Prelude.{◌≡◌, false};
ghost use Rattle.source.specs.Records.{recorded};
ghost use Rattle.source.specs.Soundness.{plain_sound};
ghost use Rattle.source.specs.Supplies.{plain};

use crate::Source;
use element::{Element, Line, Price};
use fault::Fault;

// A view of recorded prices: unlimited, nothing ever free, of depth 0.
#[derive(Clone, Copy)]
pub struct Record<'a> {
    lines: &'a [Line],
}

impl<'a> Record<'a> {
    // A view of the lines, of which the first for an element counts.
    pub fn new(lines: &'a [Line]) -> Record<'a>
        ensures { result.lines.now ≡ lines.now }
    {
        Record { lines }
    }
}

// The last three answers are those of every plain source: a provided method of `Source` would give them to layers too.
impl Source for Record<'_> {
    ghost meaning = { λ s. plain (recorded s.lines.now) };

    ghost keeps = { λ s e. false };

    ghost origin = { λ s e. 0 };

    ghost sound = { λ s. plain_sound (recorded s.lines.now) };

    fn price(&mut self, element: Element) -> Result<Price, Fault> {
        price_in(self.lines, element).ok_or(Fault::NoPrice { element, depth: 0 })
    }

    fn left(&self) -> Option<u32> {
        None
    }

    fn free(&self, _element: Element) -> bool {
        false
    }

    fn depth(&self) -> u8 {
        0
    }
}

// The price of the first line for the element.
fn price_in(lines: &[Line], element: Element) -> Option<Price>
    ensures { result ≡ recorded lines.now element }
{
    lines
        .iter()
        .find(|line| line.element == element)
        .map(|line| line.price)
}
