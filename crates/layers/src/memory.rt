ghost use Rattle.std.specs.Prelude.{◌≡◌, true, None, OnErr};
ghost use Rattle.fault.specs.Refusals.{told};
ghost use Rattle.source.specs.Calls.{Lasts, PaysOnce};
ghost use Rattle.source.specs.Records.{blank, tabled};
ghost use Rattle.source.specs.Supplies.{answered, after};
ghost use Rattle.layers.specs.Layers.{remembering};
ghost use Rattle.layers.specs.Soundness.{remembering_sound};

use crate::promises;
use element::{Element, Price};
use fault::Fault;
use source::{Source, Table};

// Remembers each price that came up from the source below. A remembered price is free.
#[derive(Drop)]
pub struct Memory<S> {
    below: S,
    remembered: Table,
}

impl<S: Source> Memory<S> {
    // A memory with nothing remembered yet. Whatever is asked for, no element is paid for twice.
    pub fn new(below: S) -> Memory<S>
        ensures below { result.below ≡ below }
        ensures fresh { tabled result.remembered ≡ blank }
        ensures lasts { Lasts (remembering (S.meaning below) blank) }
        ensures once { PaysOnce (remembering (S.meaning below) blank) }
    {
        promises::remembers(&below);
        Memory {
            below,
            remembered: Table::new(),
        }
    }

    // The source that it stood over; what it remembered is let go.
    pub fn into_below(self) -> S
        ensures { result ≡ self.below }
    {
        let Memory {
            below,
            remembered: _,
        } = self;
        below
    }

    // Asks below for a price that is not remembered, and remembers it.
    fn learn(&mut self, element: Element) -> Result<Price, Fault>
        requires { tabled self.old.remembered element ≡ None }
        ensures answer { told (λ p. p) result ≡ answered (remembering (S.meaning self.old.below) (tabled self.old.remembered)) (S.origin self.old.below element) element }
        ensures after { remembering (S.meaning self.new.below) (tabled self.new.remembered) ≡ after (remembering (S.meaning self.old.below) (tabled self.old.remembered)) true element }
        ensures still { OnErr result (S.origin self.new.below ≡ S.origin self.old.below) }
    {
        let price = self.below.price(element)?;
        self.remembered.set(element, Some(price));
        Ok(price)
    }
}

// It keeps every element, and a refusal comes from where it comes below. (`depth` is as in a quota: a provided method of `Source` would give
// it to sources that stand on nothing.)
impl<S: Source> Source for Memory<S> {
    ghost meaning = { λ s. remembering (S.Source.meaning s.below) (tabled s.remembered) };

    ghost keeps = { λ s e. true };

    ghost origin = { λ s. S.Source.origin s.below };

    ghost sound = { λ s. remembering_sound (S.Source.meaning s.below) (S.Source.origin s.below) (S.Source.sound s.below) (tabled s.remembered) };

    fn price(&mut self, element: Element) -> Result<Price, Fault> {
        match self.remembered.get(element) {
            Some(price) => Ok(price),
            None => self.learn(element),
        }
    }

    fn left(&self) -> Option<u32> {
        self.below.left()
    }

    fn free(&self, element: Element) -> bool {
        self.remembered.get(element).is_some() || self.below.free(element)
    }

    fn depth(&self) -> u8 {
        self.below.depth().saturating_add(1)
    }
}
