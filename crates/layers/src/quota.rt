ghost use Rattle.std.specs.Prelude.{◌≡◌, ◌+◌, ◌-◌, ◌^◌, min, false, OnErr};
ghost use Rattle.fault.specs.Refusals.{told};
ghost use Rattle.source.specs.Calls.{Lasts};
ghost use Rattle.source.specs.Supplies.{answered, after};
ghost use Rattle.layers.specs.Layers.{limited, closed, blamed, Bounded};
ghost use Rattle.layers.specs.Soundness.{limited_sound};

use crate::promises;
use element::{Element, Price};
use fault::Fault;
use source::Source;

// Gives no more prices than its number, for elements that are not free below.
#[derive(Drop)]
pub struct Quota<S> {
    below: S,
    number: u32,
}

impl<S: Source> Quota<S> {
    // A quota of the number. Whatever is asked for, it pays for no more prices than that.
    pub fn new(below: S, number: u32) -> Quota<S>
        ensures below { result.below ≡ below }
        ensures number { result.number ≡ number }
        ensures lasts { Lasts (limited (S.meaning below) number) }
        ensures bounded { Bounded (S.meaning below) number }
    {
        promises::limits(&below, number);
        Quota { below, number }
    }

    // The source that it stood over.
    pub fn into_below(self) -> S
        ensures { result ≡ self.below }
    {
        let Quota { below, number: _ } = self;
        below
    }

    // How many more prices it gives for elements that are not free.
    pub fn number(&self) -> u32
        ensures { result ≡ self.now.number }
    {
        self.number
    }

    // Raises the number, at most to 4294967295.
    pub fn raise(&mut self, by: u32)
        ensures below { self.new.below ≡ self.old.below }
        ensures number { self.new.number ≡ min (self.old.number + by) (2 ^ 32 - 1) }
    {
        self.number = self.number.saturating_add(by);
    }

    // Whether it refuses the element itself: its number is 0, and the element is not free.
    fn refuses(&self, element: Element) -> bool
        ensures { result ≡ closed (S.meaning self.now.below) self.now.number element }
    {
        !self.below.free(element) && self.number == 0
    }

    // Asks below for a price, and counts it unless the element was free.
    fn pass(&mut self, element: Element) -> Result<Price, Fault>
        requires { closed (S.meaning self.old.below) self.old.number element ≡ false }
        ensures answer { told (λ p. p) result ≡ answered (limited (S.meaning self.old.below) self.old.number) (blamed (S.meaning self.old.below) (S.origin self.old.below) self.old.number element) element }
        ensures after { limited (S.meaning self.new.below) self.new.number ≡ after (limited (S.meaning self.old.below) self.old.number) (S.keeps self.old.below element) element }
        ensures kept { S.keeps self.new.below ≡ S.keeps self.old.below }
        ensures still { OnErr result (blamed (S.meaning self.new.below) (S.origin self.new.below) self.new.number ≡ blamed (S.meaning self.old.below) (S.origin self.old.below) self.old.number) }
    {
        let free = self.below.free(element);
        let price = self.below.price(element)?;
        if !free {
            self.number -= 1;
        }
        Ok(price)
    }
}

// It keeps what the source below keeps. A refusal is its own where it refuses itself, and else comes from where it comes below.
impl<S: Source> Source for Quota<S> {
    ghost meaning = { λ s. limited (S.Source.meaning s.below) s.number };

    ghost keeps = { λ s. S.Source.keeps s.below };

    ghost origin = { λ s. blamed (S.Source.meaning s.below) (S.Source.origin s.below) s.number };

    ghost sound = { λ s. limited_sound (S.Source.meaning s.below) (S.Source.origin s.below) (S.Source.sound s.below) s.number };

    fn price(&mut self, element: Element) -> Result<Price, Fault> {
        if self.refuses(element) {
            return Err(Fault::AllowanceSpent {
                element,
                depth: self.depth(),
            });
        }
        self.pass(element)
    }

    fn left(&self) -> Option<u32> {
        let below = self.below.left();
        Some(below.map_or(self.number, |left| self.number.min(left)))
    }

    fn free(&self, element: Element) -> bool {
        self.below.free(element)
    }

    fn depth(&self) -> u8 {
        self.below.depth().saturating_add(1)
    }
}
