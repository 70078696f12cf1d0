// Sources of prices: what every source promises, and two that hold prices written down.
#![tactic(auto)]

ghost use Rattle.std.specs.Prelude.{◌≡◌, ℕ, Bool, OnErr};
ghost use Rattle.fault.specs.Refusals.{told};
ghost use Rattle.source.specs.Supplies.{Supply, Sound, answered, after};

mod record;
mod table;

use element::{Element, Price};
use fault::Fault;
pub use record::Record;
pub use table::Table;

// Gives prices, as long as its allowance lasts.
pub trait Source {
    // The prices, the allowance, the free elements and the depth.
    ghost meaning: { Self → Supply };

    // Whether a price for the element makes it free: each source declares it.
    ghost keeps: { Self → ℕ → Bool };

    // The depth from which a refusal for the element comes: each source declares it.
    ghost origin: { Self → ℕ → ℕ };

    // Each free element has a price, the depth is at most 255, and no refusal comes from above it.
    ghost sound: { (s : Self) → Sound (meaning s) (origin s) };

    // The price of the element. It is refused where the allowance is 0 and the element not free, and else without a price.
    // A refusal changes nothing. A price lowers a limited allowance by 1, unless the element was free.
    fn price(&mut self, element: Element) -> Result<Price, Fault>
        ensures answer { told (λ p. p) result ≡ answered (meaning self.old) (origin self.old element) element }
        ensures after { meaning self.new ≡ after (meaning self.old) (keeps self.old element) element }
        ensures kept { keeps self.new ≡ keeps self.old }
        ensures still { OnErr result (origin self.new ≡ origin self.old) };

    // What is left of the allowance; none where it is unlimited.
    fn left(&self) -> Option<u32>
        ensures { result ≡ (meaning self.now).allowance };

    // Whether a price for the element costs nothing of the allowance.
    fn free(&self, element: Element) -> bool
        ensures { result ≡ (meaning self.now).free element };

    // How many layers it stands on.
    fn depth(&self) -> u8
        ensures { result ≡ (meaning self.now).depth };
}
