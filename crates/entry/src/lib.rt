// What is known of an element's price: the price, or an open range that it lies in.
#![tactic(auto)]

ghost use Rattle.std.specs.Prelude.{◌≡◌, ◌<◌, if◌then◌else◌, Ok, Err, nat_lt};
ghost use Rattle.fault.specs.Refusals.{told, refused};
ghost use Rattle.entry.specs.Entries.{low, high, known, inside, Range as ARange, Known as AKnown};
ghost use Rattle.entry.specs.Held.{held};

mod range;

use element::Price;
use fault::Fault;
pub use range::OpenRange;

// A known price, or an open range: neither end belongs to it.
#[derive(Clone, Copy, Debug)]
pub enum Entry {
    Known(Price),
    Range(OpenRange),
}

impl Entry {
    // An open range, refused unless low is below high.
    pub fn range(low: Price, high: Price) -> Result<Entry, Fault>
        ensures { told held result ≡ (if nat_lt low high then Ok (ARange low high) else Err (refused 4 0 0)) }
    {
        if low < high {
            Ok(Entry::Range(OpenRange { low, high }))
        } else {
            Err(Fault::LowNotBelowHigh { line: 0 })
        }
    }

    // The price of a known entry, or the low end of a range.
    pub fn low(&self) -> Price
        ensures { result ≡ low (held self.now) }
    {
        match self {
            Entry::Known(price) => *price,
            Entry::Range(range) => range.low,
        }
    }

    // The price of a known entry, or the high end of a range.
    pub fn high(&self) -> Price
        ensures { result ≡ high (held self.now) }
    {
        match self {
            Entry::Known(price) => *price,
            Entry::Range(range) => range.high,
        }
    }

    pub fn is_known(&self) -> bool
        ensures { result ≡ known (held self.now) }
    {
        matches!(self, Entry::Known(_))
    }

    // Whether the price lies strictly inside the range; never for a known entry.
    pub fn admits(&self, price: Price) -> bool
        ensures { result ≡ inside (held self.now) price }
    {
        match self {
            Entry::Known(_) => false,
            Entry::Range(range) => range.low < price && price < range.high,
        }
    }
}
