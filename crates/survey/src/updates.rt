// What a price changes in the tables.
ghost use Rattle.std.specs.Prelude.{◌≡◌, true};
ghost use Rattle.entry.specs.Entries.{inside};
ghost use Rattle.entry.specs.Held.{sheet};
ghost use Rattle.promise.specs.Surveys.{noted_at, paid_for};
ghost use Rattle.survey.specs.States.{state};

use crate::tables::Tables;
use element::{Element, Line, Price};
use entry::Entry;

// Indices are cast here: the invariant's proof would have to carry the result of each call `usize::from`.
impl Tables {
    // Makes the element known at the price, with a line in the ledger.
    pub fn pay(&mut self, element: Element, price: Price, pending: Option<Element>)
        requires { inside (sheet self.old.entries element) price ≡ true }
        ensures { state self.new ≡ paid_for (state self.old) element price pending }
    {
        self.lines.push_reserved(Line { element, price });
        self.entries[element as usize] = Entry::Known(price);
        self.pending = pending;
    }

    // Makes the element known at the price.
    pub fn learn(&mut self, element: Element, price: Price)
        requires { inside (sheet self.old.entries element) price ≡ true }
        ensures { state self.new ≡ noted_at (state self.old) element price }
    {
        self.entries[element as usize] = Entry::Known(price);
    }
}
