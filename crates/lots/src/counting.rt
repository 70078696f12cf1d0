// What a set makes with one more element, by the number of members in each lot.
ghost use Rattle.std.specs.Prelude.{◌≡◌, ℕ, ◌<◌, false, length, nat_le};
ghost use Rattle.std.specs.List.{list_all};
ghost use Rattle.element.specs.Marks.{all_marks};
ghost use Rattle.matroid.specs.Sets.{with};
ghost use Rattle.matroid.specs.Questions.{marked};
ghost use Rattle.matroid.specs.Outcomes.{OutcomeOf};
ghost use Rattle.kinds.specs.Kinds.{within_lot};
ghost use Rattle.kinds.specs.Lists.{all_places, at, lots_of};
ghost use Rattle.lots.specs.Counts.{Counted, OneMore};

use crate::Lots;
use element::{Element, MARKS, Place};
use fault::Fault;
use kinds::PLACES;

// One more member in the lot.
fn add_to(counts: &mut [u32; PLACES], lot: Place)
    requires { at counts.old lot < all_marks }
    ensures { OneMore lot counts.old counts.new }
{
    counts[usize::from(lot)] += 1;
}

impl Lots {
    // The cap of a lot.
    fn cap_of(&self, lot: Place) -> u32
        ensures { result ≡ at self.now.caps.items lot }
    {
        self.caps.get(usize::from(lot)).copied().unwrap_or(0)
    }

    // How many members of the set each lot has.
    fn counts_of(&self, set: &[bool; MARKS]) -> [u32; PLACES]
        ensures counted { Counted (length self.now.lots.list.items) self.now.lots.list.items (marked set.now) result }
        ensures places { (i : ℕ) → i < length self.now.lots.list.items → at self.now.lots.list.items i < all_places }
    {
        let mut counts = [0; PLACES];
        for (lot, member) in self.lots.as_slice().iter().zip(set) {
            let lot = *lot;
            if *member {
                add_to(&mut counts, lot);
            }
        }
        counts
    }

    // Whether no lot has more members than its cap.
    fn within_caps(&self, counts: &[u32; PLACES]) -> bool
        ensures { result ≡ list_all (λ lot. nat_le (at counts.now lot) (at self.now.caps.items lot)) self.now.lots.list.items }
    {
        self.lots
            .as_slice()
            .iter()
            .all(|lot| counts[usize::from(*lot)] <= self.cap_of(*lot))
    }

    // The element and the members of its lot.
    fn circuit_of(&self, set: &[bool; MARKS], e: usize) -> [bool; MARKS]
        requires { e < length self.now.lots.list.items }
        ensures { (k : ℕ) → k < length self.now.lots.list.items → marked result k ≡ within_lot (at self.now.lots.list.items) (with (marked set.now) e) (at self.now.lots.list.items e) k }
    {
        let lots = self.lots.as_slice();
        let mut marks = [false; MARKS];
        // By index: `array::from_fn` would ask at all places, and after `iter_mut().zip(..)` no clause says what was written.
        for (k, lot) in lots.iter().enumerate() {
            marks[k] = (k == e || set[k]) && *lot == lots[e];
        }
        marks
    }

    // What the set makes with the element: nothing, or the circuit; refused if it is dependent.
    pub(crate) fn outcome(
        &self,
        set: &[bool; MARKS],
        element: Element,
    ) -> Result<Option<[bool; MARKS]>, Fault>
        requires below { element < length self.now.lots.list.items }
        requires outside { marked set.now element ≡ false }
        ensures { OutcomeOf (lots_of self.now.lots.list.items self.now.caps.items) (marked set.now) element result }
    {
        let lots = self.lots.as_slice();
        let counts = self.counts_of(set);
        if !self.within_caps(&counts) {
            return Err(Fault::DependentSet);
        }
        let e = usize::from(element);
        let lot = lots[e];
        if counts[usize::from(lot)] < self.cap_of(lot) {
            return Ok(None);
        }
        Ok(Some(self.circuit_of(set, e)))
    }
}
