// The matroid of elements in lots with caps: a set is independent if no lot has more members in it than its cap.
#![tactic(auto)]

ghost use Rattle.std.specs.Prelude.{◌≡◌, length, if◌then◌else◌, Ok, Err, vec_len, nat_lt};
ghost use Rattle.element.specs.Marks.{all_marks};
ghost use Rattle.fault.specs.Refusals.{told, refused};
ghost use Rattle.kinds.specs.Lists.{lots_of, at};
ghost use Rattle.kinds.proofs.Lots.{lots_laws};

mod counting;

use element::{Element, Place};
use fault::Fault;
use matroid::{Closing, Listed, Matroid, admit, conclude};

// The lot of each element, and the caps of the lots.
#[derive(Drop)]
pub struct Lots {
    lots: Listed<Place>,
    caps: Vec<u32>,
}

impl Lots {
    // Refused if there are more elements than a set can mark. A lot beyond the list of caps has cap 0.
    pub fn new(lots: Vec<Place>, caps: Vec<u32>) -> Result<Lots, Fault>
        ensures { told (λ m. lots_of m.lots.list.items m.caps.items) result ≡ (if nat_lt (vec_len lots) all_marks then Ok (lots_of lots.items caps.items) else Err (refused 3 0 0)) }
    {
        Ok(Lots {
            lots: Listed::new(lots)?,
            caps,
        })
    }
}

impl Matroid for Lots {
    ghost meaning = { λ m. lots_of m.lots.list.items m.caps.items };

    ghost laws = { λ m. lots_laws (length m.lots.list.items) (at m.lots.list.items) (at m.caps.items) };

    fn size(&self) -> Element {
        self.lots.size()
    }

    fn circuit(
        &self,
        set: &[bool],
        element: Element,
        marks: &mut [bool],
    ) -> Result<Closing, Fault> {
        // Each kind has these lines: one body for all would need a public `outcome` that asks of its callers what `admit` gives.
        let n = self.size();
        let members = admit(n, set, element, marks)?;
        conclude(self.outcome(&members, element), n, marks)
    }
}
