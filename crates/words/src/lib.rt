// The matroid of words under xor: a set is dependent if some non-empty part of it has an even number of ones at every bit.
#![tactic(auto)]

ghost use Rattle.std.specs.Prelude.{◌≡◌, length, if◌then◌else◌, Ok, Err, vec_len, nat_lt};
ghost use Rattle.element.specs.Marks.{all_marks};
ghost use Rattle.fault.specs.Refusals.{told, refused};
ghost use Rattle.kinds.specs.Lists.{words_of, at};
ghost use Rattle.kinds.proofs.Words.{words_laws};

mod elimination;

use element::Element;
use fault::Fault;
use matroid::{Closing, Listed, Matroid, admit, conclude};

// The word of each element.
#[derive(Drop)]
pub struct Words {
    words: Listed<u64>,
}

impl Words {
    // Refused if there are more elements than a set can mark.
    pub fn new(words: Vec<u64>) -> Result<Words, Fault>
        ensures { told (λ m. words_of m.words.list.items) result ≡ (if nat_lt (vec_len words) all_marks then Ok (words_of words.items) else Err (refused 3 0 0)) }
    {
        Ok(Words {
            words: Listed::new(words)?,
        })
    }
}

impl Matroid for Words {
    ghost meaning = { λ m. words_of m.words.list.items };

    ghost laws = { λ m. words_laws (length m.words.list.items) (at m.words.list.items) };

    fn size(&self) -> Element {
        self.words.size()
    }

    fn circuit(
        &self,
        set: &[bool],
        element: Element,
        marks: &mut [bool],
    ) -> Result<Closing, Fault> {
        // Each kind has these lines: one body for all would need a public `outcome` that asks of its callers what `admit` gives.
        let n = self.size();
        let members = admit(n, set, element, marks)?;
        conclude(self.outcome(&members, element), n, marks)
    }
}
