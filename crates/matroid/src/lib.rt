// Matroids: which sets of elements are independent, what holds in all of them, and the questions that each of them answers.
#![tactic(auto)]

ghost use Rattle.std.specs.Prelude.{◌≡◌};
ghost use Rattle.fault.specs.Refusals.{told};
ghost use Rattle.matroid.specs.Matroids.{Meaning, Laws};
ghost use Rattle.matroid.specs.Questions.{questioned};

mod asking;
mod listed;
mod theory;

pub use asking::{admit, conclude, lowest_mark, show};
use element::Element;
use fault::Fault;
pub use listed::Listed;
pub use theory::theory_holds;

// What a set that is independent makes with one more element. A rule of the project: a question takes a set and marks, and answers
// into the marks, so the circuit itself stands there.
#[derive(Clone, Copy, PartialEq, Eq, Debug)]
pub enum Closing {
    // They are independent together.
    Independent,
    // The element closes a circuit, which is marked.
    Circuit,
}

// A matroid. Its questions change nothing.
pub trait Matroid {
    // How many elements there are, and which sets of them are independent.
    ghost meaning: { Self → Meaning };

    // How many elements there are.
    fn size(&self) -> Element
        ensures { result ≡ (meaning self.now).size };

    // Whether the set is independent with the element too; else exactly the circuit is marked. Marks beyond those of a set are
    // neither read nor changed.
    fn circuit(&self, set: &[bool], element: Element, marks: &mut [bool]) -> Result<Closing, Fault>
        ensures answer { told (λ x. x) result ≡ (questioned (meaning self.now) set.now element marks.old).answer }
        ensures marks { marks.new ≡ (questioned (meaning self.now) set.now element marks.old).marks };

    ghost laws: { (m : Self) → Laws (meaning m) };
}
