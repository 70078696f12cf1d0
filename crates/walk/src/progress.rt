// A walk that goes on from a stage, and goes back when a price comes up.
ghost use Rattle.std.specs.Prelude.{◌≡◌, ℕ, true};
ghost use Rattle.entry.specs.Entries.{Entry as AnEntry, high as top, inside};
ghost use Rattle.entry.specs.Held.{sheet};
ghost use Rattle.matroid.specs.Matroids.{Meaning, Laws};
ghost use Rattle.matroid.specs.Sets.{nothing};
ghost use Rattle.matroid.specs.Questions.{marked};
ghost use Rattle.promise.specs.Surveys.{priced};
ghost use Rattle.promise.specs.Walks.{walk};
ghost use Rattle.walk.specs.Stages.{Reached, Stops, standing};
ghost use Rattle.walk.specs.Walked.{Along, Askable, Closed, ended, kept_of, taken_of};

use crate::Walk;
use crate::ground::Ground;
use element::{Element, MARKS, Price};
use entry::Entry;
use matroid::{Closing, Matroid};

// How far a walk has come: the elements that are taken, and those of them that are kept.
// Two arrays of marks side by side, since sets are arrays of marks, by a rule of the project.
// Indices are cast here: the stages' proofs would have to carry the result of each call `usize::from`.
#[derive(Drop)]
pub struct Progress {
    pub(crate) taken: [bool; MARKS],
    pub(crate) kept: [bool; MARKS],
}

// The circuit that e closes over the kept ones, if it closes one; none either where that may not be asked.
fn closed_if_asked<M: Matroid>(
    matroid: &M,
    kept: &[bool; MARKS],
    e: Element,
) -> Option<[bool; MARKS]>
    ensures { Askable (M.Matroid.meaning matroid.now) (marked kept.now) e → Closed (M.Matroid.meaning matroid.now) (marked kept.now) e result }
{
    let mut marks = [false; MARKS];
    match matroid.circuit(kept, e, &mut marks) {
        Ok(Closing::Circuit) => Some(marks),
        // Not one arm `Ok(Closing::Independent) | Err(_)`: the proof then has no fact of which it was.
        Ok(Closing::Independent) => None,
        Err(_) => None,
    }
}

impl Progress {
    // Nothing is taken yet.
    pub fn new() -> Progress
        ensures taken { taken_of result ≡ nothing }
        ensures kept { kept_of result ≡ nothing }
        ensures along { (m : Meaning) (E : ℕ → AnEntry) → Along m E result }
    {
        Progress {
            taken: [false; MARKS],
            kept: [false; MARKS],
        }
    }

    // Goes on with the walk that came to this progress, to its end.
    // An element that closes no circuit is kept, and one that tops its circuit is dropped; one that closes an open circuit is not taken.
    pub fn finish<M: Matroid>(&mut self, matroid: &M, entries: &[Entry; MARKS]) -> Walk
        ensures walk { Along (M.Matroid.meaning matroid.now) (sheet entries.now) self.old → ended result ≡ walk (M.Matroid.meaning matroid.now) (sheet entries.now) }
        ensures along { Along (M.Matroid.meaning matroid.now) (sheet entries.now) self.old → Along (M.Matroid.meaning matroid.now) (sheet entries.now) self.new }
        ensures stops { Along (M.Matroid.meaning matroid.now) (sheet entries.now) self.old → Stops (M.Matroid.meaning matroid.now) (sheet entries.now) (taken_of self.new) (kept_of self.new) (ended result) }
    {
        let Progress { taken, kept } = self;
        let ground = Ground {
            entries,
            n: matroid.size(),
        };
        while let Some(e) = ground.next(taken) {
            match closed_if_asked(matroid, kept, e) {
                None => kept[e as usize] = true,
                Some(circuit) if ground.is_topped(&circuit, e) => {}
                Some(circuit) => return Walk::Open(circuit),
            }
            taken[e as usize] = true;
        }
        Walk::Settled(*kept)
    }

    // Goes back to where the walk over the entries has come to, in which x is known, and was a range with the high end before.
    // What is taken stays, but for elements whose circuits may have x: those have their low at or above its high end.
    pub fn go_back(&mut self, entries: &[Entry; MARKS], n: Element, x: Element, high: Price)
        ensures taken { taken_of self.new ≡ standing n (sheet entries.now) x high (taken_of self.old) (taken_of self.old) }
        ensures kept { kept_of self.new ≡ standing n (sheet entries.now) x high (taken_of self.old) (kept_of self.old) }
        ensures along { (m : Meaning) (E : ℕ → AnEntry) (p : ℕ) → Laws m → n ≡ m.size → inside (E x) p ≡ true → high ≡ top (E x) → sheet entries.now ≡ priced E x p → Along m E self.old → Along m (sheet entries.now) self.new }
    {
        let ground = Ground { entries, n };
        ground.keep_lower(&mut self.taken, high);
        ground.keep_lower(&mut self.kept, high);
        if ground.is_behind(&self.taken, x) {
            self.taken[x as usize] = false;
            self.kept[x as usize] = false;
        }
    }
}
