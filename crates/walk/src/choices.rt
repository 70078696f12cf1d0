ghost use Rattle.std.specs.Prelude.{◌≡◌};
ghost use Rattle.entry.specs.Entries.{known};
ghost use Rattle.entry.specs.Held.{sheet};
ghost use Rattle.matroid.specs.Questions.{marked};
ghost use Rattle.promise.specs.Walks.{topmost, rival};

use crate::ground::Ground;
use element::{Element, MARKS};
use entry::Entry;

// The two elements of an open circuit that are priced next, and whether the second is known: a tuple with its flag, by a rule of the project.
pub fn choose_pair(
    entries: &[Entry; MARKS],
    n: Element,
    marks: &[bool; MARKS],
) -> (Element, Element, bool)
    ensures topmost { result.0 ≡ topmost n (sheet entries.now) (marked marks.now) }
    ensures rival { result.1 ≡ rival n (sheet entries.now) (marked marks.now) result.0 }
    ensures known { result.2 ≡ known (sheet entries.now result.1) }
{
    let ground = Ground { entries, n };
    // In what is ensured, n stands for none.
    let f = ground.topmost(marks).unwrap_or(n);
    let g = ground.rival(marks, f).unwrap_or(n);
    (f, g, ground.is_known(g))
}
