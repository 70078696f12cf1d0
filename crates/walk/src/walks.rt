ghost use Rattle.std.specs.Prelude.{◌≡◌};
ghost use Rattle.entry.specs.Held.{sheet};
ghost use Rattle.promise.specs.Walks.{walk};
ghost use Rattle.walk.specs.Walked.{ended};

use crate::{Progress, Walk};
use element::MARKS;
use entry::Entry;
use matroid::Matroid;

// The walk over all elements: one that closes no circuit is kept, and one that tops its circuit is dropped.
pub fn walk_through<M: Matroid>(matroid: &M, entries: &[Entry; MARKS]) -> Walk
    ensures { ended result ≡ walk (M.Matroid.meaning matroid.now) (sheet entries.now) }
{
    let mut progress = Progress::new();
    progress.finish(matroid, entries)
}
