ghost use Rattle.std.specs.Prelude.{◌≡◌, ◌≤◌, length, vec_len, vec_capacity};
ghost use Rattle.element.specs.Marks.{all_marks};
ghost use Rattle.entry.specs.Held.{held, sheet};
ghost use Rattle.survey.specs.Knowns.{knowns};

use element::{Element, Line, MARKS};
use entry::Entry;

// The entries, the lines of the prices paid, and the element to be priced next where one is pending.
// Each line stands for an entry that is known, so that there is room for all that can be paid.
#[derive(Drop)]
pub struct Tables {
    pub entries: [Entry; MARKS],
    pub lines: Vec<Line>,
    pub pending: Option<Element>,
    ghost places: { length entries ≡ all_marks },
    ghost rows: { all_marks ≤ vec_capacity lines },
    ghost room: { vec_len lines ≤ knowns entries },
}

impl Tables {
    // What is known of the element's price now.
    pub fn entry(&self, element: Element) -> Entry
        ensures { held result ≡ sheet self.now.entries element }
    {
        self.entries[usize::from(element)]
    }
}
