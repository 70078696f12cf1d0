// What the elements of a matroid are, by a list.
ghost use Rattle.std.specs.Prelude.{◌≡◌, ◌<◌, length, if◌then◌else◌, Ok, Err, vec_len, nat_lt};
ghost use Rattle.element.specs.Marks.{all_marks};
ghost use Rattle.fault.specs.Refusals.{told, refused};

use element::{Element, MARKS};
use fault::Fault;

// An item for each element: fewer than the marks of a set.
#[derive(Drop)]
pub struct Listed<T> {
    list: Vec<T>,
    ghost few: { vec_len list < all_marks },
}

impl<T> Listed<T> {
    // Refused if there are more elements than a set can mark.
    pub fn new(items: Vec<T>) -> Result<Listed<T>, Fault>
    where
        T: Drop,
        ensures { told (λ l. l.list.items) result ≡ (if nat_lt (vec_len items) all_marks then Ok items.items else Err (refused 3 0 0)) }
    {
        if items.len() < MARKS {
            Ok(Listed { list: items })
        } else {
            Err(Fault::CountBeyondLimit { line: 0 })
        }
    }

    // How many elements there are.
    pub fn size(&self) -> Element
        ensures { result ≡ length self.now.list.items }
    {
        // The cast loses nothing, by `few`.
        self.list.len() as Element
    }

    // The items of the elements in turn.
    pub fn as_slice(&self) -> &[T]
        ensures { result.now ≡ self.now.list.items }
    {
        &self.list
    }
}
