// The matroid of routes between places: a set is dependent if some non-empty part of it touches every place an even number of times.
#![tactic(auto)]

ghost use Rattle.std.specs.Prelude.{◌≡◌, length, if◌then◌else◌, Ok, Err, vec_len, nat_lt};
ghost use Rattle.element.specs.Marks.{all_marks};
ghost use Rattle.fault.specs.Refusals.{told, refused};
ghost use Rattle.kinds.specs.Lists.{routes_of, all_places, from, to};
ghost use Rattle.kinds.proofs.Routes.{routes_laws};

mod two_core;

use element::Element;
use fault::Fault;
use kinds::Route;
use matroid::{Closing, Listed, Matroid, admit, conclude};

// The route of each element.
#[derive(Drop)]
pub struct Routes {
    routes: Listed<Route>,
}

impl Routes {
    // Refused if there are more elements than a set can mark.
    pub fn new(routes: Vec<Route>) -> Result<Routes, Fault>
        ensures { told (λ m. routes_of m.routes.list.items) result ≡ (if nat_lt (vec_len routes) all_marks then Ok (routes_of routes.items) else Err (refused 3 0 0)) }
    {
        Ok(Routes {
            routes: Listed::new(routes)?,
        })
    }
}

impl Matroid for Routes {
    ghost meaning = { λ m. routes_of m.routes.list.items };

    ghost laws = { λ m. routes_laws (length m.routes.list.items) all_places (from m.routes.list.items) (to m.routes.list.items) };

    fn size(&self) -> Element {
        self.routes.size()
    }

    fn circuit(
        &self,
        set: &[bool],
        element: Element,
        marks: &mut [bool],
    ) -> Result<Closing, Fault> {
        // Each kind has these lines: one body for all would need a public `outcome` that asks of its callers what `admit` gives.
        let n = self.size();
        let members = admit(n, set, element, marks)?;
        conclude(self.outcome(&members, element), n, marks)
    }
}
