// What a set of routes makes with one more, by its 2-core: what is left when leaves are stripped for as long as there are any.
ghost use Rattle.std.specs.Prelude.{◌≡◌, ℕ, ◌+◌, ◌^◌, ◌<◌, ◌≤◌, true, false, length, if◌then◌else◌, nat_eq};
ghost use Rattle.element.specs.Marks.{all_marks};
ghost use Rattle.matroid.specs.Questions.{marked};
ghost use Rattle.matroid.specs.Outcomes.{OutcomeOf};
ghost use Rattle.kinds.specs.Lists.{all_places, routes_of};
ghost use Rattle.routes.specs.Cores.{degree, numbers, EndsArePlaces, Tallied, Attached, Leaf, Strips, NoLeafBelow, CoreOf, LeafStripped};

use crate::Routes;
use element::{Element, MARKS, Place};
use fault::Fault;
use kinds::{PLACES, Route};

// How often the routes that are left touch a place, and the sum of their numbers.
#[derive(Clone, Copy)]
pub(crate) struct Incidence {
    degree: u32,
    numbers: u32,
}

// Notes that route k touches the place.
fn attach(places: &mut [Incidence; PLACES], place: Place, k: Element)
    requires { (degree places.old place < 2 ^ 31) × (numbers places.old place < 2 ^ 31) }
    ensures { Attached place k places.old places.new }
{
    let incidence = &mut places[usize::from(place)];
    incidence.degree += 1;
    incidence.numbers += u32::from(k);
}

// Notes that it does so no more.
fn detach(places: &mut [Incidence; PLACES], place: Place, k: Element)
    requires { (0 < degree places.old place) × (k ≤ numbers places.old place) }
    ensures { Attached place k places.new places.old }
{
    let incidence = &mut places[usize::from(place)];
    incidence.degree -= 1;
    incidence.numbers -= u32::from(k);
}

// The end of the route that is not the place.
fn other_end(route: Route, place: Place) -> Place
    ensures { result ≡ (if nat_eq route.from place then route.to else route.from) }
{
    if route.from == place {
        route.to
    } else {
        route.from
    }
}

// The marked routes that are left, and what there is to note of each place.
#[derive(Drop)]
struct Stripping<'a> {
    routes: &'a [Route],
    left: [bool; MARKS],
    places: [Incidence; PLACES],
    ghost few: { length routes.now < all_marks },
    ghost tallied: { Tallied (length routes.now) routes.now (marked left) places },
    ghost ends: { EndsArePlaces (length routes.now) routes.now },
}

impl<'a> Stripping<'a> {
    // Nothing is stripped of the marked routes.
    fn new(routes: &'a [Route], marks: &[bool; MARKS]) -> Stripping<'a>
        requires { length routes.now < all_marks }
        ensures same { result.routes.now ≡ routes.now }
        ensures all { result.left ≡ marks.now }
    {
        let mut places = [Incidence {
            degree: 0,
            numbers: 0,
        }; PLACES];
        // By `requires`, there are no more routes than numbers.
        for ((k, route), marked) in (0..Element::MAX).zip(routes).zip(marks) {
            let Route { from, to } = *route;
            if *marked {
                attach(&mut places, from, k);
                attach(&mut places, to, k);
            }
        }
        Stripping {
            routes,
            left: *marks,
            places,
        }
    }

    // The only route at the leaf.
    fn route_at(&self, leaf: Place) -> Element
        requires { degree self.now.places leaf ≡ 1 }
        ensures { Leaf self.now.routes.now self.now.left self.now.places leaf result }
    {
        // The cast loses nothing: at a leaf the sum is the number of one route.
        self.places[usize::from(leaf)].numbers as Element
    }

    // Strips the only route at the leaf, and gives its other end.
    fn strip_leaf(&mut self, leaf: Place) -> Place
        requires { degree self.old.places leaf ≡ 1 }
        ensures same { self.new.routes.now ≡ self.old.routes.now }
        ensures stripped { LeafStripped self.old.routes.now leaf result (marked self.old.left) (marked self.new.left) }
    {
        let k = self.route_at(leaf);
        let route = self.routes[usize::from(k)];
        self.left[usize::from(k)] = false;
        detach(&mut self.places, route.from, k);
        detach(&mut self.places, route.to, k);
        other_end(route, leaf)
    }

    // Strips from the place on for as long as there is a leaf, so that neither the place nor one before it is a leaf.
    fn strip_from(&mut self, start: Place)
        requires { NoLeafBelow self.old.routes.now (marked self.old.left) start }
        ensures same { self.new.routes.now ≡ self.old.routes.now }
        ensures strips { Strips self.old.routes.now (marked self.old.left) (marked self.new.left) }
        ensures before { NoLeafBelow self.old.routes.now (marked self.new.left) (start + 1) }
    {
        let mut place = start;
        while self.places[usize::from(place)].degree == 1 {
            place = self.strip_leaf(place);
        }
    }
}

impl Routes {
    // What is left of the marked routes when leaves are stripped for as long as there are any.
    fn core_of(&self, marks: &[bool; MARKS]) -> [bool; MARKS]
        ensures core { CoreOf self.now.routes.list.items (marked marks.now) (marked result) }
        ensures ends { EndsArePlaces (length self.now.routes.list.items) self.now.routes.list.items }
    {
        let mut stripping = Stripping::new(self.routes.as_slice(), marks);
        // The places themselves, in turn.
        for place in 0..=Place::MAX {
            stripping.strip_from(place);
        }
        stripping.left
    }

    // Whether any of the routes is marked.
    fn any_marked(&self, marks: &[bool; MARKS]) -> bool
        ensures some { result ≡ true → (i : ℕ) × ((i < length self.now.routes.list.items) × (marked marks.now i ≡ true)) }
        ensures none { result ≡ false → (i : ℕ) → i < length self.now.routes.list.items → marked marks.now i ≡ false }
    {
        let n = usize::from(self.routes.size());
        marks[..n].contains(&true)
    }

    // What the set makes with the element: nothing, or the circuit; refused if it is dependent.
    pub(crate) fn outcome(
        &self,
        set: &[bool; MARKS],
        element: Element,
    ) -> Result<Option<[bool; MARKS]>, Fault>
        requires { element < length self.now.routes.list.items }
        ensures { OutcomeOf (routes_of self.now.routes.list.items) (marked set.now) element result }
    {
        if self.any_marked(&self.core_of(set)) {
            return Err(Fault::DependentSet);
        }
        let mut all = *set;
        all[usize::from(element)] = true;
        let left = self.core_of(&all);
        Ok(self.any_marked(&left).then_some(left))
    }
}
