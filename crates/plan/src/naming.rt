// How a kept element is named in a plan.
ghost use Rattle.std.specs.Prelude.{◌≡◌, ℕ, List};
ghost use Rattle.writer.specs.Written.{Wrote};
ghost use Rattle.plan.specs.Names.{lot_at, lot_name_text, name_at, route_name_text, word_name_text};

use element::Place;
use kinds::Route;
use sheet::{Lot, put_field, put_word};
use writer::Writer;

// What the line of an element ends in, told by the names of the first section, whose lines are of the type P.
pub trait Named<P> {
    ghost named: { List P → Self → List ℕ };

    fn put_named(&self, writer: &mut Writer, places: &[P])
        ensures { Wrote writer.old (named places.now self.now) writer.new };
}

// The name at a number of the list; none is empty.
fn name_at<'a>(places: &[&'a [u8]], place: Place) -> &'a [u8]
    ensures { result.now ≡ name_at places.now place }
{
    places.get(usize::from(place)).copied().unwrap_or(b"")
}

// A route: the names of its two places.
impl<'a> Named<&'a [u8]> for Route {
    ghost named = { route_name_text };

    fn put_named(&self, writer: &mut Writer, places: &[&'a [u8]]) {
        put_field(writer, name_at(places, self.from), b' ');
        put_field(writer, name_at(places, self.to), b'\n');
    }
}

// The name of a lot at a number of the list; none is empty.
fn lot_at<'a>(lots: &[Lot<'a>], lot: Place) -> &'a [u8]
    ensures { result.now ≡ lot_at lots.now lot }
{
    lots.get(usize::from(lot)).map_or(b"", |lot| lot.name)
}

// The number of a lot: its name.
impl<'a> Named<Lot<'a>> for Place {
    ghost named = { lot_name_text };

    fn put_named(&self, writer: &mut Writer, places: &[Lot<'a>]) {
        put_field(writer, lot_at(places, *self), b'\n');
    }
}

// A word: the word itself.
impl<'a> Named<&'a [u8]> for &'a [u8] {
    ghost named = { word_name_text };

    fn put_named(&self, writer: &mut Writer, _places: &[&'a [u8]]) {
        put_word(writer, self);
    }
}
