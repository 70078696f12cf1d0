// The lines of the three sections, for each kind of sheet.
ghost use Rattle.std.specs.Prelude.{◌≡◌, ℕ, ◌<◌, Bool, ◌&&◌, List, if◌then◌else◌, Some, None, Ok, Err, Option as Maybe, OnOk, nat_lt};
ghost use Rattle.entry.specs.Held.{held};
ghost use Rattle.fault.specs.Refusals.{refused, told};
ghost use Rattle.form.specs.Sheets.{Element as AnElement, element_text, ended, lot_number_text, lot_text, recorded_text, route_text, word_text};
ghost use Rattle.form.specs.Reading.{Step, Tail as ATail, element_line, lot_line, lot_tail, low_below_high, name_line, recorded_line, rises, route_tail, word_tail};
ghost use Rattle.writer.specs.Written.{Wrote};
ghost use Rattle.sheet.specs.Code.{bytes, element_of, itself, lot_of, record_of, route_of, valued, word_of};
ghost use Rattle.sheet.specs.Readers.{Reads, before_of, raw_of, room, seen};

use crate::fields::{number_in, word_in};
use crate::reader::{RawEntry, Reader};
use crate::values::{ElementLine, Lot};
use crate::writing::{put_decimal, put_entry, put_field, put_number, put_price, put_word};
use element::{Element, Line, Place};
use entry::Entry;
use fault::Fault;
use kinds::Route;
use writer::Writer;

// A line of a section, and how it is read, where the section above has `above` lines and `before` is the line before it.
pub trait Row<'a>: Sized + Drop {
    ghost model: { Type 0 };

    ghost value: { Self → model };

    ghost step: { ℕ → Maybe model → Step model };

    ghost text: { model → List ℕ };

    fn read(reader: &mut Reader<'a>, above: u8, before: Option<&Self>) -> Result<Self, Fault>
        ensures { Reads value (step above (before_of value before.entry)) reader.old result reader.new };

    fn write(&self, writer: &mut Writer)
        ensures { Wrote writer.old (text (value self.now)) writer.new };
}

// Places and lamps: a name each.
impl<'a> Row<'a> for &'a [u8] {
    ghost model = { List ℕ };

    ghost value = { bytes };

    ghost step = { λ _ _. name_line };

    ghost text = { ended };

    fn read(
        reader: &mut Reader<'a>,
        _above: u8,
        _before: Option<&&'a [u8]>,
    ) -> Result<&'a [u8], Fault> {
        reader.name_line()
    }

    fn write(&self, writer: &mut Writer) {
        put_field(writer, self, b'\n');
    }
}

// Lots: a name and a cap each.
impl<'a> Row<'a> for Lot<'a> {
    ghost model = { List ℕ × ℕ };

    ghost value = { lot_of };

    ghost step = { λ _ _. lot_line };

    ghost text = { lot_text };

    fn read(
        reader: &mut Reader<'a>,
        _above: u8,
        _before: Option<&Lot<'a>>,
    ) -> Result<Lot<'a>, Fault> {
        reader.lot_line()
    }

    fn write(&self, writer: &mut Writer) {
        put_field(writer, self.name, b' ');
        put_number(writer, self.cap, b'\n');
    }
}

// The number, where it is below the limit.
fn below(n: u32, limit: u8) -> Option<u8>
    ensures { result ≡ (if nat_lt n limit then Some n else None) }
{
    u8::try_from(n).ok().filter(|n| *n < limit)
}

// The element is above that of the record before.
fn is_above(before: Option<&Line>, element: Element) -> bool
    ensures { result ≡ rises (before_of record_of before.entry) element }
{
    before.is_none_or(|last| last.element < element)
}

// Recorded prices: an element and a price each.
impl<'a> Row<'a> for Line {
    ghost model = { ℕ × ℕ };

    ghost value = { record_of };

    ghost step = { recorded_line };

    ghost text = { recorded_text };

    fn read(reader: &mut Reader<'a>, above: u8, before: Option<&Line>) -> Result<Line, Fault> {
        let number = reader.field(number_in, b' ')?;
        let price = reader.field(number_in, b'\n')?;
        let line = reader.line;
        let element = below(number, above).ok_or(Fault::NamesNothing { line })?;
        if !is_above(before, element) {
            return Err(Fault::NotRising { line });
        }
        reader.line += 1;
        Ok(Line { element, price })
    }

    fn write(&self, writer: &mut Writer) {
        put_decimal(writer, self.element, b' ');
        put_price(writer, self.price, b'\n');
    }
}

// The entry, refused unless its low is below its high.
fn entry_of(raw: RawEntry, line: u32) -> Result<Entry, Fault>
    ensures { told held result ≡ (if low_below_high (raw_of raw) then Ok (raw_of raw) else Err (refused 4 line 0)) }
{
    match raw {
        RawEntry::Known(price) => Ok(Entry::Known(price)),
        RawEntry::Range(low, high) => {
            Entry::range(low, high).map_err(|_| Fault::LowNotBelowHigh { line })
        }
    }
}

// What follows the entry on an element's line, and how it is read, where the first section has `lines` lines.
pub trait Tail<'a>: Sized + Drop {
    ghost model: { Type 0 };

    ghost value: { Self → model };

    ghost form: { ATail model };

    ghost text: { model → List ℕ };

    // What the fields name, or none where they name nothing.
    fn read(reader: &mut Reader<'a>, lines: Place) -> Result<Option<Self>, Fault>
        ensures read { Reads (valued value) (seen form lines) reader.old result reader.new }
        ensures room { OnOk result (room reader.new < room reader.old) };

    fn write(&self, writer: &mut Writer)
        ensures { Wrote writer.old (text (value self.now)) writer.new };
}

// The route between the two places, where both are there.
fn route(from: u32, to: u32, places: Place) -> Option<Route>
    ensures { valued route_of result ≡ (if nat_lt from places && nat_lt to places then Some (from, to) else None) }
{
    let from = below(from, places)?;
    let to = below(to, places)?;
    Some(Route { from, to })
}

// Routes: two places.
impl<'a> Tail<'a> for Route {
    ghost model = { ℕ × ℕ };

    ghost value = { route_of };

    ghost form = { route_tail };

    ghost text = { route_text };

    fn read(reader: &mut Reader<'a>, lines: Place) -> Result<Option<Route>, Fault> {
        let from = reader.field(number_in, b' ')?;
        let to = reader.field(number_in, b'\n')?;
        Ok(route(from, to, lines))
    }

    fn write(&self, writer: &mut Writer) {
        put_decimal(writer, self.from, b' ');
        put_decimal(writer, self.to, b'\n');
    }
}

// Lots: the number of one.
impl<'a> Tail<'a> for Place {
    ghost model = { ℕ };

    ghost value = { itself };

    ghost form = { lot_tail };

    ghost text = { lot_number_text };

    fn read(reader: &mut Reader<'a>, lines: Place) -> Result<Option<Place>, Fault> {
        let lot = reader.field(number_in, b'\n')?;
        Ok(below(lot, lines))
    }

    fn write(&self, writer: &mut Writer) {
        put_decimal(writer, *self, b'\n');
    }
}

// Words: one letter 0 or 1 for each lamp.
impl<'a> Tail<'a> for &'a [u8] {
    ghost model = { List Bool };

    ghost value = { word_of };

    ghost form = { word_tail };

    ghost text = { word_text };

    fn read(reader: &mut Reader<'a>, lines: Place) -> Result<Option<&'a [u8]>, Fault> {
        let word = reader.field(|field| word_in(field, lines), b'\n')?;
        Ok(Some(word))
    }

    fn write(&self, writer: &mut Writer) {
        put_word(writer, self);
    }
}

// Elements: an entry and a tail each.
impl<'a, T: Tail<'a>> Row<'a> for ElementLine<T> {
    ghost model = { AnElement T.Tail.model };

    ghost value = { element_of T.Tail.value };

    ghost step = { λ lines _. element_line T.Tail.form lines };

    ghost text = { element_text T.Tail.text };

    fn read(
        reader: &mut Reader<'a>,
        above: u8,
        _before: Option<&ElementLine<T>>,
    ) -> Result<ElementLine<T>, Fault> {
        let raw = reader.entry()?;
        let named = T::read(reader, above)?;
        let line = reader.line;
        let entry = entry_of(raw, line)?;
        let tail = named.ok_or(Fault::NamesNothing { line })?;
        reader.line += 1;
        Ok(ElementLine { entry, tail })
    }

    fn write(&self, writer: &mut Writer) {
        put_entry(writer, &self.entry);
        self.tail.write(writer);
    }
}
