// The lines of a sheet, read one field after another.
ghost use Rattle.std.specs.Prelude.{◌≡◌, ◌+◌, ◌^◌, ◌<◌, ◌≤◌, ◌==◌, ◌&&◌, if◌then◌else◌, IfOk, OnOk, Some, None, length, nat_le, position};
ghost use Rattle.form.specs.Reading.{field, heading, count, entry as an_entry, name_line, lot_line, recorded_line};
ghost use Rattle.sheet.specs.Code.{bytes, itself, lot_of};

use crate::fields::{kind_in, letter_in, name_in, number_in};
use crate::values::Lot;
use element::{Place, Price};
use fault::Fault;
use form::{Kind, Letter};

// The bytes that are left, and the number of the line that they begin in: so few that the number of each line to come fits.
#[derive(Drop)]
pub struct Reader<'a> {
    pub rest: &'a [u8],
    pub line: u32,
    ghost fits: { line + length rest.now < 2 ^ 32 },
}

// An entry as it is written, whatever its ends are: an enum of its own, since the low end need not be below the high one yet.
#[derive(Clone, Copy)]
pub enum RawEntry {
    Known(Price),
    Range(Price, Price),
}

// The place of the first byte `wanted`.
fn place_of(bytes: &[u8], wanted: u8) -> Option<usize>
    ensures { result ≡ position (λ b. b == wanted) bytes.now }
{
    bytes.iter().position(|b| *b == wanted)
}

// How many lines a section has.
#[derive(Clone, Copy)]
pub struct Limits {
    pub least: Place,
    pub most: Place,
}

impl Limits {
    // The number, where it lies within the limits.
    fn admit(self, n: u32) -> Option<Place>
        ensures { result ≡ (if nat_le self.least n && nat_le n self.most then Some n else None) }
    {
        Place::try_from(n)
            .ok()
            .filter(|n| self.least <= *n && *n <= self.most)
    }
}

impl<'a> Reader<'a> {
    ghost use Rattle.sheet.specs.Readers.{Cut, Fielded, Reads, room, raw_of};

    // The bytes before the first byte `end`; the reader goes on after it.
    fn cut(&mut self, end: u8) -> Option<&'a [u8]>
        ensures { Cut result end self.old self.new }
    {
        let rest = self.rest;
        let at = place_of(rest, end)?;
        self.rest = &rest[at + 1..];
        Some(&rest[..at])
    }

    // What the field that `end` ends holds, as `of` reads it.
    pub fn field<V: Drop, F: FnOnce(&'a [u8]) -> Option<V>>(
        &mut self,
        of: F,
        end: u8,
    ) -> Result<V, Fault>
        requires { F.IsAlwaysCallable of }
        ensures read { Fielded (F.post of) end self.old result self.new }
        ensures room { OnOk result (room self.new < room self.old) }
    {
        let malformed = Fault::Malformed { line: self.line };
        self.cut(end).and_then(of).ok_or(malformed)
    }

    // The first line: the kind and the allowance.
    pub fn heading(&mut self) -> Result<(Kind, u32), Fault>
        ensures read { Reads itself heading self.old result self.new }
    {
        let kind = self.field(kind_in, b' ')?;
        let allowance = self.field(number_in, b'\n')?;
        self.line += 1;
        Ok((kind, allowance))
    }

    // The line with a section's count.
    pub fn count(&mut self, limits: Limits) -> Result<Place, Fault>
        ensures read { Reads itself (count limits.least limits.most) self.old result self.new }
        ensures most { IfOk result (λ n. n ≤ limits.most) }
    {
        let n = self.field(number_in, b'\n')?;
        let count = limits
            .admit(n)
            .ok_or(Fault::CountBeyondLimit { line: self.line })?;
        self.line += 1;
        Ok(count)
    }

    // The line of a place or a lamp: its name.
    pub fn name_line(&mut self) -> Result<&'a [u8], Fault>
        ensures read { Reads bytes name_line self.old result self.new }
    {
        let name = self.field(name_in, b'\n')?;
        self.line += 1;
        Ok(name)
    }

    // A lot's line: its name and its cap.
    pub fn lot_line(&mut self) -> Result<Lot<'a>, Fault>
        ensures read { Reads lot_of lot_line self.old result self.new }
    {
        let name = self.field(name_in, b' ')?;
        let cap = self.field(number_in, b'\n')?;
        self.line += 1;
        Ok(Lot { name, cap })
    }

    // The letter of an element's line, and its price or its two ends.
    pub fn entry(&mut self) -> Result<RawEntry, Fault>
        ensures read { Reads raw_of an_entry self.old result self.new }
    {
        match self.field(letter_in, b' ')? {
            Letter::K => {
                let price = self.field(number_in, b' ')?;
                Ok(RawEntry::Known(price))
            }
            Letter::R => {
                let low = self.field(number_in, b' ')?;
                let high = self.field(number_in, b' ')?;
                Ok(RawEntry::Range(low, high))
            }
        }
    }
}
