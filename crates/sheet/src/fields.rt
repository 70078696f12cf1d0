// What the bytes of one field hold.
ghost use Rattle.std.specs.Prelude.{◌≡◌};
ghost use Rattle.form.specs.Sheets.{is_name, name_byte};
ghost use Rattle.form.specs.Reading.{number as a_number, name as a_name, kind as a_kind, letter as a_letter, word as a_word};
ghost use Rattle.sheet.specs.Code.{valued, bytes, word_of, is_word, is_bit};

use element::Place;
use form::{Kind, Letter};

// The name of a place, a lot or a lamp.
pub fn name_in<'a>(field: &'a [u8]) -> Option<&'a [u8]>
    ensures { valued bytes result ≡ a_name field.now }
{
    is_name(field).then_some(field)
}

// The kind of a sheet that the word names.
pub fn kind_in(field: &[u8]) -> Option<Kind>
    ensures { result ≡ a_kind field.now }
{
    match field {
        b"routes" => Some(Kind::Routes),
        b"lots" => Some(Kind::Lots),
        b"words" => Some(Kind::Words),
        _ => None,
    }
}

// The letter that an element's line starts with.
pub fn letter_in(field: &[u8]) -> Option<Letter>
    ensures { result ≡ a_letter field.now }
{
    match field {
        [b'k'] => Some(Letter::K),
        [b'r'] => Some(Letter::R),
        _ => None,
    }
}

// One letter 0 or 1 for each lamp.
pub fn word_in<'a>(field: &'a [u8], lamps: Place) -> Option<&'a [u8]>
    ensures { valued word_of result ≡ a_word lamps field.now }
{
    is_word(field, lamps).then_some(field)
}

fn is_name_byte(b: u8) -> bool
    ensures { result ≡ name_byte b }
{
    matches!(b, b'a'..=b'z' | b'0'..=b'9')
}

// 1 to 12 letters a to z and digits.
fn is_name(field: &[u8]) -> bool
    ensures { result ≡ is_name field.now }
{
    !field.is_empty() && field.len() <= 12 && field.iter().all(|b| is_name_byte(*b))
}

fn is_bit(b: u8) -> bool
    ensures { result ≡ is_bit b }
{
    matches!(b, b'0' | b'1')
}

// A letter 0 or 1 for each lamp, and nothing else.
fn is_word(field: &[u8], lamps: Place) -> bool
    ensures { result ≡ is_word lamps field.now }
{
    field.len() == usize::from(lamps) && field.iter().all(|b| is_bit(*b))
}

// A count, a cap, an allowance, a price, or the number of a place, a lot or an element: no leading zero, at most 4294967295.
pub fn number_in(field: &[u8]) -> Option<u32>
    ensures { result ≡ a_number field.now }
{
    if field.is_empty() {
        return None;
    }
    let mut value: u64 = 0;
    // A rule of this project: digits are told by byte ranges with guards, so that each way to refuse a byte stands in an arm of its own.
    for (i, b) in field.iter().enumerate() {
        value = match *b {
            b'0'..=b'9' if i > 0 && value == 0 => return None,
            b'0'..=b'9' if value > 429_496_729 => return None,
            d @ b'0'..=b'9' => value * 10 + u64::from(d - b'0'),
            _ => return None,
        };
    }
    u32::try_from(value).ok()
}
