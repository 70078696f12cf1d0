// The fields of a sheet, as they are written.
ghost use Rattle.std.specs.Prelude.{◌≡◌, ℕ, [], ◌∷◌, ◌++◌, map, decimal};
ghost use Rattle.entry.specs.Held.{held};
ghost use Rattle.form.specs.Sheets.{entry_text, price_text, word_text};
ghost use Rattle.writer.specs.Written.{Wrote};
ghost use Rattle.sheet.specs.Code.{bit_of, ones};

use element::Price;
use entry::Entry;
use writer::Writer;

// A field, and the byte that ends it.
pub fn put_field(writer: &mut Writer, field: &[u8], end: u8)
    ensures { Wrote writer.old (field.now ++ (end ∷ [])) writer.new }
{
    writer.put(field);
    writer.byte(end);
}

// A number of any width that becomes one of 64 bits, and the byte that ends it.
pub fn put_decimal<N: Into<u64>>(writer: &mut Writer, n: N, end: u8)
    ensures { (d : ℕ) × N.converts n d × Wrote writer.old (decimal d ++ (end ∷ [])) writer.new }
{
    writer.number(n.into());
    writer.byte(end);
}

// A number, and the byte that ends it.
pub fn put_number(writer: &mut Writer, n: u32, end: u8)
    ensures { Wrote writer.old (decimal n ++ (end ∷ [])) writer.new }
{
    put_decimal(writer, n, end);
}

// A price or an end of a range, and the byte that ends it.
pub fn put_price(writer: &mut Writer, price: Price, end: u8)
    ensures { Wrote writer.old (price_text price ++ (end ∷ [])) writer.new }
{
    put_number(writer, price, end);
}

// The letter of an entry, and its price or its two ends.
pub fn put_entry(writer: &mut Writer, entry: &Entry)
    ensures { Wrote writer.old (entry_text (held entry.now)) writer.new }
{
    match entry {
        Entry::Known(price) => {
            put_field(writer, b"k", b' ');
            put_price(writer, *price, b' ');
        }
        Entry::Range(_) => {
            put_field(writer, b"r", b' ');
            put_price(writer, entry.low(), b' ');
            put_price(writer, entry.high(), b' ');
        }
    }
}

// The letter of a bit.
fn bit_of(letter: u8) -> u8
    ensures { result ≡ bit_of letter }
{
    if letter == b'1' { b'1' } else { b'0' }
}

// A word, and the end of its line.
pub fn put_word(writer: &mut Writer, word: &[u8])
    ensures { Wrote writer.old (word_text (ones word.now)) writer.new }
{
    for letter in word {
        writer.byte(bit_of(*letter));
    }
    writer.byte(b'\n');
}
