// Sheets: read from bytes, and written as bytes.
#![tactic(auto)]

ghost use Rattle.std.specs.Prelude.{◌≡◌, true, false, IfOk, Ok, vec_items};
ghost use Rattle.fault.specs.Refusals.{starved, told};
ghost use Rattle.form.specs.Sheets.{Legal, written};
ghost use Rattle.form.specs.Reading.{checked};
ghost use Rattle.form.specs.Theorem.{Headed, Tells};
ghost use Rattle.sheet.specs.Code.{sheet_of};
ghost use Rattle.sheet.specs.Readers.{Checks};

mod fields;
mod lines;
mod reader;
mod sections;
mod values;
mod writing;

use crate::reader::Reader;
use crate::sections::by_kind;
use fault::Fault;
pub use sections::{write_lines, write_sheet};
use std::alloc::Global;
pub use values::{Body, ByKind, ElementLine, Lot, Sheet};
use writer::Writer;
pub use writing::{put_decimal, put_field, put_number, put_price, put_word};

// The most bytes of a sheet.
const MOST_BYTES: usize = 65_536;

// The sheet, with nothing behind it.
fn read_whole<'a>(heap: Global, bytes: &'a [u8]) -> Result<Sheet<'a>, Fault>
    ensures { Checks result bytes.now }
{
    if bytes.len() > MOST_BYTES {
        return Err(Fault::SheetTooLong);
    }
    let mut reader = Reader {
        rest: bytes,
        line: 1,
    };
    let (kind, allowance) = reader.heading()?;
    let sheet = by_kind(heap, &mut reader, kind, allowance)?;
    if !reader.rest.is_empty() {
        return Err(Fault::Surplus { line: reader.line });
    }
    Ok(sheet)
}

// The sheet that the bytes are, or why they are none.
pub fn read<'a>(heap: Global, bytes: &'a [u8]) -> Result<Sheet<'a>, Fault>
    ensures reads { starved result ≡ false → told sheet_of result ≡ checked bytes.now }
    ensures tells { starved result ≡ false → Tells (told sheet_of result) bytes.now }
    ensures memory { starved result ≡ true → Headed bytes.now }
{
    read_whole(heap, bytes)
}

// The bytes of the sheet. Those of a legal one are read back as that sheet.
pub fn write(heap: Global, sheet: &Sheet) -> Result<Vec<u8>, Fault>
    ensures writes { starved result ≡ false → told vec_items result ≡ Ok (written (sheet_of sheet.now)) }
    ensures back { Legal (sheet_of sheet.now) → IfOk result (λ v. checked v.items ≡ Ok (sheet_of sheet.now)) }
{
    let mut writer = Writer::with_room(heap, MOST_BYTES)?;
    write_sheet(&mut writer, sheet);
    writer.finish()
}
