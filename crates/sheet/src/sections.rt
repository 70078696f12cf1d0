// The three sections of a sheet.
ghost use Rattle.std.specs.Prelude.{◌≡◌, ◌≤◌, ◌++◌, false, [], map, IfOk, None, vec_len, vec_capacity};
ghost use Rattle.fault.specs.Refusals.{starved};
ghost use Rattle.form.specs.Sheets.{body_text, most_lines, recorded_text, section as a_section, spaced, written};
ghost use Rattle.form.specs.Reading.{body as a_body, body_of as sections_of, counted, repeated};
ghost use Rattle.writer.specs.Written.{Wrote};
ghost use Rattle.sheet.specs.Code.{body_of, record_of, sheet_of};
ghost use Rattle.sheet.specs.Readers.{Empty, Reads};

use crate::lines::{Row, Tail};
use crate::reader::{Limits, Reader};
use crate::values::{Body, ByKind, Sheet};
use crate::writing::{put_decimal, put_field, put_number};
use element::{Line, Place};
use fault::Fault;
use form::Kind;
use std::alloc::{AllocError, Global};
use writer::Writer;

// How many places, lots, elements or recorded prices there may be.
const LINES: Limits = Limits {
    least: 0,
    most: 255,
};

// How many lamps there may be.
const LAMPS: Limits = Limits { least: 1, most: 64 };

// The lines of a section, put into empty room for them.
fn rows<'a, R: Row<'a>>(
    reader: &mut Reader<'a>,
    above: u8,
    count: Place,
    mut items: Vec<R>,
) -> Result<Vec<R>, Fault>
    requires empty { items.items ≡ [] }
    requires space { count ≤ vec_capacity items }
    ensures read { Reads (λ v. map R.Row.value v.items) (repeated (R.Row.step above) None count) reader.old result reader.new }
    ensures len { IfOk result (λ v. vec_len v ≡ count) }
{
    // A line is read beside the one before it: no index is counted.
    for _ in 0..count {
        let item = R::read(reader, above, items.last())?;
        items.push_reserved(item);
    }
    Ok(items)
}

// A section: the line with its count, and its lines.
fn section<'a, R: Row<'a>>(
    reader: &mut Reader<'a>,
    above: u8,
    limits: Limits,
    items: Vec<R>,
) -> Result<Vec<R>, Fault>
    requires empty { items.items ≡ [] }
    requires space { limits.most ≤ vec_capacity items }
    ensures read { Reads (λ v. map R.Row.value v.items) (counted limits.least limits.most (R.Row.step above)) reader.old result reader.new }
    ensures len { IfOk result (λ v. vec_len v ≤ limits.most) }
{
    let count = reader.count(limits)?;
    rows(reader, above, count, items)
}

impl<P: Drop, T: Drop> Body<P, T> {
    // A sheet without lines, with room for as many as it can have: whatever is read into it later wants no memory.
    fn empty(heap: Global, allowance: u32) -> Result<Body<P, T>, AllocError>
        ensures { IfOk result (λ b. (b.allowance ≡ allowance) × Empty most_lines b) }
    {
        let most = usize::from(LINES.most);
        let places = Vec::with_capacity(heap, most)?;
        let elements = Vec::with_capacity(heap, most)?;
        let recorded = Vec::with_capacity(heap, most)?;
        Ok(Body {
            allowance,
            places,
            elements,
            recorded,
        })
    }
}

// The three sections, read into an empty body. No memory is wanted once a line is read.
fn sections<'a, P: Row<'a>, T: Tail<'a>>(
    reader: &mut Reader<'a>,
    limits: Limits,
    empty: Body<P, T>,
) -> Result<Body<P, T>, Fault>
    requires { Empty most_lines empty }
    ensures { Reads (body_of P.Row.value T.Tail.value) (a_body limits.least limits.most (P.Row.step 0) T.Tail.form empty.allowance) reader.old result reader.new }
{
    // No section stands above the first. Neither cast loses a bit: no section has more than 255 lines.
    let places = section(reader, 0, limits, empty.places)?;
    let elements = section(reader, places.len() as u8, LINES, empty.elements)?;
    let recorded = section(reader, elements.len() as u8, LINES, empty.recorded)?;
    Ok(Body {
        allowance: empty.allowance,
        places,
        elements,
        recorded,
    })
}

// A body: the memory for all its lines, then its three sections.
fn body<'a, P: Row<'a>, T: Tail<'a>>(
    heap: Global,
    reader: &mut Reader<'a>,
    limits: Limits,
    allowance: u32,
) -> Result<Body<P, T>, Fault>
    ensures { starved result ≡ false → Reads (body_of P.Row.value T.Tail.value) (a_body limits.least limits.most (P.Row.step 0) T.Tail.form allowance) reader.old result reader.new }
{
    let empty = Body::empty(heap, allowance)?;
    sections(reader, limits, empty)
}

// The sections of a sheet of the kind, with the memory for them.
pub fn by_kind<'a>(
    heap: Global,
    reader: &mut Reader<'a>,
    kind: Kind,
    allowance: u32,
) -> Result<Sheet<'a>, Fault>
    ensures { starved result ≡ false → Reads sheet_of (sections_of kind allowance) reader.old result reader.new }
{
    match kind {
        Kind::Routes => Ok(ByKind::Routes(body(heap, reader, LINES, allowance)?)),
        Kind::Lots => Ok(ByKind::Lots(body(heap, reader, LINES, allowance)?)),
        Kind::Words => Ok(ByKind::Words(body(heap, reader, LAMPS, allowance)?)),
    }
}

// A section: its count, and its lines.
fn write_section<'a, R: Row<'a>>(writer: &mut Writer, items: &[R])
    ensures { Wrote writer.old (a_section R.Row.text (map R.Row.value items.now)) writer.new }
{
    // No `From` leads from usize to u64; the cast loses nothing.
    put_decimal(writer, items.len() as u64, b'\n');
    for item in items {
        item.write(writer);
    }
}

// Lines of elements and prices, after their count.
pub fn write_lines(writer: &mut Writer, lines: &[Line])
    ensures { Wrote writer.old (a_section recorded_text (map record_of lines.now)) writer.new }
{
    write_section(writer, lines);
}

// The kind's word, the allowance and the three sections.
fn write_body<'a, P: Row<'a>, T: Tail<'a>>(writer: &mut Writer, word: &[u8], body: &Body<P, T>)
    ensures { Wrote writer.old (spaced word.now ++ body_text P.Row.text T.Tail.text (body_of P.Row.value T.Tail.value body.now)) writer.new }
{
    put_field(writer, word, b' ');
    put_number(writer, body.allowance, b'\n');
    write_section(writer, &body.places);
    write_section(writer, &body.elements);
    write_lines(writer, &body.recorded);
}

// A whole sheet.
pub fn write_sheet(writer: &mut Writer, sheet: &Sheet)
    ensures { Wrote writer.old (written (sheet_of sheet.now)) writer.new }
{
    match sheet {
        ByKind::Routes(body) => write_body(writer, b"routes", body),
        ByKind::Lots(body) => write_body(writer, b"lots", body),
        ByKind::Words(body) => write_body(writer, b"words", body),
    }
}
