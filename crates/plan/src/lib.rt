// Plans: from the bytes of a sheet to the bytes of its plan.
#![tactic(auto)]

ghost use Rattle.std.specs.Prelude.{◌≡◌, false, Ok, vec_items};
ghost use Rattle.fault.specs.Refusals.{refusal, starved, told};
ghost use Rattle.plan.specs.Plans.{plan_bytes, refused_text};
ghost use Rattle.plan.specs.Promises.{Kept, Tells};

mod gathering;
mod naming;
mod planning;
mod surveying;
mod texts;

use crate::planning::plan_sheet;
use fault::Fault;
use sheet::{put_decimal, put_number, read};
use std::alloc::Global;
use writer::Writer;

// The most bytes of the lines that tell of a refused sheet.
const REFUSED_BYTES: usize = 64;

// What is printed of a sheet that is refused.
fn refused_bytes(heap: Global, fault: Fault) -> Result<Vec<u8>, Fault>
    ensures { starved result ≡ false → told vec_items result ≡ Ok (refused_text (refusal fault)) }
{
    let mut writer = Writer::with_room(heap, REFUSED_BYTES)?;
    writer.put(b"refused ");
    put_decimal(&mut writer, fault.number(), b' ');
    put_number(&mut writer, fault.place(), b'\n');
    writer.finish()
}

// The plan of the bytes of a sheet; a sheet that is refused has a plan too, which says so. Only want of memory is a fault.
pub fn plan(heap: Global, bytes: &[u8]) -> Result<Vec<u8>, Fault>
    ensures plan { starved result ≡ false → told vec_items result ≡ Ok (plan_bytes bytes.now) }
    ensures promise { Kept bytes.now }
    ensures tells { Tells bytes.now }
{
    match read(heap, bytes) {
        Ok(sheet) => plan_sheet(heap, &sheet),
        // This one alone is handed on: the others are told in the plan.
        Err(Fault::NoMemory) => Err(Fault::NoMemory),
        Err(fault) => refused_bytes(heap, fault),
    }
}
