// The plan of a sheet, by its kind.
ghost use Rattle.std.specs.Prelude.{◌≡◌, false, Ok, vec_items};
ghost use Rattle.fault.specs.Refusals.{starved, told};
ghost use Rattle.form.specs.Sheets.{Within};
ghost use Rattle.sheet.specs.Code.{sheet_of};
ghost use Rattle.plan.specs.Plans.{sheet_plan};

use crate::gathering::{lots_in, routes_in, words_in};
use crate::surveying::plan_body;
use fault::Fault;
use sheet::{ByKind, Sheet};
use std::alloc::Global;

// The plan of a sheet.
pub fn plan_sheet(heap: Global, sheet: &Sheet) -> Result<Vec<u8>, Fault>
    ensures { Within (sheet_of sheet.now) → starved result ≡ false → told vec_items result ≡ Ok (sheet_plan (sheet_of sheet.now)) }
{
    match sheet {
        ByKind::Routes(body) => plan_body(heap, routes_in(heap, body)?, body),
        ByKind::Lots(body) => plan_body(heap, lots_in(heap, body)?, body),
        ByKind::Words(body) => plan_body(heap, words_in(heap, body)?, body),
    }
}
