// The plan of a body: its survey is run with the recorded prices, and what it came to is written.
ghost use Rattle.std.specs.Prelude.{◌≡◌, false, map, Ok, vec_items};
ghost use Rattle.fault.specs.Refusals.{starved, told};
ghost use Rattle.survey.specs.States.{listed};
ghost use Rattle.plan.specs.Meanings.{entry_of};
ghost use Rattle.plan.specs.Names.{held_names};
ghost use Rattle.plan.specs.Texts.{plan_of, rationed};

use crate::naming::Named;
use crate::texts::Surveyed;
use element::MARKS;
use entry::Entry;
use fault::Fault;
use layers::Quota;
use matroid::Matroid;
use sheet::Body;
use source::Record;
use std::alloc::Global;
use survey::Survey;
use writer::Writer;

// The most bytes of a plan.
const MOST_BYTES: usize = 65_536;

// The plan of a body whose elements are those of the matroid.
pub fn plan_body<P: Drop, T: Named<P> + Drop, M: Matroid + Drop>(
    heap: Global,
    matroid: M,
    body: &Body<P, T>,
) -> Result<Vec<u8>, Fault>
    ensures { starved result ≡ false → told vec_items result ≡ Ok (plan_of (M.Matroid.meaning matroid) (listed (M.Matroid.meaning matroid).size (map entry_of body.now.elements.items)) (rationed body.now.recorded.items body.now.allowance) (held_names T.Named.named body.now)) }
{
    let n = matroid.size();
    let entries: Vec<Entry> = body.elements.iter().map(|line| line.entry).collect(heap)?;
    let mut source = Quota::new(Record::new(&body.recorded), body.allowance);
    let mut marks = [false; MARKS];
    let mut survey = Survey::new(heap, matroid, &entries)?;
    let answer = survey.run_and_report(&mut source, &mut marks);
    let mut writer = Writer::with_room(heap, MOST_BYTES)?;
    let surveyed = Surveyed {
        survey: &survey,
        body,
        n,
        marks: &marks,
    };
    surveyed.put(&mut writer, answer);
    writer.finish()
}
