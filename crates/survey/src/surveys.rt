// A survey, and the calls on it.
ghost use Rattle.std.specs.Prelude.{◌≡◌, ◌≤◌, IfOk, IfErr};
ghost use Rattle.element.specs.Marks.{all_marks};
ghost use Rattle.std.specs.List.{slice_get};
ghost use Rattle.entry.specs.Held.{held, sheet};
ghost use Rattle.fault.specs.Refusals.{refusal, refused, told};
ghost use Rattle.promise.specs.Replies.{followed, note_reply, report_reply, run_reply, step_reply};
ghost use Rattle.promise.specs.Surveys.{fresh, note, run, step};
ghost use Rattle.promise.specs.Reports.{Assures};
ghost use Rattle.promise.specs.Runs.{Progresses, Unpaid};
ghost use Rattle.survey.specs.States.{listed, sourced, state};

use crate::steps::Stepped;
use crate::tables::Tables;
use element::{Element, Line, MARKS, Price};
use entry::Entry;
use fault::Fault;
use matroid::{Matroid, show};
use source::Source;
use std::alloc::Global;
use walk::{Progress, Walk, walk_through};

// A survey of a matroid's elements.
#[derive(Drop)]
pub struct Survey<M> {
    pub(crate) matroid: M,
    pub(crate) tables: Tables,
}

// The entries of the first n elements: those of the list, and 0 is known of any other.
fn table_of(entries: &[Entry], n: Element) -> [Entry; MARKS]
    ensures { sheet result ≡ listed n entries.now }
{
    let mut table = [Entry::Known(0); MARKS];
    let count = entries.len().min(usize::from(n));
    table[..count].copy_from_slice(&entries[..count]);
    table
}

impl<M: Matroid + Drop> Survey<M> {
    // A fresh survey: an element beyond the list of entries is known at 0, and surplus entries are ignored.
    pub fn new(heap: Global, matroid: M, entries: &[Entry]) -> Result<Survey<M>, Fault>
        ensures made { IfOk result (λ s. (state s.tables ≡ fresh (listed (M.Matroid.meaning matroid).size entries.now)) × (s.matroid ≡ matroid)) }
        ensures refused { IfErr result (λ f. refusal f ≡ refused 0 0 0) }
    {
        let entries = table_of(entries, matroid.size());
        let lines = Vec::with_capacity(heap, MARKS)?;
        Ok(Survey {
            matroid,
            tables: Tables {
                entries,
                lines,
                pending: None,
            },
        })
    }

    // One step: none where the survey is finished, else the line that was paid.
    pub fn step<S: Source>(&mut self, source: &mut S) -> Result<Option<Line>, Fault>
        ensures matroid { self.new.matroid ≡ self.old.matroid }
        ensures answer { told (λ x. x) result ≡ step_reply (S.Source.meaning source.old).depth (S.Source.origin source.new) (step (M.Matroid.meaning self.old.matroid) (state self.old.tables) (sourced S.Source.meaning S.Source.keeps source.old)).answer }
        ensures survey { state self.new.tables ≡ (step (M.Matroid.meaning self.old.matroid) (state self.old.tables) (sourced S.Source.meaning S.Source.keeps source.old)).survey }
        ensures source { sourced S.Source.meaning S.Source.keeps source.new ≡ (step (M.Matroid.meaning self.old.matroid) (state self.old.tables) (sourced S.Source.meaning S.Source.keeps source.old)).source }
    {
        let mut progress = Progress::new();
        match self.advance(&mut progress, source)? {
            Stepped::Finished(_) => Ok(None),
            Stepped::Paid(line) => Ok(Some(line)),
        }
    }

    // Steps until the survey is finished, or a step is refused; the steps made stay.
    pub fn run<S: Source>(&mut self, source: &mut S) -> Result<(), Fault>
        ensures matroid { self.new.matroid ≡ self.old.matroid }
        ensures answer { told (λ x. x) result ≡ run_reply (S.Source.meaning source.old).depth (S.Source.origin source.new) (run (M.Matroid.meaning self.old.matroid) (state self.old.tables) (sourced S.Source.meaning S.Source.keeps source.old)).answer }
        ensures survey { state self.new.tables ≡ (run (M.Matroid.meaning self.old.matroid) (state self.old.tables) (sourced S.Source.meaning S.Source.keeps source.old)).survey }
        ensures source { sourced S.Source.meaning S.Source.keeps source.new ≡ (run (M.Matroid.meaning self.old.matroid) (state self.old.tables) (sourced S.Source.meaning S.Source.keeps source.old)).source }
        ensures unpaid { Unpaid (run (M.Matroid.meaning self.old.matroid) (state self.old.tables) (sourced S.Source.meaning S.Source.keeps source.old)) }
        ensures progress { Progresses (M.Matroid.meaning self.old.matroid) (state self.old.tables) (sourced S.Source.meaning S.Source.keeps source.old) }
    {
        self.run_to_base(source)?;
        Ok(())
    }

    // A run and then a report: `run_and_report` without its promises, which are shown of it once.
    fn run_and_show<S: Source>(&mut self, source: &mut S, marks: &mut [bool]) -> Result<(), Fault>
        ensures matroid { self.new.matroid ≡ self.old.matroid }
        ensures answer { told (λ x. x) result ≡ (followed (run_reply (S.Source.meaning source.old).depth (S.Source.origin source.new) (run (M.Matroid.meaning self.old.matroid) (state self.old.tables) (sourced S.Source.meaning S.Source.keeps source.old)).answer) marks.old (report_reply (M.Matroid.meaning self.old.matroid) (run (M.Matroid.meaning self.old.matroid) (state self.old.tables) (sourced S.Source.meaning S.Source.keeps source.old)).survey marks.old)).answer }
        ensures marks { marks.new ≡ (followed (run_reply (S.Source.meaning source.old).depth (S.Source.origin source.new) (run (M.Matroid.meaning self.old.matroid) (state self.old.tables) (sourced S.Source.meaning S.Source.keeps source.old)).answer) marks.old (report_reply (M.Matroid.meaning self.old.matroid) (run (M.Matroid.meaning self.old.matroid) (state self.old.tables) (sourced S.Source.meaning S.Source.keeps source.old)).survey marks.old)).marks }
        ensures survey { state self.new.tables ≡ (run (M.Matroid.meaning self.old.matroid) (state self.old.tables) (sourced S.Source.meaning S.Source.keeps source.old)).survey }
        ensures source { sourced S.Source.meaning S.Source.keeps source.new ≡ (run (M.Matroid.meaning self.old.matroid) (state self.old.tables) (sourced S.Source.meaning S.Source.keeps source.old)).source }
        ensures small { (M.Matroid.meaning self.old.matroid).size ≤ all_marks }
    {
        let size = self.matroid.size();
        let kept = self.run_to_base(source)?;
        if marks.len() < MARKS {
            return Err(Fault::TooFewMarks);
        }
        show(&kept, size, marks);
        Ok(())
    }

    // Runs, and where it is finished shows the base that is settled, in the first marks: a run and then a report, by one walk.
    pub fn run_and_report<S: Source>(
        &mut self,
        source: &mut S,
        marks: &mut [bool],
    ) -> Result<(), Fault>
        ensures matroid { self.new.matroid ≡ self.old.matroid }
        ensures answer { told (λ x. x) result ≡ (followed (run_reply (S.Source.meaning source.old).depth (S.Source.origin source.new) (run (M.Matroid.meaning self.old.matroid) (state self.old.tables) (sourced S.Source.meaning S.Source.keeps source.old)).answer) marks.old (report_reply (M.Matroid.meaning self.old.matroid) (run (M.Matroid.meaning self.old.matroid) (state self.old.tables) (sourced S.Source.meaning S.Source.keeps source.old)).survey marks.old)).answer }
        ensures marks { marks.new ≡ (followed (run_reply (S.Source.meaning source.old).depth (S.Source.origin source.new) (run (M.Matroid.meaning self.old.matroid) (state self.old.tables) (sourced S.Source.meaning S.Source.keeps source.old)).answer) marks.old (report_reply (M.Matroid.meaning self.old.matroid) (run (M.Matroid.meaning self.old.matroid) (state self.old.tables) (sourced S.Source.meaning S.Source.keeps source.old)).survey marks.old)).marks }
        ensures survey { state self.new.tables ≡ (run (M.Matroid.meaning self.old.matroid) (state self.old.tables) (sourced S.Source.meaning S.Source.keeps source.old)).survey }
        ensures source { sourced S.Source.meaning S.Source.keeps source.new ≡ (run (M.Matroid.meaning self.old.matroid) (state self.old.tables) (sourced S.Source.meaning S.Source.keeps source.old)).source }
        ensures unpaid { Unpaid (run (M.Matroid.meaning self.old.matroid) (state self.old.tables) (sourced S.Source.meaning S.Source.keeps source.old)) }
        ensures progress { Progresses (M.Matroid.meaning self.old.matroid) (state self.old.tables) (sourced S.Source.meaning S.Source.keeps source.old) }
        ensures promise { Assures (M.Matroid.meaning self.old.matroid) (state self.new.tables) (told (λ x. x) result) marks.new }
    {
        self.run_and_show(source, marks)
    }

    // Makes a price known that was learnt elsewhere: the ledger stays as it was.
    pub fn note(&mut self, element: Element, price: Price) -> Result<(), Fault>
        ensures matroid { self.new.matroid ≡ self.old.matroid }
        ensures answer { told (λ x. x) result ≡ note_reply (M.Matroid.meaning self.old.matroid) (state self.old.tables) element price }
        ensures survey { state self.new.tables ≡ note (M.Matroid.meaning self.old.matroid) (state self.old.tables) element price }
    {
        if element >= self.matroid.size() {
            return Err(Fault::NoSuchElement { element });
        }
        let entry = self.tables.entry(element);
        if entry.is_known() {
            return Err(Fault::AlreadyKnown { element });
        }
        if !entry.admits(price) {
            return Err(Fault::PriceOutside { element, depth: 0 });
        }
        self.tables.learn(element, price);
        Ok(())
    }

    // Shows the base that is settled: a report without its promise, which is shown of it once.
    fn show_settled(&self, marks: &mut [bool]) -> Result<(), Fault>
        ensures answer { told (λ x. x) result ≡ (report_reply (M.Matroid.meaning self.now.matroid) (state self.now.tables) marks.old).answer }
        ensures marks { marks.new ≡ (report_reply (M.Matroid.meaning self.now.matroid) (state self.now.tables) marks.old).marks }
        ensures small { (M.Matroid.meaning self.now.matroid).size ≤ all_marks }
    {
        let n = self.matroid.size();
        if marks.len() < MARKS {
            return Err(Fault::TooFewMarks);
        }
        match walk_through(&self.matroid, &self.tables.entries) {
            Walk::Settled(kept) => {
                show(&kept, n, marks);
                Ok(())
            }
            Walk::Open(_) => Err(Fault::NotSettled),
        }
    }

    // Shows the base that is settled, in the first marks.
    pub fn report(&self, marks: &mut [bool]) -> Result<(), Fault>
        ensures answer { told (λ x. x) result ≡ (report_reply (M.Matroid.meaning self.now.matroid) (state self.now.tables) marks.old).answer }
        ensures marks { marks.new ≡ (report_reply (M.Matroid.meaning self.now.matroid) (state self.now.tables) marks.old).marks }
        ensures promise { Assures (M.Matroid.meaning self.now.matroid) (state self.now.tables) (told (λ x. x) result) marks.new }
    {
        self.show_settled(marks)
    }

    // The lines of the prices paid, in their order.
    pub fn ledger(&self) -> &[Line]
        ensures { result.now ≡ (state self.now.tables).ledger }
    {
        self.tables.lines.as_slice()
    }

    // The line at a position of the ledger; none beyond the end.
    pub fn line(&self, position: usize) -> Option<Line>
        ensures { result ≡ slice_get (state self.now.tables).ledger position }
    {
        self.tables.lines.get(position).copied()
    }

    // What is known of the element's price now.
    pub fn entry(&self, element: Element) -> Entry
        ensures { held result ≡ (state self.now.tables).entries element }
    {
        self.tables.entry(element)
    }
}
