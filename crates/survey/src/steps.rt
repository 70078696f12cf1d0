// The next price call, a step, and a run of steps.
ghost use Rattle.std.specs.Prelude.{◌≡◌, IfOk, Some, OnOk};
ghost use Rattle.fault.specs.Refusals.{told};
ghost use Rattle.entry.specs.Held.{sheet};
ghost use Rattle.matroid.specs.Questions.{marked};
ghost use Rattle.promise.specs.Surveys.{choose, due, next, report, run, step};
ghost use Rattle.promise.specs.Replies.{run_reply, step_reply};
ghost use Rattle.walk.specs.Walked.{Along};
ghost use Rattle.survey.specs.Moves.{Rests, lined, planned};
ghost use Rattle.survey.specs.States.{sourced, state};

use crate::surveys::Survey;
use crate::tables::Tables;
use element::{Element, Line, MARKS};
use fault::Fault;
use matroid::Matroid;
use source::Source;
use walk::{Progress, Walk, choose_pair};

impl Tables {
    // The pending element, where its entry is still a range.
    fn due(&self) -> Option<Element>
        ensures { result ≡ due (state self.now) }
    {
        let element = self.pending?;
        (!self.entry(element).is_known()).then_some(element)
    }
}

// What a survey does next: an enum of its own, since neither is a failure.
pub(crate) enum Move {
    // Nothing: the walk is settled, and the marked elements are kept.
    Rest([bool; MARKS]),
    // A price call for the first, after which the second is pending.
    Ask(Element, Option<Element>),
}

// What a step did: an enum of its own, since neither is a failure.
pub(crate) enum Stepped {
    // Nothing: the walk is settled, and the marked elements are kept.
    Finished([bool; MARKS]),
    // It paid for the line.
    Paid(Line),
}

impl<M: Matroid + Drop> Survey<M> {
    // The price call for the pair in an open circuit: the second is pending where it is no known one.
    fn pair_to_price(&self, marks: &[bool; MARKS]) -> Move
        ensures { planned result ≡ choose (M.Matroid.meaning self.now.matroid).size (sheet self.now.tables.entries) (marked marks.now) }
    {
        let (f, g, known) = choose_pair(&self.tables.entries, self.matroid.size(), marks);
        Move::Ask(f, (!known).then_some(g))
    }

    // What the survey does next, by the walk that goes on from the progress.
    fn next_move(&self, progress: &mut Progress) -> Move
        requires { Along (M.Matroid.meaning self.now.matroid) (sheet self.now.tables.entries) progress.old }
        ensures next { planned result ≡ next (M.Matroid.meaning self.now.matroid) (state self.now.tables) }
        ensures along { Along (M.Matroid.meaning self.now.matroid) (sheet self.now.tables.entries) progress.new }
    {
        match progress.finish(&self.matroid, &self.tables.entries) {
            Walk::Settled(kept) => Move::Rest(kept),
            Walk::Open(marks) => match self.tables.due() {
                Some(element) => Move::Ask(element, None),
                None => self.pair_to_price(&marks),
            },
        }
    }

    // One step of a survey whose walk has come to the progress, which goes on or back with it.
    pub(crate) fn advance<S: Source>(
        &mut self,
        progress: &mut Progress,
        source: &mut S,
    ) -> Result<Stepped, Fault>
        requires { Along (M.Matroid.meaning self.old.matroid) (sheet self.old.tables.entries) progress.old }
        ensures matroid { self.new.matroid ≡ self.old.matroid }
        ensures answer { told lined result ≡ step_reply (S.Source.meaning source.old).depth (S.Source.origin source.new) (step (M.Matroid.meaning self.old.matroid) (state self.old.tables) (sourced S.Source.meaning S.Source.keeps source.old)).answer }
        ensures survey { state self.new.tables ≡ (step (M.Matroid.meaning self.old.matroid) (state self.old.tables) (sourced S.Source.meaning S.Source.keeps source.old)).survey }
        ensures source { sourced S.Source.meaning S.Source.keeps source.new ≡ (step (M.Matroid.meaning self.old.matroid) (state self.old.tables) (sourced S.Source.meaning S.Source.keeps source.old)).source }
        ensures along { OnOk result (Along (M.Matroid.meaning self.old.matroid) (sheet self.new.tables.entries) progress.new) }
        ensures base { IfOk result (λ s. Rests (M.Matroid.meaning self.old.matroid) (state self.new.tables) s) }
    {
        match self.next_move(progress) {
            Move::Rest(kept) => Ok(Stepped::Finished(kept)),
            Move::Ask(element, pending) => {
                let entry = self.tables.entry(element);
                let line = self.tables.price(source, element, pending)?;
                let n = self.matroid.size();
                progress.go_back(&self.tables.entries, n, element, entry.high());
                Ok(Stepped::Paid(line))
            }
        }
    }

    // Steps until one is finished or refused: the elements that are kept then.
    pub(crate) fn run_to_base<S: Source>(&mut self, source: &mut S) -> Result<[bool; MARKS], Fault>
        ensures matroid { self.new.matroid ≡ self.old.matroid }
        ensures answer { told (λ _. tt) result ≡ run_reply (S.Source.meaning source.old).depth (S.Source.origin source.new) (run (M.Matroid.meaning self.old.matroid) (state self.old.tables) (sourced S.Source.meaning S.Source.keeps source.old)).answer }
        ensures survey { state self.new.tables ≡ (run (M.Matroid.meaning self.old.matroid) (state self.old.tables) (sourced S.Source.meaning S.Source.keeps source.old)).survey }
        ensures source { sourced S.Source.meaning S.Source.keeps source.new ≡ (run (M.Matroid.meaning self.old.matroid) (state self.old.tables) (sourced S.Source.meaning S.Source.keeps source.old)).source }
        ensures base { IfOk result (λ kept. report (M.Matroid.meaning self.old.matroid) (state self.new.tables) ≡ Some (marked kept)) }
    {
        let mut progress = Progress::new();
        loop {
            match self.advance(&mut progress, source)? {
                Stepped::Finished(kept) => return Ok(kept),
                Stepped::Paid(_) => {}
            }
        }
    }
}
