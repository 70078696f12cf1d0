// One call on a survey, with what it is given.
ghost use Rattle.std.specs.Prelude.{◌≡◌};
ghost use Rattle.fault.specs.Refusals.{told};
ghost use Rattle.promise.specs.Calls.{did};
ghost use Rattle.promise.specs.Replies.{spent_call};
ghost use Rattle.survey.specs.States.{state};
ghost use Rattle.requests.specs.Requests.{call_of, reply_to};

use element::{Element, MARKS, Price};
use fault::Fault;
use matroid::Matroid;
use source::Source;
use survey::Survey;

// What is asked of a survey.
#[derive(Drop)]
pub enum Request<S> {
    // One step, with a source.
    Step(S),
    // Steps until the survey is finished or a step is refused, with a source.
    Run(S),
    // A price learnt elsewhere.
    Note(Element, Price),
    // The base that is settled, in marks of its own.
    Report([bool; MARKS]),
}

// Carries out one request: the survey moves on, and the request holds its source or marks as they are then.
pub fn carry_out<M: Matroid + Drop, S: Source + Drop>(
    survey: &mut Survey<M>,
    request: &mut Request<S>,
) -> Result<(), Fault>
    ensures matroid { survey.new.matroid ≡ survey.old.matroid }
    ensures survey { state survey.new.tables ≡ did (M.Matroid.meaning survey.old.matroid) (state survey.old.tables) (call_of S.Source.meaning S.Source.keeps request.old) }
    ensures request { call_of S.Source.meaning S.Source.keeps request.new ≡ spent_call (M.Matroid.meaning survey.old.matroid) (state survey.old.tables) (call_of S.Source.meaning S.Source.keeps request.old) }
    ensures answer { told (λ x. x) result ≡ reply_to S.Source.meaning S.Source.keeps S.Source.origin (M.Matroid.meaning survey.old.matroid) (state survey.old.tables) request.old request.new }
{
    match request {
        Request::Step(source) => survey.step(source).map(|_| ()),
        Request::Run(source) => survey.run(source),
        Request::Note(element, price) => survey.note(*element, *price),
        Request::Report(marks) => survey.report(marks),
    }
}
