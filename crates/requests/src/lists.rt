// Requests one after another.
ghost use Rattle.std.specs.Prelude.{◌≡◌};
ghost use Rattle.fault.specs.Refusals.{told};
ghost use Rattle.promise.specs.Calls.{after};
ghost use Rattle.promise.specs.Replies.{spent_calls};
ghost use Rattle.survey.specs.States.{state};
ghost use Rattle.requests.specs.Requests.{LastReply, calls_of};

use crate::carrying::{Request, carry_out};
use fault::Fault;
use matroid::Matroid;
use source::Source;
use survey::Survey;

// Carries out the requests, and answers the last.
pub fn carry_out_all<M: Matroid + Drop, S: Source + Drop>(
    survey: &mut Survey<M>,
    requests: &mut [Request<S>],
) -> Result<(), Fault>
    ensures matroid { survey.new.matroid ≡ survey.old.matroid }
    ensures survey { state survey.new.tables ≡ after (M.Matroid.meaning survey.old.matroid) (state survey.old.tables) (calls_of S.Source.meaning S.Source.keeps requests.old) }
    ensures requests { calls_of S.Source.meaning S.Source.keeps requests.new ≡ spent_calls (M.Matroid.meaning survey.old.matroid) (state survey.old.tables) (calls_of S.Source.meaning S.Source.keeps requests.old) }
    ensures answer { LastReply S.Source.meaning S.Source.keeps S.Source.origin (M.Matroid.meaning survey.old.matroid) (state survey.old.tables) requests.old requests.new (told (λ x. x) result) }
{
    let mut answer = Ok(());
    for request in requests.iter_mut() {
        answer = carry_out(survey, request);
    }
    answer
}
