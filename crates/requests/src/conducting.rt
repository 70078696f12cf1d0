// A whole survey: made, asked, and reported.
ghost use Rattle.std.specs.Prelude.{◌≡◌, IfOk, IfErr, OnOk};
ghost use Rattle.fault.specs.Refusals.{refusal, refused, told};
ghost use Rattle.promise.specs.Calls.{after};
ghost use Rattle.promise.specs.Claims.{Promise};
ghost use Rattle.promise.specs.Replies.{report_reply, spent_calls};
ghost use Rattle.promise.specs.Reports.{Reported};
ghost use Rattle.promise.specs.Surveys.{fresh};
ghost use Rattle.survey.specs.States.{listed, state};
ghost use Rattle.requests.specs.Requests.{LastReply, calls_of};

use crate::carrying::Request;
use crate::lists::carry_out_all;
use entry::Entry;
use fault::Fault;
use matroid::Matroid;
use source::Source;
use std::alloc::Global;
use survey::Survey;

// A survey after its requests, with the answer to the last of them and to the report that came after it.
#[derive(Drop)]
pub struct Account<M> {
    pub survey: Survey<M>,
    pub answer: Result<(), Fault>,
    pub report: Result<(), Fault>,
}

// Makes a survey of the matroid and the entries, carries out the requests, and reports into the marks.
pub fn conduct<M: Matroid + Drop, S: Source + Drop>(
    heap: Global,
    matroid: M,
    entries: &[Entry],
    requests: &mut [Request<S>],
    marks: &mut [bool],
) -> Result<Account<M>, Fault>
    ensures memory { IfErr result (λ f. (refusal f ≡ refused 0 0 0) × (requests.new ≡ requests.old) × (marks.new ≡ marks.old)) }
    ensures survey { IfOk result (λ a. (a.survey.matroid ≡ matroid) × (state a.survey.tables ≡ after (M.Matroid.meaning matroid) (fresh (listed (M.Matroid.meaning matroid).size entries.now)) (calls_of S.Source.meaning S.Source.keeps requests.old))) }
    ensures requests { OnOk result (calls_of S.Source.meaning S.Source.keeps requests.new ≡ spent_calls (M.Matroid.meaning matroid) (fresh (listed (M.Matroid.meaning matroid).size entries.now)) (calls_of S.Source.meaning S.Source.keeps requests.old)) }
    ensures answer { IfOk result (λ a. LastReply S.Source.meaning S.Source.keeps S.Source.origin (M.Matroid.meaning matroid) (fresh (listed (M.Matroid.meaning matroid).size entries.now)) requests.old requests.new (told (λ x. x) a.answer)) }
    ensures report { IfOk result (λ a. told (λ x. x) a.report ≡ (report_reply (M.Matroid.meaning matroid) (after (M.Matroid.meaning matroid) (fresh (listed (M.Matroid.meaning matroid).size entries.now)) (calls_of S.Source.meaning S.Source.keeps requests.old)) marks.old).answer) }
    ensures marks { OnOk result (marks.new ≡ (report_reply (M.Matroid.meaning matroid) (after (M.Matroid.meaning matroid) (fresh (listed (M.Matroid.meaning matroid).size entries.now)) (calls_of S.Source.meaning S.Source.keeps requests.old)) marks.old).marks) }
    ensures reported { IfOk result (λ a. Reported (M.Matroid.meaning matroid) (listed (M.Matroid.meaning matroid).size entries.now) (calls_of S.Source.meaning S.Source.keeps requests.old) (told (λ x. x) a.report) marks.new) }
    ensures promise { Promise (M.Matroid.meaning matroid) (listed (M.Matroid.meaning matroid).size entries.now) (calls_of S.Source.meaning S.Source.keeps requests.old) }
{
    let mut survey = Survey::new(heap, matroid, entries)?;
    let answer = carry_out_all(&mut survey, requests);
    let report = survey.report(marks);
    Ok(Account {
        survey,
        answer,
        report,
    })
}
