ghost use Rattle.std.specs.Prelude.{false};
ghost use Rattle.survey_trials.specs.Heights.{uniform, uniform_sound};

use element::{Element, Line, MARKS, Price};
use entry::Entry;
use fault::Fault;
use kinds::Route;
use layers::{Memory, Quota};
use matroid::Matroid;
use requests::{Request, conduct};
use routes::Routes;
use source::{Source, Table};
use std::alloc::Global;
use std::test::Fail;
use survey::Survey;

// A source at the largest depth, with one price for all. (Trials of sources have one of their own: a source for both would be a crate more.)
#[derive(Drop)]
struct Uniform {
    price: Price,
}

impl Source for Uniform {
    ghost meaning = { λ s. uniform s.price };

    ghost keeps = { λ s e. false };

    ghost origin = { λ s e. 0 };

    ghost sound = { λ s. uniform_sound s.price };

    fn price(&mut self, _element: Element) -> Result<Price, Fault> {
        Ok(self.price)
    }

    fn left(&self) -> Option<u32> {
        None
    }

    fn free(&self, _element: Element) -> bool {
        false
    }

    fn depth(&self) -> u8 {
        255
    }
}

// Routes that make a triangle.
fn triangle(heap: Global) -> Result<Routes, Fail> {
    let routes = [
        Route { from: 0, to: 1 },
        Route { from: 1, to: 2 },
        Route { from: 0, to: 2 },
    ];
    Ok(Routes::new(routes.to_vec(heap)?)?)
}

// Ranges that overlap.
fn ranges() -> Result<[Entry; 3], Fail> {
    Ok([
        Entry::range(2, 6)?,
        Entry::range(3, 7)?,
        Entry::range(4, 9)?,
    ])
}

// A survey of the triangle with the ranges.
fn survey_of_triangle(heap: Global) -> Result<Survey<Routes>, Fail> {
    Ok(Survey::new(heap, triangle(heap)?, &ranges()?)?)
}

// A table with prices for the three.
fn prices(first: Price, second: Price, third: Price) -> Table {
    let mut table = Table::new();
    table.set(0, Some(first));
    table.set(1, Some(second));
    table.set(2, Some(third));
    table
}

// A quota over a table with prices 4, 6 and the third.
fn quota(third: Price, number: u32) -> Quota<Table> {
    Quota::new(prices(4, 6, third), number)
}

// A number, a place and a depth: the numbers are what is tested here.
type Refusal = (u8, u32, u8);

// Whether the answer is the refusal. (Trials of sources have this line too: one for both would be a crate more.)
fn refuses<T: Drop>(answer: Result<T, Fault>, refusal: Refusal) -> bool {
    answer.is_err_and(|fault| (fault.number(), fault.place(), fault.depth()) == refusal)
}

// Whether a step pays the price for the element.
fn step_pays<S: Source>(
    survey: &mut Survey<Routes>,
    source: &mut S,
    element: Element,
    price: Price,
) -> Result<bool, Fault> {
    Ok(survey.step(source)? == Some(Line { element, price }))
}

// Whether a step has nothing to do.
fn step_rests<S: Source>(survey: &mut Survey<Routes>, source: &mut S) -> Result<bool, Fault> {
    Ok(survey.step(source)?.is_none())
}

// Whether a step is refused so.
fn step_refuses<S: Source>(survey: &mut Survey<Routes>, source: &mut S, refusal: Refusal) -> bool {
    refuses(survey.step(source), refusal)
}

// Checks that a run comes to its end.
fn run_finishes<S: Source>(survey: &mut Survey<Routes>, source: &mut S) -> Result<(), Fail> {
    Ok(survey.run(source)?)
}

// Whether a run is refused so.
fn run_refuses<S: Source>(survey: &mut Survey<Routes>, source: &mut S, refusal: Refusal) -> bool {
    refuses(survey.run(source), refusal)
}

// Whether a report into marks that are all set is refused with the number, at no place and no depth, and leaves them.
fn report_refuses(survey: &Survey<Routes>, marks: &mut [bool], number: u8) -> bool {
    refuses(survey.report(marks), (number, 0, 0)) && marks.iter().all(|mark| *mark)
}

// Whether this is the whole ledger, and no line follows it.
fn has_paid(survey: &Survey<Routes>, lines: &[(Element, Price)]) -> bool {
    let paid = |(i, line): (usize, &(Element, Price))| {
        let (element, price) = *line;
        survey.line(i) == Some(Line { element, price })
    };
    lines.iter().enumerate().all(paid)
        && survey.ledger().len() == lines.len()
        && survey.line(lines.len()).is_none()
}

// Whether this is the base that is shown, and the mark beyond those of a set stays.
fn keeps(survey: &Survey<Routes>, kept: [bool; 3]) -> Result<bool, Fault> {
    let mut marks = [true; 257];
    survey.report(&mut marks)?;
    let expected = |i: usize| i == MARKS || kept.get(i).copied().unwrap_or(false);
    Ok(
        marks
            .iter()
            .enumerate()
            .all(|(i, mark)| *mark == expected(i)),
    )
}

#[test]
fn three_pits(rt: HostRuntime) -> Result<(), Fail> {
    let mut survey = survey_of_triangle(rt.alloc())?;
    run_finishes(&mut survey, &mut quota(5, 3))?;
    assert!(rt; has_paid(&survey, &[(2, 5), (0, 4), (1, 6)]));
    assert!(rt; keeps(&survey, [true, false, true])?);
    assert!(rt; step_rests(&mut survey, &mut Table::new())?);
    Ok(())
}

#[test]
fn allowance_of_two(rt: HostRuntime) -> Result<(), Fail> {
    let mut survey = survey_of_triangle(rt.alloc())?;
    assert!(rt; run_refuses(&mut survey, &mut quota(5, 2), (12, 1, 1)));
    assert!(rt; has_paid(&survey, &[(2, 5), (0, 4)]));
    assert!(rt; report_refuses(&survey, &mut [true; MARKS], 13));
    run_finishes(&mut survey, &mut quota(5, 1))?;
    assert!(rt; keeps(&survey, [true, false, true])?);
    Ok(())
}

// One price settles the walk, and the pending element is not asked for.
#[test]
fn one_pit(rt: HostRuntime) -> Result<(), Fail> {
    let mut survey = survey_of_triangle(rt.alloc())?;
    let mut source = quota(8, 9);
    assert!(rt; step_pays(&mut survey, &mut source, 2, 8)?);
    assert!(rt; step_rests(&mut survey, &mut source)?);
    run_finishes(&mut survey, &mut source)?;
    assert_eq!(rt; source.number(), 8);
    assert!(rt; !survey.entry(0).is_known());
    assert!(rt; has_paid(&survey, &[(2, 8)]));
    assert!(rt; keeps(&survey, [true, true, false])?);
    assert!(rt; report_refuses(&survey, &mut [true; 255], 14));
    Ok(())
}

#[test]
fn pending_kept_over_refusals(rt: HostRuntime) -> Result<(), Fail> {
    let mut survey = survey_of_triangle(rt.alloc())?;
    let mut source = quota(5, 1);
    assert!(rt; step_pays(&mut survey, &mut source, 2, 5)?);
    assert!(rt; step_refuses(&mut survey, &mut source, (12, 0, 1)));
    assert!(rt; step_refuses(&mut survey, &mut prices(6, 6, 5), (10, 0, 1)));
    assert!(rt; run_refuses(&mut survey, &mut Table::new(), (11, 0, 0)));
    assert!(rt; has_paid(&survey, &[(2, 5)]));
    source.raise(1);
    assert!(rt; step_pays(&mut survey, &mut source, 0, 4)?);
    assert_eq!(rt; source.number(), 0);
    Ok(())
}

// A note on the pending element: it is not asked for any more.
#[test]
fn pending_noted(rt: HostRuntime) -> Result<(), Fail> {
    let mut survey = survey_of_triangle(rt.alloc())?;
    let mut source = quota(5, 2);
    assert!(rt; step_pays(&mut survey, &mut source, 2, 5)?);
    survey.note(0, 4)?;
    assert!(rt; step_pays(&mut survey, &mut source, 1, 6)?);
    assert!(rt; step_rests(&mut survey, &mut source)?);
    assert!(rt; has_paid(&survey, &[(2, 5), (1, 6)]));
    assert!(rt; keeps(&survey, [true, false, true])?);
    Ok(())
}

#[test]
fn notes(rt: HostRuntime) -> Result<(), Fail> {
    let mut survey = survey_of_triangle(rt.alloc())?;
    assert!(rt; refuses(survey.note(0, 2), (10, 0, 0)));
    assert!(rt; refuses(survey.note(0, 6), (10, 0, 0)));
    assert!(rt; refuses(survey.note(1, 8), (10, 1, 0)));
    assert!(rt; refuses(survey.note(3, 4), (8, 3, 0)));
    assert!(rt; !survey.entry(0).is_known());
    survey.note(0, 3)?;
    assert!(rt; survey.entry(0).is_known() && survey.entry(0).low() == 3);
    assert!(rt; refuses(survey.note(0, 3), (9, 0, 0)));
    assert!(rt; has_paid(&survey, &[]));
    Ok(())
}

// A price at an end is refused from one above the source, and the survey is as before; the source has given it.
#[test]
fn prices_at_ends(rt: HostRuntime) -> Result<(), Fail> {
    let mut survey = survey_of_triangle(rt.alloc())?;
    let mut pile = Memory::new(quota(4, 1));
    assert!(rt; run_refuses(&mut survey, &mut pile, (10, 2, 3)));
    assert_eq!(rt; pile.left(), Some(0));
    assert!(rt; step_refuses(&mut survey, &mut Uniform { price: 9 }, (10, 2, 255)));
    assert!(rt; step_refuses(&mut survey, &mut Table::new(), (11, 2, 0)));
    assert!(rt; !survey.entry(2).is_known());
    assert!(rt; has_paid(&survey, &[]));
    Ok(())
}

// What a first survey paid for is free for a second one.
#[test]
fn memory_over_two_surveys(rt: HostRuntime) -> Result<(), Fail> {
    let mut memory = Memory::new(quota(5, 3));
    run_finishes(&mut survey_of_triangle(rt.alloc())?, &mut memory)?;
    assert_eq!(rt; memory.left(), Some(0));
    let mut second = survey_of_triangle(rt.alloc())?;
    run_finishes(&mut second, &mut memory)?;
    assert!(rt; has_paid(&second, &[(2, 5), (0, 4), (1, 6)]));
    assert!(rt; keeps(&second, [true, false, true])?);
    Ok(())
}

// Elements beyond the list are known at 0, and entries beyond the elements are ignored.
#[test]
fn lists_of_entries(rt: HostRuntime) -> Result<(), Fail> {
    let few = Survey::new(rt.alloc(), triangle(rt.alloc())?, &[Entry::range(2, 6)?])?;
    assert!(rt; few.entry(1).is_known() && few.entry(1).high() == 0);
    assert!(rt; !few.entry(0).is_known() && few.entry(0).high() == 6);
    assert!(rt; keeps(&few, [false, true, true])?);
    let many = Survey::new(rt.alloc(), triangle(rt.alloc())?, &[Entry::Known(7); 300])?;
    assert!(rt; many.entry(2).low() == 7 && many.entry(3).low() == 0);
    assert_eq!(rt; many.entry(255).low(), 0);
    assert!(rt; keeps(&many, [true, true, false])?);
    Ok(())
}

// Of two parallel routes, one has its high where the other has its price.
#[test]
fn touching_ends(rt: HostRuntime) -> Result<(), Fail> {
    let routes = [Route { from: 0, to: 1 }, Route { from: 1, to: 0 }];
    let matroid = Routes::new(routes.to_vec(rt.alloc())?)?;
    let entries = [Entry::range(3, 5)?, Entry::Known(5)];
    let mut survey = Survey::new(rt.alloc(), matroid, &entries)?;
    run_finishes(&mut survey, &mut quota(5, 2))?;
    assert!(rt; has_paid(&survey, &[]));
    assert!(rt; keeps(&survey, [true, false, false])?);
    Ok(())
}

// Without elements and without requests.
#[test]
fn nothing_at_all(rt: HostRuntime) -> Result<(), Fail> {
    let none = Routes::new(Vec::new(rt.alloc()))?;
    let mut requests: [Request<Table>; 0] = [];
    let mut marks = [true; MARKS];
    let account = conduct(rt.alloc(), none, &ranges()?, &mut requests, &mut marks)?;
    account.answer?;
    account.report?;
    let mut survey = account.survey;
    assert!(rt; refuses(survey.note(0, 4), (8, 0, 0)));
    assert!(rt; step_rests(&mut survey, &mut Table::new())?);
    assert!(rt; keeps(&survey, [false, false, false])?);
    Ok(())
}

#[test]
fn requests_in_turn(rt: HostRuntime) -> Result<(), Fail> {
    let mut requests = [
        Request::Step(quota(5, 1)),
        Request::Note(0, 4),
        Request::Run(quota(5, 2)),
        Request::Report([false; MARKS]),
    ];
    let mut marks = [false; MARKS];
    let matroid = triangle(rt.alloc())?;
    let account = conduct(rt.alloc(), matroid, &ranges()?, &mut requests, &mut marks)?;
    account.answer?;
    account.report?;
    assert!(rt; has_paid(&account.survey, &[(2, 5), (1, 6)]));
    assert!(rt; marks[0] && !marks[1] && marks[2] && !marks[3]);
    match &requests[3] {
        Request::Report(shown) => {
            assert!(rt; shown[0] && !shown[1] && shown[2]);
            Ok(())
        },
        _ => Err(Fail::new("another request")),
    }
}

// A refused request does not end the list, and the account has the last answer alone.
#[test]
fn requests_refused(rt: HostRuntime) -> Result<(), Fail> {
    let mut requests = [
        Request::Note(0, 6),
        Request::Step(quota(5, 1)),
        Request::Run(quota(5, 0)),
    ];
    let mut marks = [false; 255];
    let matroid = triangle(rt.alloc())?;
    let account = conduct(rt.alloc(), matroid, &ranges()?, &mut requests, &mut marks)?;
    assert!(rt; refuses(account.answer, (12, 0, 1)));
    assert!(rt; refuses(account.report, (14, 0, 0)));
    assert!(rt; has_paid(&account.survey, &[(2, 5)]));
    match &requests[1] {
        Request::Step(source) => {
            assert_eq!(rt; source.number(), 0);
            Ok(())
        },
        _ => Err(Fail::new("another request")),
    }
}
