// What the answers of all matroids have in common: the refusals, and the marks of the result.
ghost use Rattle.std.specs.Prelude.{◌≡◌, position};
ghost use Rattle.fault.specs.Refusals.{told};
ghost use Rattle.matroid.specs.Sets.{cut};
ghost use Rattle.matroid.specs.Questions.{marked, shown, next_mark, admitted};
ghost use Rattle.matroid.specs.Outcomes.{concluded};

use crate::Closing;
use element::{Element, MARKS};
use fault::Fault;

// The place of the first mark.
fn first_mark(marks: &[bool]) -> Option<usize>
    ensures { result ≡ position (λ m. m) marks.now }
{
    marks.iter().position(|marked| *marked)
}

// The lowest mark at or above `from`.
pub fn lowest_mark(marks: &[bool; MARKS], from: usize) -> Option<Element>
    ensures { result ≡ next_mark from marks.now }
{
    let first = first_mark(marks.get(from..)?)?;
    // The cast loses nothing: each place of the marks is an element.
    Some((from + first) as Element)
}

// The marks of the set, for a question to a matroid of n elements that is not refused, whatever is independent.
pub fn admit(
    n: Element,
    set: &[bool],
    element: Element,
    marks: &[bool],
) -> Result<[bool; MARKS], Fault>
    ensures { told (λ x. x) result ≡ admitted n set.now element marks.now }
{
    let members = set.first_chunk::<MARKS>().ok_or(Fault::TooFewMarks)?;
    if marks.len() < MARKS {
        return Err(Fault::TooFewMarks);
    }
    if element >= n {
        return Err(Fault::NoSuchElement { element });
    }
    if let Some(element) = lowest_mark(members, usize::from(n)) {
        return Err(Fault::NoSuchElement { element });
    }
    if members[usize::from(element)] {
        return Err(Fault::AlreadyInSet { element });
    }
    Ok(*members)
}

// Marks the elements below n of the set, and unmarks the others.
pub fn show(members: &[bool; MARKS], n: Element, marks: &mut [bool])
    ensures { marks.new ≡ shown (cut n (marked members.now)) marks.old }
{
    // Marks behind those of a set are not gone through. By index: after `iter_mut().zip(..)` no clause says what was written.
    let count = marks.len().min(MARKS);
    for (k, member) in members[..count].iter().enumerate() {
        marks[k] = k < usize::from(n) && *member;
    }
}

// The answer to a question that is admitted, from what the set makes with the element in a matroid of n elements: nothing, or the circuit
// that is marked, or a refusal.
pub fn conclude(
    outcome: Result<Option<[bool; MARKS]>, Fault>,
    n: Element,
    marks: &mut [bool],
) -> Result<Closing, Fault>
    ensures answer { told (λ x. x) result ≡ (concluded n outcome marks.old).answer }
    ensures marks { marks.new ≡ (concluded n outcome marks.old).marks }
{
    // A match: each case does work of its own.
    match outcome? {
        None => Ok(Closing::Independent),
        Some(circuit) => {
            show(&circuit, n, marks);
            Ok(Closing::Circuit)
        }
    }
}
