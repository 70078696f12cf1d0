// The elements that a walk goes over, with their entries.
ghost use Rattle.std.specs.Prelude.{◌≡◌, ◌&&◌, length};
ghost use Rattle.element.specs.Marks.{all_marks};
ghost use Rattle.entry.specs.Entries.{low, high, known};
ghost use Rattle.entry.specs.Held.{sheet};
ghost use Rattle.matroid.specs.Sets.{lowest};
ghost use Rattle.matroid.specs.Questions.{marked};
ghost use Rattle.promise.specs.Walks.{earlier, earliest, topped, topmost, challenges, rival};
ghost use Rattle.walk.specs.Stages.{behind, lower};
ghost use Rattle.walk.specs.Walked.{Highest, found};

use element::{Element, MARKS, Price};
use entry::Entry;

// The elements below n, with the entries that go by their numbers.
#[derive(Clone, Copy)]
pub(crate) struct Ground<'a> {
    pub(crate) entries: &'a [Entry; MARKS],
    pub(crate) n: Element,
    ghost all: { length entries.now ≡ all_marks },
}

impl<'a> Ground<'a> {
    fn low(&self, i: Element) -> Price
        ensures { result ≡ low (sheet self.now.entries.now i) }
    {
        self.entries[usize::from(i)].low()
    }

    fn high(&self, i: Element) -> Price
        ensures { result ≡ high (sheet self.now.entries.now i) }
    {
        self.entries[usize::from(i)].high()
    }

    pub(crate) fn is_known(&self, i: Element) -> bool
        ensures { result ≡ known (sheet self.now.entries.now i) }
    {
        self.entries[usize::from(i)].is_known()
    }

    // By what the walk takes one element before another.
    fn order(&self, i: Element) -> (Price, Price, Element)
        ensures low { result.0 ≡ low (sheet self.now.entries.now i) }
        ensures high { result.1 ≡ high (sheet self.now.entries.now i) }
        ensures number { result.2 ≡ i }
    {
        (self.low(i), self.high(i), i)
    }

    // Whether the walk takes i before j.
    fn goes_before(&self, i: Element, j: Element) -> bool
        ensures { result ≡ earlier (sheet self.now.entries.now) i j }
    {
        self.order(i) < self.order(j)
    }

    // Whether every other mark has its high at or below the low of e.
    pub(crate) fn is_topped(&self, marks: &[bool; MARKS], e: Element) -> bool
        ensures { result ≡ topped self.now.n (sheet self.now.entries.now) (marked marks.now) e }
    {
        let low = self.low(e);
        (0..self.n).all(|x| !marks[usize::from(x)] || x == e || self.high(x) <= low)
    }

    // The earliest untaken element.
    pub(crate) fn next(&self, taken: &[bool; MARKS]) -> Option<Element>
        ensures { result ≡ found self.now.n (earliest self.now.n (sheet self.now.entries.now) (marked taken.now)) }
    {
        (0..self.n)
            .filter(|&i| !taken[usize::from(i)])
            .min_by_key(|&i| self.order(i))
    }

    // The largest high of a mark.
    fn highest(&self, marks: &[bool; MARKS]) -> Option<Price>
        ensures { Highest self.now.n (sheet self.now.entries.now) (marked marks.now) result }
    {
        (0..self.n)
            .filter(|&i| marks[usize::from(i)])
            .map(|i| self.high(i))
            .max()
    }

    // The lowest-numbered mark with the largest high.
    pub(crate) fn topmost(&self, marks: &[bool; MARKS]) -> Option<Element>
        ensures { result ≡ found self.now.n (topmost self.now.n (sheet self.now.entries.now) (marked marks.now)) }
    {
        let highest = self.highest(marks)?;
        (0..self.n).find(|&i| marks[usize::from(i)] && self.high(i) == highest)
    }

    // Whether i is another mark than f, with a high above the low of f.
    fn is_challenger(&self, marks: &[bool; MARKS], f: Element, i: Element) -> bool
        ensures { result ≡ challenges (sheet self.now.entries.now) (marked marks.now) f i }
    {
        marks[usize::from(i)] && i != f && self.low(f) < self.high(i)
    }

    // The lowest-numbered challenger of f that is known.
    fn known_challenger(&self, marks: &[bool; MARKS], f: Element) -> Option<Element>
        ensures { result ≡ found self.now.n (lowest self.now.n (λ i. challenges (sheet self.now.entries.now) (marked marks.now) f i && known (sheet self.now.entries.now i))) }
    {
        (0..self.n).find(|&i| self.is_challenger(marks, f, i) && self.is_known(i))
    }

    // The lowest-numbered challenger of f.
    fn first_challenger(&self, marks: &[bool; MARKS], f: Element) -> Option<Element>
        ensures { result ≡ found self.now.n (lowest self.now.n (challenges (sheet self.now.entries.now) (marked marks.now) f)) }
    {
        (0..self.n).find(|&i| self.is_challenger(marks, f, i))
    }

    // The lowest-numbered challenger of f that is known, or where none is the lowest-numbered one.
    pub(crate) fn rival(&self, marks: &[bool; MARKS], f: Element) -> Option<Element>
        ensures { result ≡ found self.now.n (rival self.now.n (sheet self.now.entries.now) (marked marks.now) f) }
    {
        // A match: of the closure that `or_else` would take no clause says what it answers.
        match self.known_challenger(marks, f) {
            None => self.first_challenger(marks, f),
            known => known,
        }
    }

    // Takes the marks off all elements but those whose low is below the given one.
    pub(crate) fn keep_lower(&self, marks: &mut [bool; MARKS], high: Price)
        ensures { marked marks.new ≡ lower (sheet self.now.entries.now) high (marked marks.old) }
    {
        // The cast loses nothing: each place of the marks is an element. After `iter_mut().zip(..)` no clause says what was written.
        for (i, mark) in marks.iter_mut().enumerate() {
            *mark = *mark && self.low(i as Element) < high;
        }
    }

    // Whether x goes before none of the other marks.
    pub(crate) fn is_behind(&self, marks: &[bool; MARKS], x: Element) -> bool
        ensures { result ≡ behind self.now.n (sheet self.now.entries.now) x (marked marks.now) }
    {
        !(0..self.n).any(|i| marks[usize::from(i)] && i != x && self.goes_before(x, i))
    }
}
