// The numbers that everything else goes by: elements, their prices, and the marks that stand for a set of elements.
#![tactic(auto)]

// An element's number.
pub type Element = u8;

// The number of a place or of a lot.
pub type Place = u8;

// A price, or an end of a range.
pub type Price = u32;

// How many marks stand for a set of elements: one for each value of an `Element`. Sets, and what goes by element, are arrays of that length
// on the stack, filled and compared place by place: a rule of the project.
pub const MARKS: usize = 256;

// A price with the element that it is for: a line of a ledger, or of the recorded prices.
#[derive(Clone, Copy, PartialEq, Eq, Debug)]
pub struct Line {
    pub element: Element,
    pub price: Price,
}
