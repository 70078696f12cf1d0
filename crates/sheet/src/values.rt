use element::{Line, Place};
use entry::Entry;
use kinds::Route;

// A lot's line: its name and its cap.
#[derive(Clone, Copy)]
pub struct Lot<'a> {
    pub name: &'a [u8],
    pub cap: u32,
}

// An element's line: what is known of its price, and what it joins or where it belongs.
#[derive(Drop)]
pub struct ElementLine<T> {
    pub entry: Entry,
    pub tail: T,
}

// What the three kinds of sheet share: the allowance and the lines of the three sections.
#[derive(Drop)]
pub struct Body<P, T> {
    pub allowance: u32,
    pub places: Vec<P>,
    pub elements: Vec<ElementLine<T>>,
    pub recorded: Vec<Line>,
}

// One of three, by the kind of a sheet.
#[derive(Drop)]
pub enum ByKind<R, L, W> {
    Routes(R),
    Lots(L),
    Words(W),
}

// A sheet whose names and words are parts of the bytes that it was read from.
pub type Sheet<'a> = ByKind<Body<&'a [u8], Route>, Body<Lot<'a>, Place>, Body<&'a [u8], &'a [u8]>>;
