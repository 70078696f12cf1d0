// Every way in which a call declines, with its number, its place and its depth.
#![tactic(auto)]

ghost use Rattle.std.specs.Prelude.{◌≡◌, Some};
ghost use Rattle.fault.specs.declared.Fault.TheVariants.{NoMemory};
ghost use Rattle.fault.specs.Refusals.{refusal};
ghost use Rattle.fault.specs.Words.{sentence};

use element::Element;
use std::alloc::AllocError;
use std::error::Error;
use std::fmt;

// Why a call declined.
#[derive(Clone, Copy, Debug)]
pub enum Fault {
    // The sheet is above 65,536 bytes.
    SheetTooLong,
    // A line lacks its form or its newline, or is missing.
    Malformed { line: u32 },
    // A count is beyond its limits.
    CountBeyondLimit { line: u32 },
    // A range whose low is not below its high; line 0 where it stands on no sheet.
    LowNotBelowHigh { line: u32 },
    // A number names no place, lot or element.
    NamesNothing { line: u32 },
    // A recorded element is not above the one before it.
    NotRising { line: u32 },
    // Bytes follow the third section.
    Surplus { line: u32 },
    NoSuchElement { element: Element },
    AlreadyKnown { element: Element },
    // The price does not lie strictly inside the element's range.
    PriceOutside { element: Element, depth: u8 },
    // The source has no price for the element.
    NoPrice { element: Element, depth: u8 },
    // The allowance is 0 and the element is not free.
    AllowanceSpent { element: Element, depth: u8 },
    // No base is settled.
    NotSettled,
    TooFewMarks,
    AlreadyInSet { element: Element },
    DependentSet,
    // There was no memory for the answer.
    NoMemory,
}

impl Fault {
    // The number that stands for what went wrong; 0 for want of memory.
    pub fn number(&self) -> u8
        ensures { result ≡ (refusal self.now).number }
    {
        match self {
            Fault::NoMemory => 0,
            Fault::SheetTooLong => 1,
            Fault::Malformed { .. } => 2,
            Fault::CountBeyondLimit { .. } => 3,
            Fault::LowNotBelowHigh { .. } => 4,
            Fault::NamesNothing { .. } => 5,
            Fault::NotRising { .. } => 6,
            Fault::Surplus { .. } => 7,
            Fault::NoSuchElement { .. } => 8,
            Fault::AlreadyKnown { .. } => 9,
            Fault::PriceOutside { .. } => 10,
            Fault::NoPrice { .. } => 11,
            Fault::AllowanceSpent { .. } => 12,
            Fault::NotSettled => 13,
            Fault::TooFewMarks => 14,
            Fault::AlreadyInSet { .. } => 15,
            Fault::DependentSet => 16,
        }
    }

    // The line of the sheet, or the element, that it is about; 0 where it is about neither.
    pub fn place(&self) -> u32
        ensures { result ≡ (refusal self.now).place }
    {
        match self {
            Fault::Malformed { line }
            | Fault::CountBeyondLimit { line }
            | Fault::LowNotBelowHigh { line }
            | Fault::NamesNothing { line }
            | Fault::NotRising { line }
            | Fault::Surplus { line } => *line,
            Fault::NoSuchElement { element }
            | Fault::AlreadyKnown { element }
            | Fault::PriceOutside { element, .. }
            | Fault::NoPrice { element, .. }
            | Fault::AllowanceSpent { element, .. }
            | Fault::AlreadyInSet { element } => u32::from(*element),
            Fault::NoMemory
            | Fault::SheetTooLong
            | Fault::NotSettled
            | Fault::TooFewMarks
            | Fault::DependentSet => 0,
        }
    }

    // How deep in a pile of sources the refusing one stands; 0 where no source refused.
    pub fn depth(&self) -> u8
        ensures { result ≡ (refusal self.now).depth }
    {
        match self {
            Fault::PriceOutside { depth, .. }
            | Fault::NoPrice { depth, .. }
            | Fault::AllowanceSpent { depth, .. } => *depth,
            _ => 0,
        }
    }
}

impl From<AllocError> for Fault {
    ghost from_gives = { λ _ f. f ≡ NoMemory };

    fn from(_: AllocError) -> Fault {
        Self::NoMemory
    }
}

impl fmt::Display for Fault {
    ghost output = { λ f. Some (sentence f) };

    fn fmt<W: fmt::Write>(&self, f: &mut fmt::Formatter<W>) -> fmt::Result {
        let number = self.number();
        let place = self.place();
        let depth = self.depth();
        write!(f, "refusal {number} at place {place}, depth {depth}")
    }
}

impl Error for Fault {}
