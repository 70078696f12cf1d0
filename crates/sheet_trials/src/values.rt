use crate::refusals::Refusal;
use element::Place;
use entry::Entry;
use fault::Fault;
use kinds::Route;
use sheet::{Body, ByKind, Lot, Sheet, read};
use std::test::Fail;

// One sheet of each kind, as the functions below tell it.
const TEXTS: [&'static str; 3] = [
    "routes 9\n3\na\nb\nc\n3\nr 2 6 0 1\nr 3 7 1 2\nr 4 9 0 2\n3\n0 4\n1 6\n2 5\n",
    "lots 2\n2\nroof 1\npath 7\n1\nk 5 1\n0\n",
    "words 3\n2\nred\nblue\n1\nr 3 5 01\n0\n",
];

fn has_routes(body: &Body<&[u8], Route>) -> bool {
    let ([_, _, place], [_, _, line], [_, _, record]) = (
        body.places.as_slice(),
        body.elements.as_slice(),
        body.recorded.as_slice(),
    ) else {
        return false;
    };
    body.allowance == 9
        && *place == b"c".as_slice()
        && (line.entry.low(), line.entry.high(), line.entry.is_known()) == (4, 9, false)
        && line.tail == Route { from: 0, to: 2 }
        && (record.element, record.price) == (2, 5)
}

fn has_lots(body: &Body<Lot, Place>) -> bool {
    let ([_, lot], [line], []) = (
        body.places.as_slice(),
        body.elements.as_slice(),
        body.recorded.as_slice(),
    ) else {
        return false;
    };
    body.allowance == 2
        && lot.name == b"path".as_slice()
        && (lot.cap, line.tail) == (7, 1)
        && (line.entry.low(), line.entry.high(), line.entry.is_known()) == (5, 5, true)
}

fn has_words(body: &Body<&[u8], &[u8]>) -> bool {
    let ([_, lamp], [line], []) = (
        body.places.as_slice(),
        body.elements.as_slice(),
        body.recorded.as_slice(),
    ) else {
        return false;
    };
    body.allowance == 3
        && *lamp == b"blue".as_slice()
        && line.tail == b"01".as_slice()
        && (line.entry.low(), line.entry.high(), line.entry.is_known()) == (3, 5, false)
}

fn has_values(sheet: &Sheet) -> bool {
    match sheet {
        ByKind::Routes(body) => has_routes(body),
        ByKind::Lots(body) => has_lots(body),
        ByKind::Words(body) => has_words(body),
    }
}

#[test]
fn reads(rt: HostRuntime) -> Result<(), Fail> {
    for text in &TEXTS {
        let sheet = read(rt.alloc(), text.as_bytes())?;
        assert!(rt; has_values(&sheet), "{text}");
    }
    Ok(())
}

// A fault, and what it says.
const FAULTS: [(Fault, Refusal); 17] = [
    (Fault::NoMemory, Refusal(0, 0, 0)),
    (Fault::SheetTooLong, Refusal(1, 0, 0)),
    (Fault::Malformed { line: 1 }, Refusal(2, 1, 0)),
    (Fault::CountBeyondLimit { line: 2 }, Refusal(3, 2, 0)),
    (Fault::LowNotBelowHigh { line: 70 }, Refusal(4, 70, 0)),
    (Fault::NamesNothing { line: 768 }, Refusal(5, 768, 0)),
    (
        Fault::NotRising { line: 4294967295 },
        Refusal(6, 4294967295, 0),
    ),
    (Fault::Surplus { line: 14 }, Refusal(7, 14, 0)),
    (Fault::NoSuchElement { element: 255 }, Refusal(8, 255, 0)),
    (Fault::AlreadyKnown { element: 9 }, Refusal(9, 9, 0)),
    (PRICE_OUTSIDE, Refusal(10, 3, 2)),
    (NO_PRICE, Refusal(11, 4, 1)),
    (ALLOWANCE_SPENT, Refusal(12, 1, 255)),
    (Fault::NotSettled, Refusal(13, 0, 0)),
    (Fault::TooFewMarks, Refusal(14, 0, 0)),
    (Fault::AlreadyInSet { element: 6 }, Refusal(15, 6, 0)),
    (Fault::DependentSet, Refusal(16, 0, 0)),
];

const PRICE_OUTSIDE: Fault = Fault::PriceOutside {
    element: 3,
    depth: 2,
};

const NO_PRICE: Fault = Fault::NoPrice {
    element: 4,
    depth: 1,
};

const ALLOWANCE_SPENT: Fault = Fault::AllowanceSpent {
    element: 1,
    depth: 255,
};

#[test]
fn faults(rt: HostRuntime) -> Result<(), Fail> {
    for (fault, told) in &FAULTS {
        assert_eq!(rt; Refusal::from(*fault), *told);
        let Refusal(number, place, depth) = *told;
        let shown = fault.to_string(rt.alloc())?;
        let text = format!(in rt.alloc(); "refusal {number} at place {place}, depth {depth}")?;
        assert_eq!(rt; shown.as_str(), text.as_str());
    }
    let shown = ALLOWANCE_SPENT.to_string(rt.alloc())?;
    assert_eq!(rt; shown.as_str(), "refusal 12 at place 1, depth 255");
    Ok(())
}

// Two ends, and the refusal; none for a range.
const ENDS: [(u32, u32, Option<Refusal>); 6] = [
    (3, 4, None),
    (0, 4294967295, None),
    (4294967294, 4294967295, None),
    (5, 5, Some(Refusal(4, 0, 0))),
    (6, 5, Some(Refusal(4, 0, 0))),
    (4294967295, 0, Some(Refusal(4, 0, 0))),
];

#[test]
fn ranges(rt: HostRuntime) -> Result<(), Fail> {
    for (low, high, refusal) in &ENDS {
        match Entry::range(*low, *high) {
            Ok(entry) => {
                assert_eq!(rt; *refusal, None);
                assert_eq!(rt; (entry.low(), entry.high()), (*low, *high));
                assert!(rt; !entry.is_known());
                assert!(rt; !entry.admits(*low) && !entry.admits(*high));
            }
            Err(fault) => assert_eq!(rt; Some(Refusal::from(fault)), *refusal),
        }
    }
    let entry = Entry::range(3, 5)?;
    assert!(rt; entry.admits(4) && !entry.admits(2) && !entry.admits(6));
    let entry = Entry::Known(7);
    assert_eq!(rt; (entry.low(), entry.high()), (7, 7));
    assert!(rt; entry.is_known() && !entry.admits(7));
    Ok(())
}
