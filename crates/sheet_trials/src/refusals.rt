use fault::Fault;
use sheet::read;
use std::alloc::Global;

// A text, and the number and the line that it is refused with: the numbers themselves are what is tested.
type Case = (&'static str, u8, u32);

// The first line.
const HEADINGS: [Case; 14] = [
    ("", 2, 1),
    ("routes 9", 2, 1),
    ("routes 09\n0\n0\n0\n", 2, 1),
    ("routes 00\n0\n0\n0\n", 2, 1),
    ("routes  9\n0\n0\n0\n", 2, 1),
    ("routes 9 \n0\n0\n0\n", 2, 1),
    ("routes 9\r\n0\n0\n0\n", 2, 1),
    ("routes\n0\n0\n0\n", 2, 1),
    ("routes \n0\n0\n0\n", 2, 1),
    ("routes -1\n0\n0\n0\n", 2, 1),
    ("routes 4294967296\n0\n0\n0\n", 2, 1),
    ("routes 42949672950\n0\n0\n0\n", 2, 1),
    ("Routes 9\n0\n0\n0\n", 2, 1),
    ("\nroutes 9\n0\n0\n0\n", 2, 1),
];

// The first section.
const PLACES: [Case; 20] = [
    ("routes 9\n", 2, 2),
    ("routes 9\n0", 2, 2),
    ("routes 9\n03\n", 2, 2),
    ("routes 9\n0256\n", 2, 2),
    ("routes 9\n4294967296\n", 2, 2),
    ("routes 9\n4294967295\n", 3, 2),
    ("routes 9\n256\n", 3, 2),
    ("lots 9\n256\n", 3, 2),
    ("words 9\n0\n", 3, 2),
    ("words 9\n65\n", 3, 2),
    ("routes 9\n1\n", 2, 3),
    ("routes 9\n1\n\n0\n0\n", 2, 3),
    ("routes 9\n1\nA\n0\n0\n", 2, 3),
    ("routes 9\n1\na b\n0\n0\n", 2, 3),
    ("routes 9\n1\nabcdefghijklm\n0\n0\n", 2, 3),
    ("routes 9\n2\na\nb\r\n0\n0\n", 2, 4),
    ("routes 9\n2\na\nb", 2, 4),
    ("lots 9\n1\na\n0\n0\n", 2, 3),
    ("lots 9\n1\na 01\n0\n0\n", 2, 3),
    ("lots 9\n2\na 1\n 2\n0\n0\n", 2, 4),
];

// The second section.
const ELEMENTS: [Case; 28] = [
    ("routes 9\n0\n", 2, 3),
    ("routes 9\n0\n256\n", 3, 3),
    ("routes 9\n2\na\nb\n1\nx 5 0 1\n0\n", 2, 6),
    ("routes 9\n2\na\nb\n1\nkk 5 0 1\n0\n", 2, 6),
    ("routes 9\n2\na\nb\n1\n 5 0 1\n0\n", 2, 6),
    ("routes 9\n2\na\nb\n1\nk 5 6 0 1\n0\n", 2, 6),
    ("routes 9\n2\na\nb\n1\nr 5 0 1\n0\n", 2, 6),
    ("routes 9\n2\na\nb\n1\nk 5  0 1\n0\n", 2, 6),
    ("routes 9\n2\na\nb\n1\nk 5 0 1\r\n0\n", 2, 6),
    ("routes 9\n2\na\nb\n1\nk 4294967296 0 1\n0\n", 2, 6),
    ("routes 9\n2\na\nb\n1\nk 5 0 4294967296\n0\n", 2, 6),
    ("routes 9\n2\na\nb\n1\nk 5 0 4294967295\n0\n", 5, 6),
    ("routes 9\n2\na\nb\n1\nk 5 0 2\n0\n", 5, 6),
    ("routes 9\n2\na\nb\n1\nk 5 2 0\n0\n", 5, 6),
    ("routes 9\n2\na\nb\n1\nr 5 5 0 1\n0\n", 4, 6),
    ("routes 9\n2\na\nb\n1\nr 6 5 0 1\n0\n", 4, 6),
    ("routes 9\n2\na\nb\n1\nr 5 5 0 2\n0\n", 4, 6),
    ("routes 9\n2\na\nb\n1\nr 5 5 0 02\n0\n", 2, 6),
    ("routes 9\n2\na\nb\n2\nk 5 0 1\nr 5 5 0 1\n0\n", 4, 7),
    ("routes 9\n2\na\nb\n2\nk 5 0 1\nk 5 2 1\n0\n", 5, 7),
    ("routes 9\n2\na\nb\n2\nk 5 0 1\nk 5 0 1", 2, 7),
    ("lots 9\n1\na 2\n1\nk 5 1\n0\n", 5, 5),
    ("lots 9\n1\na 2\n1\nk 5 0 0\n0\n", 2, 5),
    ("words 9\n2\na\nb\n1\nk 5 1\n0\n", 2, 6),
    ("words 9\n2\na\nb\n1\nk 5 110\n0\n", 2, 6),
    ("words 9\n2\na\nb\n1\nk 5 12\n0\n", 2, 6),
    ("words 9\n2\na\nb\n1\nr 5 5 1\n0\n", 2, 6),
    ("words 9\n2\na\nb\n1\nr 5 5 11\n0\n", 4, 6),
];

// The third section, and what follows it.
const RECORDS: [Case; 17] = [
    ("routes 9\n1\na\n2\nk 5 0 0\nr 3 6 0 0\n", 2, 7),
    ("routes 9\n1\na\n2\nk 5 0 0\nr 3 6 0 0\n256\n", 3, 7),
    ("routes 9\n1\na\n2\nk 5 0 0\nr 3 6 0 0\n0256\n", 2, 7),
    ("routes 9\n1\na\n2\nk 5 0 0\nr 3 6 0 0\n2\n0 5\n", 2, 9),
    ("routes 9\n1\na\n2\nk 5 0 0\nr 3 6 0 0\n2\n0 5\n1 6", 2, 9),
    (
        "routes 9\n1\na\n2\nk 5 0 0\nr 3 6 0 0\n2\n0 5\n1 06\n",
        2,
        9,
    ),
    ("routes 9\n1\na\n2\nk 5 0 0\nr 3 6 0 0\n1\n2 5\n", 5, 8),
    ("routes 9\n1\na\n2\nk 5 0 0\nr 3 6 0 0\n1\n2 05\n", 2, 8),
    ("routes 9\n1\na\n2\nk 5 0 0\nr 3 6 0 0\n1\n02 5\n", 2, 8),
    ("routes 9\n1\na\n2\nk 5 0 0\nr 3 6 0 0\n2\n1 5\n2 5\n", 5, 9),
    ("routes 9\n1\na\n2\nk 5 0 0\nr 3 6 0 0\n2\n0 5\n0 5\n", 6, 9),
    ("routes 9\n1\na\n2\nk 5 0 0\nr 3 6 0 0\n2\n1 5\n0 5\n", 6, 9),
    (
        "routes 9\n1\na\n2\nk 5 0 0\nr 3 6 0 0\n2\n1 5\n0 5 \n",
        2,
        9,
    ),
    ("routes 9\n1\na\n2\nk 5 0 0\nr 3 6 0 0\n0\n\n", 7, 8),
    ("routes 9\n1\na\n2\nk 5 0 0\nr 3 6 0 0\n0\n0 5\n", 7, 8),
    (
        "routes 9\n3\na\nb\nc\n3\nr 2 6 0 1\nr 3 7 1 2\nr 4 9 0 2\n3\n0 4\n1 6\n2 5\nx",
        7,
        14,
    ),
    ("routes 0\n0\n0\n0\n\n", 7, 5),
];

// What a fault says: its number, its place and its depth.
#[derive(Clone, Copy, PartialEq, Eq, Debug)]
pub(crate) struct Refusal(pub(crate) u8, pub(crate) u32, pub(crate) u8);

impl From<Fault> for Refusal {
    fn from(fault: Fault) -> Refusal {
        Refusal(fault.number(), fault.place(), fault.depth())
    }
}

// Why the bytes are refused, or none where they are a sheet.
pub(crate) fn why_refused(heap: Global, bytes: &[u8]) -> Option<Refusal> {
    read(heap, bytes).err().map(Refusal::from)
}

// Whether the text is refused as the case says.
fn is_refused(heap: Global, case: &Case) -> bool {
    let (text, number, line) = *case;
    why_refused(heap, text.as_bytes()) == Some(Refusal(number, line, 0))
}

// The first of the cases that is not refused so.
fn misjudged(heap: Global, cases: &[Case]) -> Option<&Case> {
    cases.iter().find(|case| !is_refused(heap, case))
}

#[test]
fn refuses(rt: HostRuntime) {
    assert_eq!(rt; misjudged(rt.alloc(), &HEADINGS), None);
    assert_eq!(rt; misjudged(rt.alloc(), &PLACES), None);
    assert_eq!(rt; misjudged(rt.alloc(), &ELEMENTS), None);
    assert_eq!(rt; misjudged(rt.alloc(), &RECORDS), None);
}
