use fault::Fault;
use sheet::{read, write};
use std::alloc::Global;
use std::test::Fail;

// Sheets that are read, and written out again as they were.
const SHEETS: [&'static str; 14] = [
    "routes 9\n3\na\nb\nc\n3\nr 2 6 0 1\nr 3 7 1 2\nr 4 9 0 2\n3\n0 4\n1 6\n2 5\n",
    "lots 2\n2\nroof 1\npath 4294967295\n2\nk 5 1\nr 4 9 0\n1\n1 6\n",
    "words 0\n3\na\nb\nc\n3\nk 1 110\nk 2 011\nr 3 9 000\n0\n",
    "routes 0\n0\n0\n0\n",
    "lots 4294967295\n0\n0\n0\n",
    "words 7\n1\na\n0\n0\n",
    // a name of twelve bytes, equal names, and a name of digits
    "routes 1\n3\nabcdefghij09\nabcdefghij09\n0\n0\n0\n",
    // a touching end
    "routes 1\n2\na\nb\n2\nk 5 0 1\nr 3 5 0 1\n0\n",
    // no whole price inside
    "routes 1\n2\na\nb\n1\nr 3 4 0 1\n0\n",
    // a route from a place to itself
    "routes 1\n2\na\nb\n1\nk 5 1 1\n0\n",
    // recorded prices on an end, outside the range and for a known entry
    "routes 1\n1\na\n3\nr 3 5 0 0\nr 3 5 0 0\nk 5 0 0\n3\n0 3\n1 9\n2 6\n",
    // the largest numbers
    "lots 1\n1\na 0\n2\nk 4294967295 0\nr 4294967294 4294967295 0\n1\n1 4294967295\n",
    // the smallest
    "routes 0\n1\na\n2\nk 0 0 0\nr 0 1 0 0\n1\n0 0\n",
    // records that leave elements out
    "words 1\n1\nz\n3\nk 1 1\nk 1 0\nk 1 1\n2\n0 1\n2 1\n",
];

// Whether the bytes are a sheet, which is written as they are.
pub(crate) fn back_again(heap: Global, bytes: &[u8]) -> Result<bool, Fault> {
    let sheet = read(heap, bytes)?;
    Ok(write(heap, &sheet)?.as_slice() == bytes)
}

#[test]
fn accepts(rt: HostRuntime) -> Result<(), Fail> {
    for text in &SHEETS {
        assert!(rt; back_again(rt.alloc(), text.as_bytes())?, "{text}");
    }
    Ok(())
}
