use crate::refusals::{Refusal, why_refused};
use crate::sheets::back_again;
use fault::Fault;
use sheet::put_decimal;
use std::alloc::{AllocError, Global};
use std::iter::repeat_n;
use std::test::Fail;
use writer::Writer;

// So many lamps and elements, and so many records. The numbers of the loops are written themselves: no index is counted.
fn lamps(heap: Global, lamps: u64, elements: u64, records: u64) -> Result<Vec<u8>, Fault> {
    let mut writer = Writer::with_room(heap, 65_536)?;
    writer.put(b"words 9\n");
    put_decimal(&mut writer, lamps, b'\n');
    for i in 0..lamps {
        writer.byte(b'x');
        put_decimal(&mut writer, i, b'\n');
    }
    put_decimal(&mut writer, elements, b'\n');
    for _ in 0..elements {
        writer.put(b"r 3 5 ");
        for i in 0..lamps {
            writer.number(i % 2);
        }
        writer.byte(b'\n');
    }
    put_decimal(&mut writer, records, b'\n');
    for i in 0..records {
        put_decimal(&mut writer, i, b' ');
        writer.put(b"4\n");
    }
    writer.finish()
}

// Lamps, elements and records, and the refusal if there is one.
const SIZES: [(u64, u64, u64, Option<Refusal>); 9] = [
    (1, 0, 0, None),
    (64, 255, 255, None),
    (64, 255, 254, None),
    (1, 255, 0, None),
    (0, 0, 0, Some(Refusal(3, 2, 0))),
    (65, 0, 0, Some(Refusal(3, 2, 0))),
    (64, 256, 0, Some(Refusal(3, 67, 0))),
    (1, 255, 256, Some(Refusal(3, 260, 0))),
    (1, 254, 255, Some(Refusal(5, 514, 0))),
];

#[test]
fn sizes(rt: HostRuntime) -> Result<(), Fail> {
    for (many, elements, records, answer) in &SIZES {
        let bytes = lamps(rt.alloc(), *many, *elements, *records)?;
        assert_eq!(rt; why_refused(rt.alloc(), &bytes), *answer);
        if answer.is_none() {
            assert!(rt; back_again(rt.alloc(), &bytes)?);
        }
    }
    Ok(())
}

// A sheet with so many bytes behind it.
fn lengthened(heap: Global, surplus: usize) -> Result<Vec<u8>, AllocError> {
    let mut bytes = b"routes 9\n0\n0\n0\n".to_vec(heap)?;
    bytes.extend(repeat_n(b'\n', surplus))?;
    Ok(bytes)
}

#[test]
fn lengths(rt: HostRuntime) -> Result<(), Fail> {
    let most = lengthened(rt.alloc(), 65_521)?;
    assert_eq!(rt; most.len(), 65_536);
    assert_eq!(rt; why_refused(rt.alloc(), &most), Some(Refusal(7, 5, 0)));
    let more = lengthened(rt.alloc(), 65_522)?;
    assert_eq!(rt; why_refused(rt.alloc(), &more), Some(Refusal(1, 0, 0)));
    Ok(())
}
