use plan::plan;
use std::test::Fail;

// A sheet, and the plan that is expected of it.
struct Example {
    sheet: &'static str,
    plan: &'static str,
}

const EXAMPLES: [Example; 16] = [
    // the triangle, three prices
    Example {
        sheet: "routes 9\n3\na\nb\nc\n3\nr 2 6 0 1\nr 3 7 1 2\nr 4 9 0 2\n3\n0 4\n1 6\n2 5\n",
        plan: "finished\n3\n2 5\n0 4\n1 6\n2\n0 4 4 a b\n2 5 5 a c\ntotal 9 9\n",
    },
    // two prices are too few
    Example {
        sheet: "routes 2\n3\na\nb\nc\n3\nr 2 6 0 1\nr 3 7 1 2\nr 4 9 0 2\n3\n0 4\n1 6\n2 5\n",
        plan: "stopped 12 1 1\n2\n2 5\n0 4\n",
    },
    // one price is enough
    Example {
        sheet: "routes 9\n3\na\nb\nc\n3\nr 2 6 0 1\nr 3 7 1 2\nr 4 9 0 2\n3\n0 4\n1 6\n2 8\n",
        plan: "finished\n1\n2 8\n2\n0 2 6 a b\n1 3 7 b c\ntotal 5 13\n",
    },
    // bids
    Example {
        sheet: "lots 4\n3\nroof 1\npath 2\nwell 1\n8\nr 40 70 0\nr 55 80 0\nk 60 0\nr 10 25 1\nr 20 30 1\nk 25 1\nr 90 120 2\nr 120 150 2\n5\n0 52\n1 61\n3 18\n4 24\n6 104\n",
        plan: "finished\n3\n4 24\n1 61\n0 52\n4\n0 52 52 roof\n3 10 25 path\n4 24 24 path\n6 90 120 well\ntotal 176 221\n",
    },
    // lamps
    Example {
        sheet: "words 6\n5\nred\nblue\ngreen\namber\nwhite\n8\nk 3 11000\nr 2 5 01100\nr 4 8 10100\nk 6 00110\nr 5 9 00011\nr 6 7 11111\nr 7 12 00001\nk 1 00000\n5\n1 4\n2 5\n4 7\n5 6\n6 9\n",
        plan: "finished\n1\n2 5\n5\n0 3 3 11000\n1 2 5 01100\n3 6 6 00110\n4 5 9 00011\n5 6 7 11111\ntotal 22 30\n",
    },
    // no elements
    Example {
        sheet: "routes 0\n0\n0\n0\n",
        plan: "finished\n0\n0\ntotal 0 0\n",
    },
    // no price on record
    Example {
        sheet: "routes 3\n2\na\nb\n2\nr 3 6 0 1\nr 4 8 0 1\n1\n0 5\n",
        plan: "stopped 11 1 0\n0\n",
    },
    // a price on an end
    Example {
        sheet: "routes 3\n2\na\nb\n2\nr 3 6 0 1\nr 4 8 0 1\n1\n1 8\n",
        plan: "stopped 10 1 2\n0\n",
    },
    // touching ends need no price
    Example {
        sheet: "routes 0\n2\na\nb\n2\nr 5 8 0 1\nr 3 5 0 1\n0\n",
        plan: "finished\n0\n1\n1 3 5 a b\ntotal 3 5\n",
    },
    // a cap of 0
    Example {
        sheet: "lots 1\n1\nx 0\n1\nk 1 0\n0\n",
        plan: "finished\n0\n0\ntotal 0 0\n",
    },
    // words, all known
    Example {
        sheet: "words 0\n3\na\nb\nc\n3\nk 1 110\nk 2 011\nk 3 101\n0\n",
        plan: "finished\n0\n2\n0 1 1 110\n1 2 2 011\ntotal 3 3\n",
    },
    // totals above 32 bits
    Example {
        sheet: "lots 0\n1\nx 2\n2\nk 4294967295 0\nr 4294967294 4294967295 0\n0\n",
        plan: "finished\n0\n2\n0 4294967295 4294967295 x\n1 4294967294 4294967295 x\ntotal 8589934589 8589934590\n",
    },
    // a route from a place to itself
    Example {
        sheet: "routes 0\n1\na\n1\nk 5 0 0\n0\n",
        plan: "finished\n0\n0\ntotal 0 0\n",
    },
    // no bytes
    Example {
        sheet: "",
        plan: "refused 2 1\n",
    },
    // a low end not below the high one
    Example {
        sheet: "routes 9\n2\na\nb\n1\nr 5 5 0 1\n0\n",
        plan: "refused 4 6\n",
    },
    // a surplus line
    Example {
        sheet: "routes 0\n0\n0\n0\n0\n",
        plan: "refused 7 5\n",
    },
];

#[test]
fn examples(rt: HostRuntime) -> Result<(), Fail> {
    for Example { sheet, plan: text } in &EXAMPLES {
        assert!(rt;
            plan(rt.alloc(), sheet.as_bytes())?.as_slice() == text.as_bytes(),
            "{sheet}"
        );
    }
    Ok(())
}

// The longest sheet and one byte more are both refused, for other reasons.
#[test]
fn too_long(rt: HostRuntime) -> Result<(), Fail> {
    let heap = rt.alloc();
    let bytes = [b'a'; 65_537];
    assert!(rt; plan(heap, &bytes)?.as_slice() == b"refused 1 0\n".as_slice());
    assert!(rt; plan(heap, &bytes[..65_536])?.as_slice() == b"refused 2 1\n".as_slice());
    Ok(())
}
