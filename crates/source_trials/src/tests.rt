ghost use Rattle.std.specs.Prelude.{min, false};
ghost use Rattle.source.specs.Supplies.{deepest};
ghost use Rattle.source_trials.specs.Depths.{bare, bare_sound};

use element::{Element, Line, Price};
use fault::Fault;
use layers::{Memory, Quota};
use source::{Record, Source, Table};
use std::test::Fail;

// A source that has nothing but a depth. (Trials of surveys have one of their own: a source for both would be a crate more.)
#[derive(Drop)]
struct Bare {
    depth: u8,
}

impl Source for Bare {
    ghost meaning = { λ s. bare s.depth };

    ghost keeps = { λ s e. false };

    ghost origin = { λ s e. min s.depth deepest };

    ghost sound = { λ s. bare_sound s.depth };

    fn price(&mut self, element: Element) -> Result<Price, Fault> {
        Err(Fault::NoPrice {
            element,
            depth: self.depth(),
        })
    }

    fn left(&self) -> Option<u32> {
        None
    }

    fn free(&self, _element: Element) -> bool {
        false
    }

    fn depth(&self) -> u8 {
        self.depth
    }
}

// Whether the answer is the price.
fn gives(answer: Result<Price, Fault>, price: Price) -> bool {
    answer.is_ok_and(|given| given == price)
}

// A number, a place and a depth: the numbers are what is tested here.
type Refusal = (u8, u32, u8);

// Whether the answer is the refusal. (Trials of surveys have this line too: one for both would be a crate more.)
fn refuses(answer: Result<Price, Fault>, refusal: Refusal) -> bool {
    answer.is_err_and(|fault| (fault.number(), fault.place(), fault.depth()) == refusal)
}

fn line(element: Element, price: Price) -> Line {
    Line { element, price }
}

// A table with prices for 3 and 4.
fn two_prices() -> Table {
    let mut table = Table::new();
    table.set(3, Some(7));
    table.set(4, Some(9));
    table
}

#[test]
fn plain_sources(rt: HostRuntime) -> Result<(), Fail> {
    let mut table = two_prices();
    assert!(rt; gives(table.price(3), 7));
    assert!(rt; refuses(table.price(255), (11, 255, 0)));
    table.set(3, None);
    assert!(rt; refuses(table.price(3), (11, 3, 0)));
    assert_eq!(rt; table.left(), None);
    assert!(rt; !table.free(4));
    let lines = [line(2, 5), line(6, 0)];
    let mut record = Record::new(&lines);
    assert!(rt; gives(record.price(6), 0));
    assert!(rt; refuses(record.price(3), (11, 3, 0)));
    assert!(rt; gives(record.price(2), 5));
    assert_eq!(rt; record.depth(), 0);
    Ok(())
}

#[test]
fn memory_over_quota_over_table(rt: HostRuntime) -> Result<(), Fail> {
    let mut memory = Memory::new(Quota::new(two_prices(), 1));
    assert_eq!(rt; memory.depth(), 2);
    assert!(rt; gives(memory.price(3), 7));
    assert_eq!(rt; memory.left(), Some(0));
    assert!(rt; memory.free(3) && !memory.free(4));
    assert!(rt; gives(memory.price(3), 7), "a remembered price is free");
    assert!(rt; refuses(memory.price(4), (12, 4, 1)), "a fresh one is not");
    assert_eq!(rt; memory.into_below().number(), 0);
    Ok(())
}

#[test]
fn quota_over_memory_over_record(rt: HostRuntime) -> Result<(), Fail> {
    let lines = [line(2, 5), line(6, 8)];
    let mut quota = Quota::new(Memory::new(Record::new(&lines)), 1);
    assert!(rt; gives(quota.price(2), 5));
    assert_eq!(rt; quota.left(), Some(0));
    assert!(rt; gives(quota.price(2), 5), "free below");
    assert!(rt; refuses(quota.price(9), (12, 9, 2)));
    quota.raise(1);
    assert!(rt; refuses(quota.price(9), (11, 9, 0)));
    assert_eq!(rt; quota.number(), 1, "a refusal costs nothing");
    assert!(rt; gives(quota.price(6), 8));
    assert_eq!(rt; quota.number(), 0);
    Ok(())
}

#[test]
fn quotas_over_quotas(rt: HostRuntime) -> Result<(), Fail> {
    let mut quota = Quota::new(Quota::new(two_prices(), 1), 3);
    assert_eq!(rt; quota.left(), Some(1));
    assert!(rt; gives(quota.price(4), 9));
    assert_eq!(rt; quota.number(), 2);
    assert!(rt;
        refuses(quota.price(3), (12, 3, 1)),
        "the one below refuses"
    );
    assert_eq!(rt; quota.into_below().number(), 0);
    let mut narrow = Quota::new(Quota::new(two_prices(), 3), 0);
    assert!(rt; refuses(narrow.price(3), (12, 3, 2)));
    assert_eq!(rt; narrow.into_below().number(), 3);
    Ok(())
}

#[test]
fn depth_stays_at_255(rt: HostRuntime) -> Result<(), Fail> {
    let mut low = Memory::new(Bare { depth: 254 });
    assert_eq!(rt; low.depth(), 255);
    assert!(rt; refuses(low.price(1), (11, 1, 254)));
    let mut high = Quota::new(low, 0);
    assert_eq!(rt; high.depth(), 255);
    assert!(rt; refuses(high.price(1), (12, 1, 255)));
    assert_eq!(rt; Memory::new(high).depth(), 255);
    Ok(())
}

#[test]
fn raise_stops_at_the_limit(rt: HostRuntime) -> Result<(), Fail> {
    let mut quota = Quota::new(two_prices(), 4294967290);
    quota.raise(5);
    assert_eq!(rt; quota.number(), 4294967295);
    quota.raise(1);
    assert_eq!(rt; quota.number(), 4294967295);
    assert!(rt; gives(quota.price(3), 7));
    assert_eq!(rt; quota.left(), Some(4294967294));
    Ok(())
}
