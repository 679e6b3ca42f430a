// The store on examples: each refusal, and what the calls answer.
use heap::heap::tables::Tables;
use kinds::barrier::{Snapshot, Update};
use kinds::dose::Dose;
use kinds::fault::StoreFault;
use kinds::pair::Pair;
use ring::arcs::Lengths;
use std::process::Abort;
use std::test::Fail;
use store::rows::{Forward, Note};
use store::seen::Seen;
use store::sizes::Sizes;
use store::store::Store;
use words::fault::WordFault;

fn small(slots: i64, registers: i64) -> Sizes {
    Sizes {
        slots,
        places: 2,
        registers,
        scans: 1,
    }
}

#[test]
fn pairs_are_made_and_read(rt: HostRuntime) {
    let mut nursery = [Pair { head: 9, tail: 9 }; 2];
    let mut slots = [Pair { head: 9, tail: 9 }; 4];
    let mut registers = [9u32; 3];
    let mut forward = [Forward {
        target: None,
        copied: 0,
    }; 2];
    let mut notes = [Note { slot: 0, index: 0 }; 4];
    let mut next = [9u32; 4];
    let mut previous = [9u32; 4];
    let mut stamp = [9u32; 4];
    let tables = Tables {
        nursery: &mut nursery,
        slots: &mut slots,
        registers: &mut registers,
        forward: &mut forward,
        notes: &mut notes,
        next: &mut next,
        previous: &mut previous,
        stamp: &mut stamp,
    };
    let mut store = Store::open(tables, small(4, 3), Snapshot);
    let pair = Pair { head: 5, tail: 5 };
    assert_eq!(rt; store.why(), Ok(()));
    assert_eq!(rt; store.look(2), Ok(Seen::Nothing));
    assert_eq!(rt; store.load(0, -7), Ok(()));
    assert_eq!(rt; store.make(1, &pair, &[2, 0]), Ok(1));
    assert_eq!(rt; store.look(1), Ok(Seen::Record));
    assert_eq!(rt; store.read(2, 1, 1), Ok(()));
    assert_eq!(rt; store.same(0, 2), Ok(true));
    assert_eq!(rt; store.look(2), Ok(Seen::Number(-7)));
    assert_eq!(rt; store.read(2, 1, 2), Err(StoreFault::NoSuchLink));
    assert_eq!(rt; store.read(2, 0, 0), Err(StoreFault::NoRecord));
    assert_eq!(rt;
        store.make(0, &pair, &[0, -1, 9]),
        Err(StoreFault::NoSuchRegister)
    );
    assert_eq!(rt; store.make(0, &pair, &[0]), Err(StoreFault::WrongLinkCount));
    assert_eq!(rt; store.make(2, &pair, &[1, 1]), Ok(2));
    assert_eq!(rt; store.make(0, &pair, &[0, 0]), Err(StoreFault::NurseryFull));
}

#[test]
fn doses_are_filled_and_given(rt: HostRuntime) -> Result<(), Fail> {
    let dose = Dose::new(3, 250, 1)?;
    let other = Dose::new(4, 9_999_999, 0)?;
    let mut nursery = [other; 2];
    let mut slots = [other; 1];
    let mut registers = [0u32; 2];
    let mut forward = [Forward {
        target: None,
        copied: 0,
    }; 2];
    let mut notes = [Note { slot: 0, index: 0 }; 1];
    let mut next = [0u32; 1];
    let mut previous = [0u32; 1];
    let mut stamp = [0u32; 1];
    let tables = Tables {
        nursery: &mut nursery,
        slots: &mut slots,
        registers: &mut registers,
        forward: &mut forward,
        notes: &mut notes,
        next: &mut next,
        previous: &mut previous,
        stamp: &mut stamp,
    };
    let mut store = Store::open(tables, small(1, 2), Update);
    let mut out = dose;
    assert_eq!(rt; store.plain(0, &mut out), Err(StoreFault::NoRecord));
    assert_eq!(rt; store.make(0, &other, &[0]), Ok(1));
    assert_eq!(rt; store.make(1, &dose, &[0]), Err(StoreFault::NoRoom));
    assert_eq!(rt; store.plain(0, &mut out), Ok(()));
    assert_eq!(rt; out, other);
    assert_eq!(rt; store.fill(0, &dose), Ok(()));
    assert_eq!(rt; store.fill(1, &dose), Err(StoreFault::NoRecord));
    assert_eq!(rt; store.plain(0, &mut out), Ok(()));
    assert_eq!(rt; out, dose);
    assert_eq!(rt; store.load(2, 600_000_000), Err(StoreFault::NoSuchRegister));
    assert_eq!(rt;
        store.load(1, 536_870_912),
        Err(StoreFault::Word(WordFault::NumberOutOfRange))
    );
    assert_eq!(rt;
        store.tell(),
        Ok(Lengths {
            free: 1,
            white: 0,
            grey: 0,
            black: 0,
        })
    );
    Ok(())
}

fn why_closed(rt: &impl Abort, places: &mut [Pair], slots: i64, rows: &mut [Forward]) {
    let mut old = [Pair { head: 0, tail: 0 }; 1];
    let mut registers = [7u32; 2];
    let mut notes = [Note { slot: 0, index: 0 }; 1];
    let mut next = [0u32; 1];
    let mut previous = [0u32; 1];
    let mut stamp = [0u32; 1];
    let tables = Tables {
        nursery: places,
        slots: &mut old,
        registers: &mut registers,
        forward: rows,
        notes: &mut notes,
        next: &mut next,
        previous: &mut previous,
        stamp: &mut stamp,
    };
    let mut store = Store::open(tables, small(slots, 2), Snapshot);
    assert_eq!(rt; store.load(9, 0), Err(StoreFault::Closed));
    assert_eq!(rt; store.tell(), Err(StoreFault::Closed));
    assert_eq!(rt; store.empty(0), Err(StoreFault::Closed));
    assert_eq!(rt;
        store.why(),
        if slots == 1 {
            Err(StoreFault::TableShort)
        } else {
            Err(StoreFault::SizeOutOfRange)
        }
    );
}

#[test]
fn a_closed_store_refuses_everything(rt: HostRuntime) {
    let mut nursery = [Pair { head: 0, tail: 0 }; 2];
    let mut rows = [Forward {
        target: None,
        copied: 0,
    }; 1];
    why_closed(&rt, &mut nursery, 1, &mut rows);
    why_closed(&rt, &mut nursery, 16_385, &mut rows);
    assert_eq!(rt; StoreFault::NoRoom.number(), 23);
}
