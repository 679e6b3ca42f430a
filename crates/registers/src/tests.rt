// The store on examples: each refusal, and what the calls answer.
use super::seen::Seen;
use super::sizes::Sizes;
use super::store::Store;
use kinds::barrier::{Snapshot, Update};
use kinds::fault::StoreFault;
use words::fault::WordFault;

fn small(registers: i64) -> Sizes {
    Sizes {
        slots: 4,
        places: 2,
        registers,
        scans: 1,
    }
}

#[test]
fn numbers_copies_and_looks(rt: HostRuntime) {
    let mut table = [9u32; 3];
    let mut store = Store::open(&mut table, small(2), Snapshot);
    assert_eq!(rt; store.why(), Ok(()));
    assert_eq!(rt; store.look(1), Ok(Seen::Nothing));
    assert_eq!(rt; store.load(0, -7), Ok(()));
    assert_eq!(rt; store.copy(1, 0), Ok(()));
    assert_eq!(rt; store.same(0, 1), Ok(true));
    assert_eq!(rt; store.look(1), Ok(Seen::Number(-7)));
    assert_eq!(rt; store.empty(0), Ok(()));
    assert_eq!(rt; store.same(0, 1), Ok(false));
}

#[test]
fn refuses_registers_and_numbers_out_of_range(rt: HostRuntime) {
    let mut table = [0u32; 2];
    let mut store = Store::open(&mut table, small(2), Update);
    assert_eq!(rt; store.load(2, 600_000_000), Err(StoreFault::NoSuchRegister));
    assert_eq!(rt;
        store.load(1, 536_870_912),
        Err(StoreFault::Word(WordFault::NumberOutOfRange))
    );
    assert_eq!(rt; store.copy(0, -1), Err(StoreFault::NoSuchRegister));
    assert_eq!(rt; store.same(5, 0), Err(StoreFault::NoSuchRegister));
    assert_eq!(rt; store.empty(2), Err(StoreFault::NoSuchRegister));
    assert_eq!(rt; store.look(2), Err(StoreFault::NoSuchRegister));
}

#[test]
fn a_closed_store_refuses_everything(rt: HostRuntime) {
    let mut table = [7u32; 2];
    let mut store = Store::open(&mut table, small(3), Snapshot);
    assert_eq!(rt; store.why(), Err(StoreFault::TableShort));
    assert_eq!(rt; store.load(9, 0), Err(StoreFault::Closed));
    assert_eq!(rt; store.look(0), Err(StoreFault::Closed));
    let mut other = [7u32; 2];
    let large = Store::open(&mut other, small(65), Snapshot);
    assert_eq!(rt; large.why(), Err(StoreFault::SizeOutOfRange));
    assert_eq!(rt; StoreFault::Closed.number(), 20);
}
