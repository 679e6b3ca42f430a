// The store on examples, for each kind and each barrier: every refusal but 24, and what the calls answer over a cycle.
use heap::heap::tables::Tables;
use heap::rows::{Forward, Note};
use heap::seen::Seen;
use heap::sizes::Sizes;
use heap::stepped::Stepped;
use kinds::barrier::{Barrier, Snapshot, Update};
use kinds::dose::Dose;
use kinds::fault::StoreFault;
use kinds::kind::Kind;
use kinds::pair::Pair;
use ring::arcs::Lengths;
use std::process::Abort;
use std::test::Fail;
use store::store::Store;

// What a store is asked to do.
#[derive(Clone, Copy)]
enum Sequence {
    EveryCall,
    OutOfRange,
    Refusals,
    Registers,
    Cycle,
    GreyTarget,
}

// The store's number of slots, and what it is asked.
#[derive(Clone, Copy)]
struct Asks {
    slots: i64,
    sequence: Sequence,
}

// The number of a refusal, or 0.
fn refusal<U: Copy>(answer: Result<U, StoreFault>) -> u32 {
    match answer {
        Ok(_) => 0,
        Err(e) => e.number(),
    }
}

// A step's four numbers as digits, the first one first; a refusal is 90,000 and its number.
fn step_digits(answer: Result<Stepped, StoreFault>) -> u32 {
    match answer {
        Ok(s) => {
            let open = if s.cycle_open { 1 } else { 0 };
            s.copied % 10 * 1_000 + s.scanned % 10 * 100 + s.freed % 10 * 10 + open
        }
        Err(e) => 90_000 + e.number() % 100,
    }
}

// The four lengths of the arcs as digits.
fn arc_digits(answer: Result<Lengths, StoreFault>) -> u32 {
    match answer {
        Ok(l) => l.free % 10 * 1_000 + l.white % 10 * 100 + l.grey % 10 * 10 + l.black % 10,
        Err(e) => 90_000 + e.number() % 100,
    }
}

// Nothing is 0, a number is 1 where it is 7 and else 3, a record is 2.
fn seen_digit(answer: Result<Seen, StoreFault>) -> u32 {
    match answer {
        Ok(Seen::Nothing) => 0,
        Ok(Seen::Number(v)) => if v == 7 { 1 } else { 3 },
        Ok(Seen::Record) => 2,
        Err(e) => 90_000 + e.number() % 100,
    }
}

// 1 for the same word, 0 for another.
fn same_digit(answer: Result<bool, StoreFault>) -> u32 {
    match answer {
        Ok(same) => if same { 1 } else { 0 },
        Err(e) => 90_000 + e.number() % 100,
    }
}

// Every call once.
fn every_call<T: Kind, B: Barrier>(store: &mut Store<'_, T, B>, template: &T) -> [u32; 16] {
    let mut out = *template;
    [
        refusal(store.why()),
        refusal(store.load(0, 7)),
        refusal(store.empty(0)),
        refusal(store.copy(0, 1)),
        refusal(store.make(0, template, &[0])),
        refusal(store.read(0, 1, 0)),
        refusal(store.write(0, 0, 1)),
        refusal(store.fill(0, template)),
        refusal(store.plain(0, &mut out)),
        refusal(store.same(0, 1)),
        refusal(store.look(0)),
        refusal(store.tell()),
        refusal(store.step()),
        refusal(store.full()),
        0,
        0,
    ]
}

// Every call that has a register, with one that is out of range, which is refused before anything else.
fn out_of_range<T: Kind, B: Barrier>(store: &mut Store<'_, T, B>, template: &T) -> [u32; 16] {
    let mut out = *template;
    [
        refusal(store.load(-1, 536_870_912)),
        refusal(store.empty(3)),
        refusal(store.copy(3, 0)),
        refusal(store.copy(0, -1)),
        refusal(store.make(3, template, &[])),
        refusal(store.make(0, template, &[0, 0, 0, 3])),
        refusal(store.read(3, 0, 8)),
        refusal(store.read(0, 3, 0)),
        refusal(store.write(-1, 0, 0)),
        refusal(store.write(0, 0, 3)),
        refusal(store.fill(3, template)),
        refusal(store.plain(3, &mut out)),
        refusal(store.same(0, 3)),
        refusal(store.same(3, 0)),
        refusal(store.look(-1)),
        refusal(store.copy(9_223_372_036_854_775_807, 0)),
    ]
}

// The refusals of an open store with 4 slots, 2 places and 3 registers, in ascending order.
fn refusals<T: Kind, B: Barrier>(
    store: &mut Store<'_, T, B>,
    template: &T,
    links: &[i64],
) -> [u32; 16] {
    [
        refusal(store.load(3, 7)),
        refusal(store.load(0, 536_870_912)),
        refusal(store.make(0, template, links)),
        refusal(store.read(1, 0, 8)),
        refusal(store.write(0, -1, 1)),
        refusal(store.make(1, template, &[])),
        refusal(store.read(1, 2, 0)),
        refusal(store.write(2, 0, 0)),
        refusal(store.fill(2, template)),
        refusal(store.make(1, template, links)),
        refusal(store.make(2, template, links)),
        refusal(store.step()),
        refusal(store.make(2, template, links)),
        refusal(store.make(1, template, links)),
        refusal(store.step()),
        refusal(store.make(2, template, links)),
    ]
}

// The calls on registers and on the plain part of a record.
fn register_calls<T: Kind, B: Barrier>(
    store: &mut Store<'_, T, B>,
    template: &T,
    links: &[i64],
) -> [u32; 16] {
    let mut out = *template;
    [
        refusal(store.load(0, 7)),
        seen_digit(store.look(0)),
        seen_digit(store.look(1)),
        refusal(store.make(1, template, links)),
        seen_digit(store.look(1)),
        refusal(store.read(2, 1, 0)),
        seen_digit(store.look(2)),
        refusal(store.copy(2, 1)),
        seen_digit(store.look(2)),
        refusal(store.fill(2, template)),
        refusal(store.plain(2, &mut out)),
        refusal(store.plain(0, &mut out)),
        refusal(store.empty(1)),
        seen_digit(store.look(1)),
        same_digit(store.same(2, 2)),
        same_digit(store.same(0, 2)),
    ]
}

// Three records in a chain, of which the middle one is grey and the last one white when the first and the middle one are
// written; then a record that only a note leads to.
fn cycle<T: Kind, B: Barrier>(
    store: &mut Store<'_, T, B>,
    template: &T,
    links: &[i64],
) -> [u32; 16] {
    [
        refusal(store.load(0, 7)),
        refusal(store.make(0, template, links)),
        refusal(store.make(0, template, links)),
        step_digits(store.step()),
        step_digits(store.step()),
        refusal(store.make(0, template, links)),
        step_digits(store.step()),
        refusal(store.read(1, 0, 0)),
        refusal(store.read(2, 1, 0)),
        refusal(store.write(0, 0, 2)),
        arc_digits(store.tell()),
        refusal(store.make(2, template, links)),
        refusal(store.write(1, 0, 2)),
        arc_digits(store.tell()),
        refusal(store.empty(2)),
        step_digits(store.step()),
    ]
}

// Of four old records, the one in register 1 leads to a white one, which is written into the grey one in register 2; then that
// in register 1 is written too, and a full collection finishes the cycle.
fn grey_target<T: Kind, B: Barrier>(
    store: &mut Store<'_, T, B>,
    template: &T,
    links: &[i64],
) -> [u32; 16] {
    [
        refusal(store.make(0, template, links)),
        refusal(store.make(1, template, links)),
        step_digits(store.full()),
        refusal(store.empty(0)),
        refusal(store.make(2, template, links)),
        refusal(store.make(0, template, links)),
        step_digits(store.full()),
        step_digits(store.step()),
        arc_digits(store.tell()),
        refusal(store.read(0, 1, 0)),
        refusal(store.write(2, 0, 0)),
        arc_digits(store.tell()),
        refusal(store.write(1, 0, 2)),
        arc_digits(store.tell()),
        step_digits(store.full()),
        arc_digits(store.tell()),
    ]
}

// One of the sequences.
fn asked<T: Kind, B: Barrier>(
    store: &mut Store<'_, T, B>,
    template: &T,
    links: &[i64],
    sequence: Sequence,
) -> [u32; 16] {
    match sequence {
        Sequence::EveryCall => every_call(store, template),
        Sequence::OutOfRange => out_of_range(store, template),
        Sequence::Refusals => refusals(store, template, links),
        Sequence::Registers => register_calls(store, template, links),
        Sequence::Cycle => cycle(store, template, links),
        Sequence::GreyTarget => grey_target(store, template, links),
    }
}

// What a store over tables for 4 slots, 2 places and 3 registers answers.
fn answers<T: Kind, B: Barrier>(
    nursery: &mut [T],
    old: &mut [T],
    barrier: B,
    template: T,
    links: &[i64],
    asks: Asks,
) -> [u32; 16] {
    let mut registers = [9u32; 3];
    let mut forward = [Forward {
        target: None,
        copied: 0,
    }; 2];
    let mut notes = [Note { slot: 0, index: 0 }; 4];
    let mut next = [9u32; 4];
    let mut previous = [9u32; 4];
    let mut stamp = [9u32; 4];
    let tables = Tables {
        nursery,
        slots: old,
        registers: &mut registers,
        forward: &mut forward,
        notes: &mut notes,
        next: &mut next,
        previous: &mut previous,
        stamp: &mut stamp,
    };
    let sizes = Sizes {
        slots: asks.slots,
        places: 2,
        registers: 3,
        scans: 1,
    };
    let mut store = Store::open(tables, sizes, barrier);
    asked(&mut store, &template, links, asks.sequence)
}

// Both kinds and both barriers.
fn all_answer(
    rt: &impl Abort,
    asks: Asks,
    snapshot: [u32; 16],
    update: [u32; 16],
) -> Result<(), Fail> {
    let pair = Pair { head: 9, tail: 9 };
    let mut young = [pair; 2];
    let mut old = [pair; 4];
    let by_snapshot = answers(&mut young, &mut old, Snapshot, pair, &[0, 0], asks);
    let by_update = answers(&mut young, &mut old, Update, pair, &[0, 0], asks);
    assert_eq!(rt; by_snapshot, snapshot);
    assert_eq!(rt; by_update, update);
    let dose = Dose::new(3, 250, 1)?;
    let mut young = [dose; 2];
    let mut old = [dose; 4];
    let by_snapshot = answers(&mut young, &mut old, Snapshot, dose, &[0], asks);
    let by_update = answers(&mut young, &mut old, Update, dose, &[0], asks);
    assert_eq!(rt; by_snapshot, snapshot);
    assert_eq!(rt; by_update, update);
    Ok(())
}

#[test]
fn a_closed_store_refuses_every_call(rt: HostRuntime) -> Result<(), Fail> {
    let size = [1, 20, 20, 20, 20, 20, 20, 20, 20, 20, 20, 20, 20, 20, 0, 0];
    let table = [2, 20, 20, 20, 20, 20, 20, 20, 20, 20, 20, 20, 20, 20, 0, 0];
    all_answer(
        &rt,
        Asks {
            slots: 16_385,
            sequence: Sequence::EveryCall,
        },
        size,
        size,
    )?;
    all_answer(
        &rt,
        Asks {
            slots: 5,
            sequence: Sequence::EveryCall,
        },
        table,
        table,
    )
}

#[test]
fn a_register_out_of_range_is_refused_first(rt: HostRuntime) -> Result<(), Fail> {
    all_answer(
        &rt,
        Asks {
            slots: 4,
            sequence: Sequence::OutOfRange,
        },
        [3; 16],
        [3; 16],
    )
}

#[test]
fn an_open_store_refuses(rt: HostRuntime) -> Result<(), Fail> {
    let numbers = [3, 4, 0, 5, 5, 6, 21, 21, 21, 0, 22, 0, 0, 0, 0, 23];
    all_answer(
        &rt,
        Asks {
            slots: 4,
            sequence: Sequence::Refusals,
        },
        numbers,
        numbers,
    )?;
    assert_eq!(rt; Dose::new(1, 10_000_000, 0), Err(StoreFault::BadDose));
    Ok(())
}

#[test]
fn registers_hold_words(rt: HostRuntime) -> Result<(), Fail> {
    let numbers = [0, 1, 0, 0, 2, 0, 1, 0, 2, 0, 0, 21, 0, 0, 1, 0];
    all_answer(
        &rt,
        Asks {
            slots: 4,
            sequence: Sequence::Registers,
        },
        numbers,
        numbers,
    )
}

#[test]
fn a_cycle_goes_by_the_barrier(rt: HostRuntime) -> Result<(), Fail> {
    let snapshot = [
        0, 0, 0, 2101, 100, 0, 1101, 0, 0, 0, 1111, 0, 0, 1021, 0, 1101,
    ];
    let update = [
        0, 0, 0, 2101, 100, 0, 1101, 0, 0, 0, 1021, 0, 0, 1021, 0, 1101,
    ];
    all_answer(
        &rt,
        Asks {
            slots: 4,
            sequence: Sequence::Cycle,
        },
        snapshot,
        update,
    )
}

#[test]
fn a_grey_record_is_written_by_the_barrier(rt: HostRuntime) -> Result<(), Fail> {
    let snapshot = [
        0, 0, 2200, 0, 0, 0, 2400, 101, 121, 0, 0, 121, 0, 31, 610, 1003,
    ];
    let update = [
        0, 0, 2200, 0, 0, 0, 2400, 101, 121, 0, 0, 31, 0, 31, 610, 1003,
    ];
    all_answer(
        &rt,
        Asks {
            slots: 4,
            sequence: Sequence::GreyTarget,
        },
        snapshot,
        update,
    )
}

#[test]
fn a_dose_is_filled_and_given(rt: HostRuntime) -> Result<(), Fail> {
    let dose = Dose::new(3, 250, 1)?;
    let other = Dose::new(4, 9_999_999, 0)?;
    let tables = Tables {
        nursery: &mut [other; 2],
        slots: &mut [other; 1],
        registers: &mut [0u32; 1],
        forward: &mut [Forward {
            target: None,
            copied: 0,
        }; 2],
        notes: &mut [Note { slot: 0, index: 0 }; 1],
        next: &mut [0u32; 1],
        previous: &mut [0u32; 1],
        stamp: &mut [0u32; 1],
    };
    let mut store = Store::open(
        tables,
        Sizes {
            slots: 1,
            places: 2,
            registers: 1,
            scans: 1,
        },
        Update,
    );
    let mut given = dose;
    let made = refusal(store.make(0, &other, &[0]));
    let first = refusal(store.plain(0, &mut given));
    let filled = refusal(store.fill(0, &dose));
    let mut again = other;
    let second = refusal(store.plain(0, &mut again));
    assert_eq!(rt; [made, first, filled, second], [0; 4]);
    assert_eq!(rt; given, other);
    assert_eq!(rt; again, dose);
    Ok(())
}
