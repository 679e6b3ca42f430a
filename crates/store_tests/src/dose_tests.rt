// A store of doses on examples: a list of calls made by one run, and tally.
use heap::heap::tables::Tables;
use heap::rows::{Forward, Note};
use heap::sizes::Sizes;
use heap::stepped::Stepped;
use heap::tally::Tally;
use kinds::barrier::{Barrier, Snapshot, Update};
use kinds::dose::Dose;
use kinds::fault::StoreFault;
use std::alloc::{AllocError, Global};
use std::process::Abort;
use std::test::Fail;
use store::call::{Answer, Call};
use store::run::run;

// A dose is made with the record in register 0 as its link, and put there.
fn chained(heap: Global, template: Dose) -> Result<Call<Dose>, AllocError> {
    Ok(Call::Make {
        d: 0,
        template,
        links: vec![in heap; 0]?,
    })
}

// A flush, a dose and a flush in a chain from register 0, a step, a full collection, and what register 0 holds.
fn chain_calls(heap: Global, dose: Dose, flush: Dose) -> Result<Vec<Call<Dose>>, AllocError> {
    let mut calls = Vec::new(heap);
    calls.push(chained(heap, flush)?)?;
    calls.push(chained(heap, dose)?)?;
    calls.push(Call::Step)?;
    calls.push(chained(heap, flush)?)?;
    calls.push(Call::Full)?;
    calls.push(Call::Plain { s: 0, record: dose })?;
    calls.push(Call::Look { r: 2 })?;
    Ok(calls)
}

fn run_chain<B: Barrier>(
    rt: &(impl Abort + AllocGlobal),
    barrier: B,
    slots: i64,
) -> Result<(), Fail> {
    let dose = Dose::new(3, 5, 0)?;
    let flush = Dose::new(4, 9_999_999, 1)?;
    let mut nursery = [dose; 2];
    let mut old = [dose; 4];
    let mut registers = [0u32; 2];
    let mut forward = [Forward {
        target: None,
        copied: 0,
    }; 2];
    let mut notes = [Note { slot: 0, index: 0 }; 4];
    let mut next = [0u32; 4];
    let mut previous = [0u32; 4];
    let mut stamp = [0u32; 4];
    let tables = Tables {
        nursery: &mut nursery,
        slots: &mut old,
        registers: &mut registers,
        forward: &mut forward,
        notes: &mut notes,
        next: &mut next,
        previous: &mut previous,
        stamp: &mut stamp,
    };
    let sizes = Sizes {
        slots,
        places: 2,
        registers: 2,
        scans: 1,
    };
    let calls = chain_calls(rt.alloc(), dose, flush)?;
    let mut answers = Vec::new(rt.alloc());
    let mut store = run(tables, sizes, barrier, &calls, &mut answers);
    if slots > 4 {
        assert_eq!(rt; answers.last().copied(), Some(Err(StoreFault::Closed)));
        assert_eq!(rt; store.tally(0), Err(StoreFault::Closed));
        return Ok(());
    }
    assert!(rt; answers.len() == 7);
    assert_eq!(rt; answers[1], Ok(Answer::Count(2)));
    let collected = Stepped {
        copied: 1,
        scanned: 4,
        freed: 0,
        cycle_open: false,
    };
    assert_eq!(rt; answers[4], Ok(Answer::Collected(collected)));
    assert_eq!(rt; answers[5], Ok(Answer::Given(flush)));
    assert_eq!(rt; answers[6], Err(StoreFault::NoSuchRegister));
    let tally = Tally {
        flushes: 2,
        weight: 19_999_998,
    };
    assert_eq!(rt; store.tally(0), Ok(tally));
    assert_eq!(rt; store.tally(-1), Err(StoreFault::NoSuchRegister));
    assert_eq!(rt; store.write(0, 0, 0), Ok(()));
    assert_eq!(rt; store.tally(0), Err(StoreFault::EndlessChain));
    assert_eq!(rt; StoreFault::EndlessChain.number(), 25);
    Ok(())
}

#[test]
fn chains_of_doses(rt: HostRuntime) -> Result<(), Fail> {
    run_chain(&rt, Snapshot, 4)?;
    run_chain(&rt, Update, 4)?;
    run_chain(&rt, Snapshot, 5)?;
    run_chain(&rt, Update, 5)
}
