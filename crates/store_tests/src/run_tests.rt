// One run of the thirteen calls over a store of pairs, under each barrier.
use heap::heap::tables::Tables;
use heap::rows::{Forward, Note};
use heap::seen::Seen;
use heap::sizes::Sizes;
use heap::stepped::Stepped;
use kinds::barrier::{Barrier, Snapshot, Update};
use kinds::fault::StoreFault;
use kinds::pair::Pair;
use ring::arcs::Lengths;
use std::alloc::{AllocError, Global};
use std::process::Abort;
use std::test::Fail;
use store::call::{Answer, Call};
use store::run::run;

const PAIR: Pair = Pair { head: 9, tail: 9 };

// A pair of sevens, read, written and filled, which a step moves; then register 2 alone has it.
fn thirteen(heap: Global) -> Result<Vec<Call<Pair>>, AllocError> {
    let links = vec![in heap; 0, 0]?;
    let mut calls = Vec::new(heap);
    calls.push(Call::Load { r: 0, v: 7 })?;
    calls.push(Call::Make {
        d: 1,
        template: PAIR,
        links,
    })?;
    calls.push(Call::Read { d: 2, s: 1, k: 1 })?;
    calls.push(Call::Same { a: 0, b: 2 })?;
    calls.push(Call::Look { r: 2 })?;
    calls.push(Call::Write { s: 1, k: 0, t: 1 })?;
    calls.push(Call::Fill {
        s: 1,
        template: PAIR,
    })?;
    calls.push(Call::Plain { s: 1, record: PAIR })?;
    calls.push(Call::Step)?;
    calls.push(Call::Copy { d: 2, s: 1 })?;
    calls.push(Call::Empty { r: 1 })?;
    calls.push(Call::Tell)?;
    calls.push(Call::Full)?;
    Ok(calls)
}

fn collected(copied: u32) -> Result<Answer<Pair>, StoreFault> {
    Ok(Answer::Collected(Stepped {
        copied,
        scanned: 1,
        freed: 0,
        cycle_open: false,
    }))
}

fn answers_of_thirteen() -> [Result<Answer<Pair>, StoreFault>; 13] {
    [
        Ok(Answer::Done),
        Ok(Answer::Count(1)),
        Ok(Answer::Done),
        Ok(Answer::Flag(true)),
        Ok(Answer::Held(Seen::Number(7))),
        Ok(Answer::Done),
        Ok(Answer::Done),
        Ok(Answer::Given(Pair { head: 0, tail: 0 })),
        collected(1),
        Ok(Answer::Done),
        Ok(Answer::Done),
        Ok(Answer::Arcs(Lengths {
            free: 3,
            white: 0,
            grey: 0,
            black: 1,
        })),
        collected(0),
    ]
}

fn run_thirteen<B: Barrier>(rt: &(impl Abort + AllocGlobal), barrier: B) -> Result<(), Fail> {
    let tables = Tables {
        nursery: &mut [PAIR; 2],
        slots: &mut [PAIR; 4],
        registers: &mut [9u32; 3],
        forward: &mut [Forward {
            target: None,
            copied: 0,
        }; 2],
        notes: &mut [Note { slot: 0, index: 0 }; 4],
        next: &mut [9u32; 4],
        previous: &mut [9u32; 4],
        stamp: &mut [9u32; 4],
    };
    let sizes = Sizes {
        slots: 4,
        places: 2,
        registers: 3,
        scans: 1,
    };
    let calls = thirteen(rt.alloc())?;
    let mut answers = Vec::new(rt.alloc());
    let store = run(tables, sizes, barrier, &calls, &mut answers);
    assert_eq!(rt; store.why(), Ok(()));
    assert!(rt; answers.as_slice() == answers_of_thirteen().as_slice());
    Ok(())
}

#[test]
fn one_run_makes_the_thirteen_calls(rt: HostRuntime) -> Result<(), Fail> {
    run_thirteen(&rt, Snapshot)?;
    run_thirteen(&rt, Update)
}
