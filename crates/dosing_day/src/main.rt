// A dosing day in the ink kitchen: batches of doses and flushes are kept as chains in a store, the day's calls are made by one
// run, and at the end the flushes of each valve are tallied.
#![tactic(auto)]

mod fault;
mod plan;
mod report;

use fault::DayFault;
use heap::heap::tables::Memory;
use heap::sizes::Sizes;
use kinds::barrier::Snapshot;
use kinds::dose::Dose;
use store::run::run;

const SLOTS: usize = 12;

const PLACES: usize = 4;

// Each valve has a register.
const VALVES: usize = 4;

// The sizes of the day's store. Three are casts, since there is no From<usize> for i64.
const SIZES: Sizes = Sizes {
    slots: SLOTS as i64,
    places: PLACES as i64,
    registers: VALVES as i64,
    scans: 3,
};

fn main(rt: HostRuntime) -> Result<(), DayFault> {
    let blank = Dose::new(0, 0, 0)?;
    let mut memory = Memory::<Dose, SLOTS, PLACES, VALVES>::new(blank);
    let calls = plan::day(rt.alloc())?;
    let mut answers = Vec::new(rt.alloc());
    let mut store = run(memory.lend(), SIZES, Snapshot, &calls, &mut answers);
    store.why()?;
    if answers.len() < calls.len() {
        return Err(DayFault::Unanswered);
    }
    report::print_day(&rt, &calls, &answers)?;
    for valve in 0..SIZES.registers {
        report::print_tally(&rt, valve, store.tally(valve))?;
    }
    Ok(())
}
