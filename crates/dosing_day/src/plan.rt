// The day's calls. Each batch is a chain in the register of its valve: a record's link 0 leads to the one that was made before
// it.
ghost use Rattle.std.specs.Prelude.{◌≡◌, IfOk};
ghost use Rattle.kinds.specs.Doses.{dose_plain};
ghost use Rattle.dosing_day.specs.Plan.{meant, dose, flush, day_calls};

use crate::fault::DayFault;
use kinds::dose::{Dose, Mark};
use kinds::fault::StoreFault;
use std::alloc::{AllocError, Global};
use std::marker::Model;
use store::call::Call;

// A portion of a component, by its milligrams.
fn dose(component: u16, milligrams: u32) -> Result<Dose, StoreFault>
    ensures { IfOk result (λ portion. dose_plain portion ≡ dose component milligrams) }
{
    Dose::new(
        component,
        i64::from(milligrams),
        i64::from(Mark::Dose.number()),
    )
}

// A portion of the rinse, which is component 7, by its milligrams.
fn flush(milligrams: u32) -> Result<Dose, StoreFault>
    ensures { IfOk result (λ portion. dose_plain portion ≡ flush milligrams) }
{
    Dose::new(7, i64::from(milligrams), i64::from(Mark::Flush.number()))
}

// The calls so far, seen as the rules have them.
#[derive(Drop)]
struct Plan {
    heap: Global,
    calls: Vec<Call<Dose>>,
}

impl Model for Plan {
    ghost use Rattle.std.specs.Prelude.{List};
    ghost use Rattle.rules.specs.Rules.{Call as Made};
    ghost use Rattle.dosing_day.specs.Plan.{meant};

    ghost Value = { List Made };

    ghost view = { λ plan. meant plan.calls.items };
}

impl Plan {
    ghost use Rattle.std.specs.Prelude.{◌≡◌, [], ◌∷◌, ◌++◌, map, OnOk};
    ghost use Rattle.rules.specs.Rules.{make};
    ghost use Rattle.kinds.specs.Doses.{dose_plain};
    ghost use Rattle.dosing_day.specs.Plan.{meant, batch, morning_calls, noon_calls, evening_calls, closing_calls};

    // A plan without calls.
    fn new(heap: Global) -> Plan
        ensures { result ≡ [] }
    {
        Plan {
            heap,
            calls: Vec::new(heap),
        }
    }

    // Adds a call.
    fn add(&mut self, call: Call<Dose>) -> Result<(), AllocError>
        ensures { OnOk result (self.new ≡ self.old ++ meant (call ∷ [])) }
    {
        self.calls.push(call)?;
        Ok(())
    }

    // Adds a portion to the chain of a valve.
    fn add_portion(&mut self, valve: i64, portion: Dose) -> Result<(), AllocError>
        ensures { OnOk result (self.new ≡ self.old ++ (make valve (dose_plain portion) (valve ∷ []) ∷ [])) }
    {
        let links = vec![in self.heap; valve]?;
        self.add(Call::Make {
            d: valve,
            template: portion,
            links,
        })
    }

    // Adds portions to the chain of a valve, one after the other.
    fn add_batch(&mut self, valve: i64, portions: &[Dose]) -> Result<(), AllocError>
        ensures { OnOk result (self.new ≡ self.old ++ batch valve (map dose_plain portions.now)) }
    {
        for portion in portions {
            self.add_portion(valve, *portion)?;
        }
        Ok(())
    }

    // Valve 0: a flush, two doses and a flush; then a step.
    fn morning(&mut self) -> Result<(), DayFault>
        ensures { OnOk result (self.new ≡ self.old ++ morning_calls) }
    {
        let portions = [
            flush(2_000)?,
            dose(11, 15_000)?,
            dose(12, 7_500)?,
            flush(2_500)?,
        ];
        self.add_batch(0, &portions)?;
        self.add(Call::Step)?;
        Ok(())
    }

    // Valve 1: a flush, a dose and a flush; then a step, and the morning's batch is dropped.
    fn noon(&mut self) -> Result<(), DayFault>
        ensures { OnOk result (self.new ≡ self.old ++ noon_calls) }
    {
        let portions = [flush(1_800)?, dose(11, 9_000)?, flush(2_200)?];
        self.add_batch(1, &portions)?;
        self.add(Call::Step)?;
        self.add(Call::Empty { r: 0 })?;
        Ok(())
    }

    // Valve 0 again: a dose and a flush. Valve 2 goes on from the noon's batch with a flush. The flush of valve 3 is linked to
    // itself.
    fn evening(&mut self) -> Result<(), DayFault>
        ensures { OnOk result (self.new ≡ self.old ++ evening_calls) }
    {
        let portions = [dose(13, 4_000)?, flush(3_000)?];
        self.add_batch(0, &portions)?;
        self.add(Call::Copy { d: 2, s: 1 })?;
        self.add_portion(2, flush(500)?)?;
        self.add_portion(3, flush(100)?)?;
        self.add(Call::Write { s: 3, k: 0, t: 3 })?;
        Ok(())
    }

    // The arcs are told, everything out of reach is taken back, and the arcs are told again.
    fn closing(&mut self) -> Result<(), AllocError>
        ensures { OnOk result (self.new ≡ self.old ++ closing_calls) }
    {
        self.add(Call::Tell)?;
        self.add(Call::Full)?;
        self.add(Call::Tell)?;
        Ok(())
    }

    // The calls.
    fn finish(self) -> Vec<Call<Dose>>
        ensures { meant result.items ≡ self }
    {
        let Plan { heap: _, calls } = self;
        calls
    }
}

// All calls of the day.
pub fn day(heap: Global) -> Result<Vec<Call<Dose>>, DayFault>
    ensures { IfOk result (λ calls. meant calls.items ≡ day_calls) }
{
    let mut plan = Plan::new(heap);
    plan.morning()?;
    plan.noon()?;
    plan.evening()?;
    plan.closing()?;
    Ok(plan.finish())
}
