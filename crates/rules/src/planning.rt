// Figures for planning, without touching a store.
ghost use Rattle.std.specs.Prelude.{◌≡◌, ℕ, ◌+◌, ◌-◌, ◌*◌, ◌/◌, ◌^◌, ◌<◌, Some};
ghost use Rattle.std.specs.Option.{SomeIff};
ghost use Rattle.rules.specs.Planning.{cycle_steps_of, slots_needed};
ghost use Rattle.rules.specs.Statements.{ClosesWithin, RoomSuffices, ReachableRecordsAreCounted};
ghost use Rattle.rules.specs.Cases.{WorkedCases};

// The steps that a cycle may take with n records reachable when it opens and k scans a step: n / k rounded up, and at
// least 1. None without scans.
pub fn cycle_steps(n: u32, k: u32) -> Option<u32>
    ensures value { result ≡ cycle_steps_of n k }
    ensures closes { (t : ℕ) → result ≡ Some t → ClosesWithin n k t }
    ensures counted { ReachableRecordsAreCounted }
{
    (k > 0).then(|| n.div_ceil(k).max(1))
}

// l records and 2 × steps − 1 full nurseries of y records; None past 64 bits.
fn with_nurseries(l: u32, y: u32, steps: u32) -> Option<u64>
    requires { 0 < steps }
    ensures { SomeIff result ((2 * steps - 1) * y + l < 2 ^ 64) ((2 * steps - 1) * y + l) }
{
    let nurseries = 2 * u64::from(steps) - 1;
    nurseries
        .checked_mul(u64::from(y))?
        .checked_add(u64::from(l))
}

// The least number of slots for l reachable records, y nursery places and k scans a step. None without scans, or if the
// number has more than 64 bits.
pub fn slots_needed(l: u32, y: u32, k: u32) -> Option<u64>
    ensures value { result ≡ slots_needed l y k }
    ensures suffices { (s : ℕ) → result ≡ Some s → RoomSuffices l y k s }
    ensures cases { WorkedCases }
{
    let steps = cycle_steps(l, k)?;
    with_nurseries(l, y, steps)
}
