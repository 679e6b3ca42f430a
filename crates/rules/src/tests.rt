// Barriers, figures and refusals on examples.
use super::barrier::{BarrierTable, is_lawful};
use super::planning::{cycle_steps, slots_needed};
use super::refusal::may_refuse;

#[test]
fn barriers(rt: HostRuntime) {
    let silent = BarrierTable::default();
    assert!(rt; !is_lawful(silent));
    assert!(rt;
        is_lawful(BarrierTable {
            old_unmarked: true,
            old_marked: true,
            ..silent
        })
    );
    assert!(rt;
        is_lawful(BarrierTable {
            rescans: true,
            new_marked: true,
            ..silent
        })
    );
    assert!(rt;
        !is_lawful(BarrierTable {
            new_unmarked: true,
            new_marked: true,
            ..silent
        })
    );
}

#[test]
fn figures(rt: HostRuntime) {
    assert_eq!(rt; cycle_steps(10, 3), Some(4));
    assert_eq!(rt; cycle_steps(0, 3), Some(1));
    assert_eq!(rt; cycle_steps(5, 0), None);
    assert_eq!(rt; slots_needed(10, 4, 3), Some(38));
    assert_eq!(rt; slots_needed(4_294_967_295, 4_294_967_295, 1), None);
    assert!(rt; may_refuse(23) && !may_refuse(24));
}
