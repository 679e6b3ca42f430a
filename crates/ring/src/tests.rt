// What the ring does on small examples.
use crate::arcs::{Colour, Lengths};
use crate::ring::Ring;
use std::test::Fail;

#[test]
fn one_slot(rt: HostRuntime) {
    let mut next = [9u32; 1];
    let mut previous = [9u32; 1];
    let mut stamp = [9u32; 1];
    let mut r = Ring::new(&mut next, &mut previous, &mut stamp, 1);
    assert_eq!(rt; r.take(), Some(0));
    assert_eq!(rt; r.take(), None);
    assert!(rt; r.open_cycle());
    assert!(rt; r.shade(0));
    assert_eq!(rt; r.scan(), Some(0));
    assert!(rt; r.close_cycle());
    assert_eq!(rt; r.next_slot(0), Some(0));
}

#[test]
fn two_slots(rt: HostRuntime) {
    let mut next = [9u32; 2];
    let mut previous = [9u32; 2];
    let mut stamp = [9u32; 2];
    let mut r = Ring::new(&mut next, &mut previous, &mut stamp, 2);
    assert_eq!(rt; r.take(), Some(0));
    assert_eq!(rt; r.take(), Some(1));
    assert!(rt; r.open_cycle());
    assert!(rt; !r.open_cycle());
    assert!(rt; r.shade(0));
    assert!(rt; !r.close_cycle());
    assert_eq!(rt; r.scan(), Some(0));
    assert!(rt; r.close_cycle());
    assert_eq!(rt; r.first_free(), Some(1));
    assert!(rt; r.is_marked(0) && !r.is_marked(1));
}

// All three slots are white; the first and the last are shaded, then the only one left.
#[test]
fn all_white(rt: HostRuntime) {
    let mut next = [9u32; 3];
    let mut previous = [9u32; 3];
    let mut stamp = [9u32; 3];
    let mut r = Ring::new(&mut next, &mut previous, &mut stamp, 3);
    assert_eq!(rt; r.take(), Some(0));
    assert_eq!(rt; r.take(), Some(1));
    assert_eq!(rt; r.take(), Some(2));
    assert!(rt; r.open_cycle());
    assert!(rt; r.shade(0));
    assert!(rt; r.shade(2));
    assert!(rt; r.shade(1));
    assert_eq!(rt; r.scan(), Some(0));
    assert_eq!(rt; r.scan(), Some(2));
    assert_eq!(rt; r.scan(), Some(1));
    assert_eq!(rt; r.scan(), None);
}

// A slot beyond the ring is passed over and has no colour.
#[test]
fn beyond(rt: HostRuntime) {
    let mut next = [9u32; 3];
    let mut previous = [9u32; 3];
    let mut stamp = [9u32; 3];
    let mut r = Ring::new(&mut next, &mut previous, &mut stamp, 2);
    assert_eq!(rt; r.take(), Some(0));
    assert!(rt; r.open_cycle());
    assert!(rt; !r.shade(2));
    assert_eq!(rt; r.colour(2), None);
    assert_eq!(rt; r.next_slot(2), None);
    let lengths = Lengths {
        free: 1,
        white: 1,
        ..Lengths::default()
    };
    assert_eq!(rt; r.lengths(), lengths);
    assert!(rt; next[2] == 9 && previous[2] == 9 && stamp[2] == 9);
}

#[test]
fn lengths_printed(rt: HostRuntime) -> Result<(), Fail> {
    let lengths = Lengths {
        free: 3,
        grey: 1,
        black: 2,
        ..Lengths::default()
    };
    let text = lengths.to_string(rt.alloc())?;
    assert_eq!(rt; text.as_str(), "free 3, white 0, grey 1, black 2");
    Ok(())
}

// With a short table the ring has no slot and the tables stay.
#[test]
fn short_table(rt: HostRuntime) {
    let mut next = [9u32; 3];
    let mut previous = [9u32; 2];
    let mut stamp = [9u32; 3];
    let mut r = Ring::new(&mut next, &mut previous, &mut stamp, 3);
    assert_eq!(rt; r.take(), None);
    assert_eq!(rt; r.slot_count(), 0);
    assert!(rt; next[0] == 9 && previous[0] == 9 && stamp[0] == 9);
}

// The stamps are renewed when a cycle opens in the last epoch that has room for its colours.
#[test]
fn renewal(rt: HostRuntime) {
    let mut next = [9u32; 2];
    let mut previous = [9u32; 2];
    let mut stamp = [9u32; 2];
    let mut r = Ring::begin(&mut next, &mut previous, &mut stamp, 2, 4_294_967_294);
    assert_eq!(rt; r.take(), Some(0));
    assert!(rt; r.open_cycle());
    assert!(rt; r.shade(0));
    assert_eq!(rt; r.colour(0), Some(Colour::Grey));
    assert_eq!(rt; r.colour(1), Some(Colour::Free));
    assert!(rt; stamp[0] == 5 && stamp[1] == 0);
}
