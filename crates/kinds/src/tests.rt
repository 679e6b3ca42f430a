// Kinds and barriers on examples.
use super::dose::{Dose, Mark};
use super::fault::StoreFault;
use super::kind::Kind;
use super::pair::Pair;
use std::test::Fail;

fn replaced<T: Kind>(record: T, k: usize, w: u32) -> u32 {
    let mut copy = record;
    copy.set_link(k, w);
    copy.link(0)
}

#[test]
fn links_are_given_and_replaced(rt: HostRuntime) -> Result<(), Fail> {
    let pair = Pair { head: 3, tail: 7 };
    assert_eq!(rt; pair.link(1), 7);
    assert_eq!(rt; pair.link(2), 0);
    assert_eq!(rt; replaced(pair, 0, 9), 9);
    assert_eq!(rt; replaced(pair, 2, 9), 3);
    let dose = Dose::new(65_535, 9_999_999, 1)?;
    assert_eq!(rt; dose.weight(), 9_999_999);
    assert_eq!(rt; dose.mark(), Mark::Flush);
    assert_eq!(rt; replaced(dose, 1, 9), 0);
    assert_eq!(rt; replaced(dose, 0, 9), 9);
    Ok(())
}

#[test]
fn a_dose_out_of_range_is_refused(rt: HostRuntime) {
    assert_eq!(rt; Dose::new(1, 10_000_000, 0), Err(StoreFault::BadDose));
    assert_eq!(rt; Dose::new(1, -1, 0), Err(StoreFault::BadDose));
    assert_eq!(rt; Dose::new(1, 5, 2), Err(StoreFault::BadDose));
    assert_eq!(rt; Dose::new(1, 5, -1), Err(StoreFault::BadDose));
    assert_eq!(rt; StoreFault::BadDose.number(), 7);
}
